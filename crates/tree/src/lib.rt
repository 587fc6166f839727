// The byte tree of paper 01: the numbers of its nodes, over the number s of closing byte values, and
// places of the text as positions in the root. Its laws are in `proofs/`, stated in `specs/Theorems`.
#![tactic(auto)]

ghost use Rattle.std.specs.Prelude.{◌≡◌, ◌≤◌, ◌<◌};
ghost use Rattle.dense.specs.Code.{Closing, max_vocabulary};
ghost use Rattle.tree.specs.Nodes.{child, parent, digit, node_count, max_nodes, node_of, closing_byte, root_position, root_place};

// A place counts words of the text.
#[derive(Clone, Copy)]
pub struct Place(pub usize);

// A position counts bytes inside one node.
#[derive(Clone, Copy)]
pub struct Position(pub usize);

// The position in the root of a place. No `From`: in another node the place has another position.
pub fn root_position(place: Place) -> Position
    ensures { result ≡ root_position place }
{
    Position(place.0)
}

// The place of a position in the root.
pub fn root_place(at: Position) -> Place
    ensures { result ≡ root_place at }
{
    Place(at.0)
}

// The number of nodes of a vocabulary.
pub fn node_count(s: usize, vocabulary: usize) -> usize
    requires { Closing s × (vocabulary ≤ max_vocabulary s) }
    ensures { result ≡ node_count s vocabulary }
{
    (vocabulary + (s - 1)) / s
}

// The child of a node by a byte.
pub fn child(s: usize, node: usize, byte: u8) -> usize
    requires { Closing s × (node < max_nodes s) }
    ensures { result ≡ child s node byte }
{
    (256 - s) * node + 1 + usize::from(byte)
}

// The node of which a node other than the root is a child.
pub fn parent(s: usize, node: usize) -> usize
    requires { Closing s × (1 ≤ node) }
    ensures { result ≡ parent s node }
{
    (node - 1) / (256 - s)
}

// The byte by which it is a child.
pub fn digit(s: usize, node: usize) -> u8
    requires { Closing s × (1 ≤ node) }
    ensures { result ≡ digit s node }
{
    ((node - 1) % (256 - s)) as u8
}

// The node in which the codeword of a rank ends.
pub fn node_of(s: usize, rank: usize) -> usize
    requires { Closing s }
    ensures { result ≡ node_of s rank }
{
    rank / s
}

// The byte with which it ends there.
pub fn closing_byte(s: usize, rank: usize) -> u8
    requires { Closing s }
    ensures { result ≡ closing_byte s rank }
{
    (256 - s + rank % s) as u8
}
