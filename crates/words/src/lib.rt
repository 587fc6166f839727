// The words of an index: the rank at a place, and how often a rank stands below a place, by walks
// down the byte tree. A walk passes at most three nodes, and asks the directory at most twice in
// each.
//
// No function of this crate is an entry: an indexed text has passed the check, and its table has been
// filled by `starts::node_starts`. What the methods answer is defined over its text.
#![tactic(auto)]

ghost use Rattle.std.specs.Prelude.{◌≡◌, ◌+◌, ◌≤◌, ◌<◌, length, get_or, take};
ghost use Rattle.base.specs.Lists.{count_of};
ghost use Rattle.tree.specs.Nodes.{position, node_of, closing_byte};
ghost use Rattle.words.specs.Words.{rank_at, occurrences_below, frequency};
ghost use Rattle.words.specs.Ready.{WordsOf};
ghost use Rattle.words.specs.Steps.{StepIn, BelowOf};
ghost use Rattle.words.specs.Texts.{text_of, vocabulary_of, bytes_of_node};

pub mod indexed_text;

use directory::CountedBytes;
use indexed_text::IndexedText;
use tree::{Place, Position};

// The number of words of the text: the length of the root.
pub fn text_length(lengths: &[u32]) -> usize
    requires { 0 < length lengths.now }
    ensures { (result ≡ get_or lengths.now 0 0) × WordsOf lengths.now result }
{
    lengths[0] as usize
}

// A step of the way from a word up to the root: a byte is looked for in a node, and stands so often
// before it.
#[derive(Clone, Copy)]
pub struct Step {
    pub node: usize,
    pub byte: u8,
    pub skipped: usize,
}

// The step that looks for a byte in a node, by a table of where the nodes start.
pub fn step_in(counted: &CountedBytes, starts: &[u32], node: usize, byte: u8) -> Step
    requires { (node < length starts.now) × (get_or starts.now node 0 ≤ length counted.now.bytes.now) }
    ensures { StepIn counted.now.bytes.now starts.now node byte result }
{
    let start = starts[node] as usize;
    let skipped = counted.count_below(byte, start);
    Step {
        node,
        byte,
        skipped,
    }
}

// How often a rank stands below a place, and the position of the place in the node where its codeword
// ends.
#[derive(Clone, Copy)]
pub struct Below {
    pub at: Position,
    pub count: usize,
}

impl<'a> IndexedText<'a> {
    // The number of words of the text.
    pub fn length(&self) -> usize
        ensures { result ≡ length (text_of self.now) }
    {
        text_length(self.index.lengths)
    }

    // The bytes of its nodes with their directory.
    pub fn counted(&self) -> CountedBytes<'a>
        ensures { result.bytes.now ≡ self.now.index.bytes.now }
    {
        let index = self.index;
        CountedBytes {
            bytes: index.bytes,
            superblocks: index.superblocks,
            blocks: index.blocks,
            block: index.shape.block,
            per: index.shape.per_superblock,
        }
    }

    // Where a node starts in the bytes.
    pub fn start_of(&self, node: usize) -> usize
        requires { node < length self.now.index.lengths.now }
        ensures { (result ≡ get_or self.now.starts.now node 0) × (result ≤ length self.now.index.bytes.now) }
    {
        self.starts[node] as usize
    }

    // The byte at a position of a node.
    fn byte_at(&self, node: usize, at: Position) -> u8
        requires { (node < length self.now.index.lengths.now) × (at.0 < length (bytes_of_node self.now node)) }
        ensures { result ≡ get_or (bytes_of_node self.now node) at.0 0 }
    {
        let start = self.start_of(node);
        self.index.bytes[start + at.0]
    }

    // The step that looks for a byte in a node.
    pub fn step_in(&self, node: usize, byte: u8) -> Step
        requires { node < length self.now.index.lengths.now }
        ensures { StepIn self.now.index.bytes.now self.now.starts.now node byte result }
    {
        step_in(&self.counted(), self.starts, node, byte)
    }

    // How often the byte of a step stands below a position of its node: so often it stands below the
    // position in all bytes, less those before the node.
    fn count_in_step(&self, step: Step, at: Position) -> usize
        requires { (step.node < length self.now.index.lengths.now) × StepIn self.now.index.bytes.now self.now.starts.now step.node step.byte step × (at.0 ≤ length (bytes_of_node self.now step.node)) }
        ensures { result ≡ count_of step.byte (take at.0 (bytes_of_node self.now step.node)) }
    {
        let start = self.start_of(step.node);
        let below = self.counted().count_below(step.byte, start + at.0);
        below - step.skipped
    }

    // How often a byte stands below a position of a node. For a byte that leads on it is the position
    // in its child.
    fn count_in_node(&self, node: usize, byte: u8, at: Position) -> usize
        requires { (node < length self.now.index.lengths.now) × (at.0 ≤ length (bytes_of_node self.now node)) }
        ensures { result ≡ count_of byte (take at.0 (bytes_of_node self.now node)) }
    {
        let step = self.step_in(node, byte);
        self.count_in_step(step, at)
    }

    // The position in a node of a place of the text or of its end: by the position in the node's
    // parent.
    fn position_in(&self, node: usize, place: Place) -> Position
        requires { (node < length self.now.index.lengths.now) × (place.0 ≤ length (text_of self.now)) }
        ensures { result.0 ≡ position self.now.index.s node place.0 (text_of self.now) }
    {
        if node == 0 {
            return tree::root_position(place);
        }
        let up = tree::parent(self.index.s, node);
        let byte = tree::digit(self.index.s, node);
        let at = self.position_in(up, place);
        Position(self.count_in_node(up, byte, at))
    }

    // The rank at a place of the text: down from the root, to the byte that closes the word.
    pub fn word_at(&self, place: Place) -> u32
        requires { place.0 < length (text_of self.now) }
        ensures { result ≡ rank_at (text_of self.now) place.0 }
    {
        let s = self.index.s;
        let least = 256 - s;
        let mut node = 0;
        let mut at = tree::root_position(place);
        let mut byte = self.byte_at(node, at);
        while usize::from(byte) < least {
            let below = self.count_in_node(node, byte, at);
            node = tree::child(s, node, byte);
            at = Position(below);
            byte = self.byte_at(node, at);
        }
        (s * node + (usize::from(byte) - least)) as u32
    }

    // How often a rank stands below a place of the text, or in the whole text at its end: so often its
    // closing byte stands below the position of the place in the node where its codeword ends.
    pub fn count_below(&self, rank: usize, place: Place) -> Below
        requires { (rank < vocabulary_of self.now) × (place.0 ≤ length (text_of self.now)) }
        ensures { BelowOf self.now.index.s self.now.index.bytes.now self.now.starts.now rank result × (result.count ≡ occurrences_below (text_of self.now) rank place.0) }
    {
        let node = tree::node_of(self.index.s, rank);
        let byte = tree::closing_byte(self.index.s, rank);
        let at = self.position_in(node, place);
        let count = self.count_in_node(node, byte, at);
        Below { at, count }
    }

    // The number alone.
    pub fn occurrences_below(&self, rank: usize, place: Place) -> usize
        requires { (rank < vocabulary_of self.now) × (place.0 ≤ length (text_of self.now)) }
        ensures { result ≡ occurrences_below (text_of self.now) rank place.0 }
    {
        self.count_below(rank, place).count
    }

    // How often a rank stands in the text, by the first step of its way: so often its closing byte
    // stands in its node.
    pub fn frequency_by(&self, rank: usize, first: Step) -> usize
        requires { (rank < vocabulary_of self.now) × StepIn self.now.index.bytes.now self.now.starts.now (node_of self.now.index.s rank) (closing_byte self.now.index.s rank) first }
        ensures { result ≡ frequency (text_of self.now) rank }
    {
        let size = self.index.lengths[first.node] as usize;
        self.count_in_step(first, Position(size))
    }

    // How often a rank stands in the text.
    pub fn frequency(&self, rank: usize) -> usize
        requires { rank < vocabulary_of self.now }
        ensures { result ≡ frequency (text_of self.now) rank }
    {
        let node = tree::node_of(self.index.s, rank);
        let byte = tree::closing_byte(self.index.s, rank);
        let first = self.step_in(node, byte);
        self.frequency_by(rank, first)
    }
}
