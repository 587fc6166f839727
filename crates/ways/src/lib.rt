// The way of a rank from the node where its codeword ends up to the root, and a walk along the
// occurrences of a rank: where it stands with j others before it, and the part of the root in which
// it next stands. A walk passes at most three nodes.
//
// No function of this crate is an entry: an indexed text has passed the check, and the rest is what
// the callers have shown. What the functions answer is defined over the text.
#![tactic(auto)]

ghost use Rattle.std.specs.Prelude.{◌≡◌, ◌+◌, ◌≤◌, ◌<◌, length, get_or, take};
ghost use Rattle.base.specs.Lists.{count_of, nth};
ghost use Rattle.words.specs.Words.{occurrences_below, frequency};
ghost use Rattle.words.specs.Texts.{text_of, vocabulary_of, bytes_of_node};
ghost use Rattle.ways.specs.Ways.{WayOf, TrackOf};
ghost use Rattle.ways.specs.Asks.{Asks};

use directory::Span;
use tree::{Place, Position};
use words::Step;
use words::indexed_text::IndexedText;

// The way of a rank from the node where its codeword ends up to the root: as many steps as its
// codeword has bytes, the first and those above it. No heap is here, so the array has room for the
// longest way, and a longer one is three steps long.
#[derive(Clone, Copy)]
pub struct Way {
    pub length: usize,
    pub first: Step,
    pub above: [Step; 2],
}

// The way of a rank: its closing byte in the node where its codeword ends, and from each node other
// than the root its digit in the parent.
pub fn way_of(text: &IndexedText, rank: usize) -> Way
    requires { rank < vocabulary_of text.now }
    ensures { WayOf text.now.index.s text.now.index.bytes.now text.now.starts.now rank result × (result.length ≤ 3) }
{
    let s = text.index.s;
    let mut node = tree::node_of(s, rank);
    let byte = tree::closing_byte(s, rank);
    let first = text.step_in(node, byte);
    let mut above = [first; 2];
    let mut length = 1;
    while node != 0 {
        let up = tree::parent(s, node);
        let digit = tree::digit(s, node);
        above[length - 1] = text.step_in(up, digit);
        length += 1;
        node = up;
    }
    Way {
        length,
        first,
        above,
    }
}

// The superblock rows near which the steps of a way seek; they decide how long that takes, and
// nothing else.
#[derive(Clone, Copy)]
pub struct Near {
    pub first: usize,
    pub above: [usize; 2],
}

// No row: each step seeks among all.
pub fn nowhere(superblocks: &[u32]) -> Near {
    let rows = superblocks.len();
    Near {
        first: rows,
        above: [rows; 2],
    }
}

// What a step finds: a position in its node, and the superblock row in which it lies.
#[derive(Clone, Copy)]
struct Located {
    at: Position,
    superblock: usize,
}

// The position in the node of a step of the byte that has j others equal to it before it in the
// node, sought near a superblock row.
fn nth_in_node(text: &IndexedText, step: Step, j: usize, near: usize) -> Located
    requires { Asks text.now step j }
    ensures { result.at.0 ≡ nth step.byte j (bytes_of_node text.now step.node) }
{
    let start = text.start_of(step.node);
    let ordinal = step.skipped + j;
    let found = text.counted().nth(step.byte, ordinal, near);
    let at = found.at - start;
    Located {
        at: Position(at),
        superblock: found.superblock,
    }
}

// A place at which a rank stands, and the rows near which the one after it is sought.
#[derive(Clone, Copy)]
pub struct Next {
    pub place: Place,
    pub near: Near,
}

// The place at which a rank stands with j others of it before it, along its way: up from its closing
// byte in the node where its codeword ends, to the root, where a position is a place.
pub fn place_along(text: &IndexedText, rank: usize, way: Way, near: Near, j: usize) -> Next
    requires { (rank < vocabulary_of text.now) × WayOf text.now.index.s text.now.index.bytes.now text.now.starts.now rank way × (j < frequency (text_of text.now) rank) }
    ensures { result.place.0 ≡ nth rank j (text_of text.now) }
{
    let low = nth_in_node(text, way.first, j, near.first);
    let mut at = low.at;
    let mut above = near.above;
    for i in 0..way.length.min(3) - 1 {
        let found = nth_in_node(text, way.above[i], at.0, above[i]);
        at = found.at;
        above[i] = found.superblock;
    }
    Next {
        place: tree::root_place(at),
        near: Near {
            first: low.superblock,
            above,
        },
    }
}

// The position in the node of a step of the byte that has j others equal to it before it in the
// node, where as many stand before a position of the node: read on from there.
fn next_in_node(text: &IndexedText, step: Step, at: Position, j: usize, near: usize) -> Located
    requires { Asks text.now step j × (at.0 ≤ length (bytes_of_node text.now step.node)) × (count_of step.byte (take at.0 (bytes_of_node text.now step.node)) ≡ j) }
    ensures { result.at.0 ≡ nth step.byte j (bytes_of_node text.now step.node) }
{
    let start = text.start_of(step.node);
    let ordinal = step.skipped + j;
    let from = start + at.0;
    let found = text.counted().nth_from(step.byte, ordinal, from, near);
    let position = found.at - start;
    Located {
        at: Position(position),
        superblock: found.superblock,
    }
}

// The piece of the root in which the byte of a step that has j others before it lies; exactly, that
// byte itself. The root is where the bytes begin.
fn piece_in_root(text: &IndexedText, step: Step, j: usize, near: usize, exact: bool) -> Span
    requires { Asks text.now step j × (get_or text.now.starts.now step.node 0 ≡ 0) }
    ensures { (result.from ≤ nth step.byte j (bytes_of_node text.now step.node)) × (nth step.byte j (bytes_of_node text.now step.node) < result.to) }
{
    let counted = text.counted();
    if exact {
        let found = counted.nth(step.byte, j, near);
        let at = found.at;
        return Span {
            from: at,
            to: at + 1,
            superblock: found.superblock,
        };
    }
    counted.piece_of(step.byte, j, near)
}

// A walk along the occurrences of a rank: how many are passed, the position in the node where its
// codeword ends before which they stand, and the rows near which the next one is sought.
#[derive(Clone, Copy)]
pub struct Track {
    pub ordinal: usize,
    pub at: Position,
    pub near: Near,
}

// A walk that has passed the occurrences of a rank below a place of the text or its end.
pub fn track_from(text: &IndexedText, rank: usize, place: Place) -> Track
    requires { (rank < vocabulary_of text.now) × (place.0 ≤ length (text_of text.now)) }
    ensures { TrackOf text.now.index.s text.now.index.bytes.now text.now.starts.now rank result × (result.ordinal ≡ occurrences_below (text_of text.now) rank place.0) }
{
    let passed = text.count_below(rank, place);
    Track {
        ordinal: passed.count,
        at: passed.at,
        near: nowhere(text.index.superblocks),
    }
}

// The part of the root, from one place on and below another, in which a rank stands next, and the
// walk past that occurrence.
#[derive(Clone, Copy)]
pub struct Stretch {
    pub from: usize,
    pub to: usize,
    pub track: Track,
}

// The part of the root in which the occurrence after those that a walk has passed stands: along its
// way, from its closing byte in the node where its codeword ends up to the root, where a position is
// a place. Exactly, its place alone; otherwise its piece, and the place is not looked for. A flag says
// which, as the callers have it from a test.
pub fn piece_along(text: &IndexedText, rank: usize, way: Way, track: Track, exact: bool) -> Stretch
    requires { (rank < vocabulary_of text.now) × WayOf text.now.index.s text.now.index.bytes.now text.now.starts.now rank way × TrackOf text.now.index.s text.now.index.bytes.now text.now.starts.now rank track × (track.ordinal < frequency (text_of text.now) rank) }
    ensures { (result.from ≤ nth rank track.ordinal (text_of text.now)) × (nth rank track.ordinal (text_of text.now) < result.to)
        × TrackOf text.now.index.s text.now.index.bytes.now text.now.starts.now rank result.track × (result.track.ordinal ≡ track.ordinal + 1) }
{
    let j = track.ordinal;
    let low = next_in_node(text, way.first, track.at, j, track.near.first);
    let at = Position(low.at.0 + 1);
    let ordinal = j + 1;
    let first = low.superblock;
    let mut above = track.near.above;
    if way.length == 1 {
        return Stretch {
            from: low.at.0,
            to: low.at.0 + 1,
            track: Track {
                ordinal,
                at,
                near: Near { first, above },
            },
        };
    }
    let last = way.length.min(3) - 2;
    let mut position = low.at;
    for i in 0..last {
        let found = nth_in_node(text, way.above[i], position.0, above[i]);
        position = found.at;
        above[i] = found.superblock;
    }
    let piece = piece_in_root(text, way.above[last], position.0, above[last], exact);
    above[last] = piece.superblock;
    Stretch {
        from: piece.from,
        to: piece.to,
        track: Track {
            ordinal,
            at,
            near: Near { first, above },
        },
    }
}
