// The nodes of a text: their lengths are counted, and then each byte of each codeword is written
// behind those that its node has so far. Inner functions: their callers have checked the sizes.
#![tactic(auto)]

ghost use Rattle.std.specs.Prelude.{◌≡◌, ◌+◌, ◌<◌, length, get_or, set, take};
ghost use mathlib.Core.List.{flatten};
ghost use Rattle.base.specs.Lists.{total};
ghost use Rattle.directory.specs.Counters.{max_bytes};
ghost use Rattle.tree.specs.Nodes.{node_bytes};
ghost use Rattle.filling.specs.Filling.{first_nodes, node_lengths, InNodes, LengthsCounted, Parted, Stands};

use tree::{Place, Position};

// Adds 1 to the length of each node in which the word at a place has a byte.
fn count_word(s: usize, text: &[u32], place: Place, lengths: &mut [u32])
    requires { InNodes s (length lengths.old) text.now × (place.0 < length text.now) × LengthsCounted (λ k. node_bytes s k (take place.0 text.now)) lengths.old }
    ensures { LengthsCounted (λ k. node_bytes s k (take (place.0 + 1) text.now)) lengths.new }
{
    let at = place.0;
    let word = dense::encode(s, text[at] as usize);
    let code = [word.first, word.second, word.third];
    let mut node = 0;
    for byte in &code[..word.length] {
        lengths[node] += 1;
        node = tree::child(s, node, *byte);
    }
}

// Makes the lengths those of the nodes of a text.
fn count_nodes(s: usize, text: &[u32], lengths: &mut [u32])
    requires { InNodes s (length lengths.old) text.now }
    ensures { lengths.new ≡ node_lengths s (length lengths.old) text.now }
{
    lengths.fill(0);
    for place in 0..text.len() {
        count_word(s, text, Place(place), lengths);
    }
}

// Writes a byte at a position of a node, whose bytes begin the part; the rest stays.
fn put(part: &mut [u8], position: Position, byte: u8)
    requires { position.0 < length part.old }
    ensures { part.new ≡ set part.old position.0 byte }
{
    let at = position.0;
    part[at] = byte;
}

// Writes a byte behind those that a node has so far, and adds 1 to the length of the node.
fn write_byte(starts: &[u32], lengths: &mut [u32], bytes: &mut [u8], node: usize, byte: u8)
    requires { (node < length starts.now) × (node < length lengths.old) × (get_or lengths.old node 0 < max_bytes)
        × (get_or starts.now node 0 + get_or lengths.old node 0 < length bytes.old) }
    ensures { (lengths.new ≡ set lengths.old node (get_or lengths.old node 0 + 1))
        × (bytes.new ≡ set bytes.old (get_or starts.now node 0 + get_or lengths.old node 0) byte) }
{
    let start = starts[node] as usize;
    let position = lengths[node];
    put(&mut bytes[start..], Position(position as usize), byte);
    lengths[node] = position + 1;
}

// Writes the bytes of the word at a place, each behind those that its node has so far.
fn write_word(
    s: usize,
    text: &[u32],
    place: Place,
    starts: &[u32],
    lengths: &mut [u32],
    bytes: &mut [u8],
)
    requires in_nodes { InNodes s (length lengths.old) text.now × Parted s (length lengths.old) text.now starts.now bytes.old × (place.0 < length text.now) }
    requires lengths_counted { LengthsCounted (λ k. node_bytes s k (take place.0 text.now)) lengths.old
        × Stands (λ k. node_bytes s k (take place.0 text.now)) (length lengths.old) starts.now bytes.old }
    ensures { LengthsCounted (λ k. node_bytes s k (take (place.0 + 1) text.now)) lengths.new
        × Stands (λ k. node_bytes s k (take (place.0 + 1) text.now)) (length lengths.new) starts.now bytes.new }
{
    let at = place.0;
    let word = dense::encode(s, text[at] as usize);
    let code = [word.first, word.second, word.third];
    let mut node = 0;
    for byte in &code[..word.length] {
        write_byte(starts, lengths, bytes, node, *byte);
        node = tree::child(s, node, *byte);
    }
}

// Writes the bytes of all words, each into the part that begins at the start of its node.
fn write_words(s: usize, text: &[u32], starts: &[u32], lengths: &mut [u32], bytes: &mut [u8])
    requires { InNodes s (length lengths.old) text.now × Parted s (length lengths.old) text.now starts.now bytes.old }
    ensures { (lengths.new ≡ node_lengths s (length lengths.old) text.now)
        × (bytes.new ≡ flatten (first_nodes s (length lengths.old) text.now)) }
{
    lengths.fill(0);
    for place in 0..text.len() {
        write_word(s, text, Place(place), starts, lengths, bytes);
    }
}

// Makes the lengths and the bytes those of the nodes of a text.
pub fn write_nodes(s: usize, text: &[u32], lengths: &mut [u32], bytes: &mut [u8])
    requires { InNodes s (length lengths.old) text.now × (total (node_lengths s (length lengths.old) text.now) ≡ length bytes.old) }
    ensures { (lengths.new ≡ node_lengths s (length lengths.old) text.now)
        × (bytes.new ≡ flatten (first_nodes s (length lengths.old) text.now)) }
{
    let mut starts = [0u32; starts::MAX_STARTS];
    count_nodes(s, text, lengths);
    starts::node_starts(lengths, &mut starts);
    write_words(s, text, &starts, lengths, bytes);
}
