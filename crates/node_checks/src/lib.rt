// Whether the bytes of each node may stand in it as often as they do: a continuing byte as often as
// its child has bytes, a closing one where it names a rank below V. Inner functions: their callers
// have checked the sizes and the counters.
#![tactic(auto)]

ghost use Rattle.std.specs.Prelude.{◌≡◌, ◌-◌, ◌≤◌, ◌<◌, length, take, drop};
ghost use Rattle.base.specs.Lists.{total};
ghost use Rattle.dense.specs.Code.{Closing};
ghost use Rattle.directory.specs.Counters.{row, max_bytes};
ghost use Rattle.tree.specs.Nodes.{max_nodes};
ghost use Rattle.node_checks.specs.Tests.{value_test, node_passes, nodes_pass};

use directory::CountedBytes;
use index::LentIndex;

// A node of so many blocks is long.
const LONG: usize = 32;

// How often each byte value stands in a part.
fn histogram(part: &[u8]) -> [u32; 256]
    requires { length part.now ≤ max_bytes }
    ensures { result ≡ row part.now }
{
    let mut counts = [0u32; 256];
    for byte in part {
        counts[usize::from(*byte)] += 1;
    }
    counts
}

// How often each byte value stands from a start to an end, by the counters of all bytes. The values
// are numbers here: over a range of bytes the counts are compiled to widen each byte that they compare.
fn counted_row(counted: &CountedBytes, start: usize, end: usize) -> [u32; 256]
    requires { (start ≤ end) × (end ≤ length counted.now.bytes.now) }
    ensures { result ≡ row (take (end - start) (drop start counted.now.bytes.now)) }
{
    let mut counts = [0u32; 256];
    for value in 0..256usize {
        let byte = value as u8;
        let before = counted.count_below(byte, start);
        let below = counted.count_below(byte, end);
        counts[value] = (below - before) as u32;
    }
    counts
}

// How often each byte value stands from a start to an end: by the counters where that is long, so
// that the bytes of a long node are passed over once, where the counters are verified.
pub fn node_row(counted: &CountedBytes, start: usize, end: usize) -> [u32; 256]
    requires { (start ≤ end) × (end ≤ length counted.now.bytes.now) }
    ensures { result ≡ row (take (end - start) (drop start counted.now.bytes.now)) }
{
    if end - start < LONG * counted.block {
        return histogram(&counted.bytes[start..end]);
    }
    counted_row(counted, start, end)
}

// Whether a byte value may stand in a node as often as it does. It is handed the three values and has
// two returns: with one return, over a lent index, the compiled check takes longer.
fn value_passes(
    s: usize,
    vocabulary: usize,
    lengths: &[u32],
    node: usize,
    value: u8,
    count: u32,
) -> bool
    requires { Closing s × (node < max_nodes s) }
    ensures { result ≡ value_test s vocabulary lengths.now node value count }
{
    let least = 256 - s;
    let byte = usize::from(value);
    if least <= byte {
        if count == 0 {
            return true;
        }
        return s * node + (byte - least) < vocabulary;
    }
    let child = tree::child(s, node, value);
    if child < lengths.len() {
        return count == lengths[child];
    }
    count == 0
}

// Whether all byte values may stand in a node, from a start to an end of the bytes, as often as they
// do.
fn node_passes(
    index: &LentIndex,
    counted: &CountedBytes,
    node: usize,
    start: usize,
    end: usize,
) -> bool
    requires { Closing index.now.s × (node < max_nodes index.now.s) × (start ≤ end) × (end ≤ length counted.now.bytes.now) }
    ensures { result ≡ node_passes index.now.s index.now.shape.vocabulary index.now.lengths.now node (take (end - start) (drop start counted.now.bytes.now)) }
{
    let (s, vocabulary, lengths) = (index.s, index.shape.vocabulary, index.lengths);
    let counts = node_row(counted, start, end);
    for value in 0..256usize {
        if !value_passes(s, vocabulary, lengths, node, value as u8, counts[value]) {
            return false;
        }
    }
    true
}

// Whether all nodes pass, whose lengths make up the bytes.
pub fn nodes_pass(index: &LentIndex, counted: &CountedBytes) -> bool
    requires { Closing index.now.s × (length index.now.lengths.now ≤ max_nodes index.now.s) × (total index.now.lengths.now ≡ length counted.now.bytes.now) }
    ensures { result ≡ nodes_pass index.now.s index.now.shape.vocabulary index.now.lengths.now counted.now.bytes.now }
{
    let mut start = 0;
    for (node, length) in index.lengths.iter().enumerate() {
        let end = start + *length as usize;
        if !node_passes(index, counted, node, start, end) {
            return false;
        }
        start = end;
    }
    true
}
