// The lines of the listing of a stream's nodes, each written from a position of a slice on: the
// position after it is returned. No function here is an entry: each requires that the slice has room.
#![tactic(auto)]

ghost use Rattle.std.specs.Prelude.{◌+◌, ◌≤◌, length};
ghost use Rattle.base.specs.Lists.{total, segments};
ghost use Rattle.formatting.specs.Writing.{Wrote};
ghost use Rattle.node_lines.specs.Lines.{refusal_line, counts_line, node_line, node_lines};

// Writes the line of a refusal to the front of a slice.
pub fn write_refusal(number: u32, output: &mut [u8]) -> usize
    requires { length (refusal_line number) ≤ length output.old }
    ensures { Wrote (refusal_line number) 0 output.old result output.new }
{
    let last = formatting::write_labelled(b"refused ", number as usize, output, 0);
    formatting::write_words(b"\n", output, last)
}

// Writes the line of the numbers to the front of a slice.
pub fn write_counts(words: usize, nodes: usize, bytes: usize, output: &mut [u8]) -> usize
    requires { length (counts_line words nodes bytes) ≤ length output.old }
    ensures { Wrote (counts_line words nodes bytes) 0 output.old result output.new }
{
    let first = formatting::write_labelled(b"words ", words, output, 0);
    let second = formatting::write_labelled(b" nodes ", nodes, output, first);
    let third = formatting::write_labelled(b" bytes ", bytes, output, second);
    formatting::write_words(b"\n", output, third)
}

// Writes the line of a node.
fn write_node(node: usize, bytes: &[u8], output: &mut [u8], at: usize) -> usize
    requires { at + length (node_line node bytes.now) ≤ length output.old }
    ensures { Wrote (node_line node bytes.now) at output.old result output.new }
{
    let name = formatting::write_labelled(b"node ", node, output, at);
    let colon = formatting::write_words(b":", output, name);
    let end = formatting::write_bytes(bytes, output, colon);
    formatting::write_words(b"\n", output, end)
}

// Writes the lines of the nodes that lie in the bytes one after another, each as long as its length
// says.
pub fn write_nodes(lengths: &[u32], bytes: &[u8], output: &mut [u8], at: usize) -> usize
    requires { (total lengths.now ≤ length bytes.now) × (at + length (node_lines 0 (segments lengths.now bytes.now)) ≤ length output.old) }
    ensures { Wrote (node_lines 0 (segments lengths.now bytes.now)) at output.old result output.new }
{
    let mut next = at;
    let mut start: usize = 0;
    for (node, length) in lengths.iter().enumerate() {
        let end = start + *length as usize;
        next = write_node(node, &bytes[start..end], output, next);
        start = end;
    }
    next
}
