// Where the nodes of an index start in its node bytes: a table that the callers of the reading
// functions fill once, after the check.
#![tactic(auto)]

ghost use Rattle.std.specs.Prelude.{◌≤◌, ◌<◌, length};
ghost use Rattle.base.specs.Lists.{total};
ghost use Rattle.directory.specs.Counters.{max_bytes};
ghost use Rattle.starts.specs.Starts.{NodeStarts};

// The most elements of a table of node starts: one for each of 65,281 nodes, the most that an index
// has at any number of closing values, and one for the end of the last.
pub const MAX_STARTS: usize = 65282;

// Writes where each node starts in the node bytes, and the end of the last, to the front of a table.
pub fn node_starts(lengths: &[u32], starts: &mut [u32])
    requires { (length lengths.now < length starts.old) × (total lengths.now ≤ max_bytes) }
    ensures { NodeStarts lengths.now starts.new }
{
    let mut start: u32 = 0;
    for (node, length) in lengths.iter().enumerate() {
        starts[node] = start;
        start += *length;
    }
    starts[lengths.len()] = start;
}
