// The rows of a batch that a walk finds (`find_remaining_entities`): ancestor ids are dropped.
ghost use Rattle.std.specs.Prelude.{◌+◌, ◌≤◌, length};
ghost use Rattle.rules.specs.Loading.{batch_of};
ghost use Rattle.rules.specs.WalkRows.{remaining_rows};
ghost use Rattle.rows.specs.States.{rows_of};
ghost use Rattle.values.specs.ValueWords.{value_rows_of};
ghost use Rattle.row_walk.specs.Batches.{met_below, yields, BatchWritten};

use crate::rule::Met;
use crate::walk::next_event;
use rows::Row;
use values::EntityRequest;

// Writes the rows below a depth, from a row on, that are found among values, each as one word. Answers the place after them, or none (14).
fn batch_below(
    nodes: &[u64],
    depth: u64,
    from: usize,
    values: &[u64],
    out: &mut [u64],
    to: usize,
) -> Option<usize>
    requires from_in_bounds { (from ≤ length nodes.now) × (length nodes.now ≤ 65536) }
    requires values_in_bounds { to + yields (met_below nodes.now depth from values.now) ≤ length out.old }
    ensures { BatchWritten out.old to out.new
        (batch_of (met_below nodes.now depth from values.now)) result }
{
    let mut kept: [Option<usize>; 32] = [None; 32];
    kept[0] = Some(0);
    let mut len: usize = 1;
    let mut i = from;
    let mut at = to;
    while let Some(meeting) = next_event(nodes, values, depth, &mut kept[..], len, i) {
        let node = meeting.node;
        match meeting.met {
            Met::Row(id) => {
                let request = EntityRequest {
                    id,
                    node: node as u64,
                };
                out[at] = request.word();
                at += 1;
            }
            Met::Ids(_, _) => {}
            Met::Bad => {
                return None;
            }
        }
        len = meeting.len;
        i = node + 1;
    }
    Some(at)
}

// Writes the rows that a node's children find among attributes. Answers the place after them, or none (14).
pub fn find_remaining_entities(
    nodes: &[u64],
    node: usize,
    values: &[u64],
    out: &mut [u64],
    to: usize,
) -> Option<usize>
    requires nodes_len_bound { length nodes.now ≤ 65536 }
    requires values_in_bounds { to + yields (remaining_rows (rows_of nodes.now) node (value_rows_of values.now)) ≤ length out.old }
    ensures { BatchWritten out.old to out.new
        (batch_of (remaining_rows (rows_of nodes.now) node (value_rows_of values.now))) result }
{
    if nodes.len() <= node {
        return Some(to);
    }
    let row = Row { word: nodes[node] };
    batch_below(nodes, row.depth(), node + 1, values, out, to)
}
