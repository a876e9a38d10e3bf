// What a walk meets, taken in the order in which it is met: rows wait in a lent run, and the ids of marked sets are put into the set.
ghost use Rattle.std.specs.Prelude.{[], ◌∷◌, ◌+◌, ◌≤◌, length, drop};
ghost use Rattle.std.proofs.Math.Option.{some};
ghost use Rattle.rules.specs.Loading.{take_events};
ghost use Rattle.rules.specs.WalkRows.{walk_rows, remaining_rows};
ghost use Rattle.rows.specs.States.{rows_of};
ghost use Rattle.values.specs.ValueWords.{value_rows_of};
ghost use Rattle.row_walk.specs.RowWalks.{ancestors_at};
ghost use Rattle.row_walk.specs.Batches.{yields};
ghost use Rattle.ancestors.specs.Sets.{IsSet};
ghost use Rattle.ancestors.specs.Takings.{wanted_in, Puts, Takes};

use crate::set::AncestorSet;
use row_walk::{Met, next_event};
use rows::Row;
use values::{EntityRequest, ValueRow};

// The set, and where the rows that wait end, after something is taken. What is refused has the number 14 or 15.
#[derive(Drop)]
pub struct Taken {
    pub set: AncestorSet,
    pub end: usize,
}

// Puts the ids of the elements of a set, behind its row, unless there is no place for one.
fn put_all(set: AncestorSet, values: &[u64], from: usize, depth: u64) -> Option<AncestorSet>
    requires { IsSet set }
    ensures { Puts (λ place. take_events place (ancestors_at depth (value_rows_of (drop from values.now)))) set result }
{
    let mut more = set;
    for i in from..values.len() {
        let row = ValueRow { word: values[i] };
        let there = row.depth();
        if there < depth {
            return Some(more);
        }
        if there == depth {
            more = more.put(row.number())?;
        }
    }
    Some(more)
}

// Takes what is met below a depth, from a row on, by looking it up among values. Each row that is found is one word.
fn take_below(
    nodes: &[u64],
    depth: u64,
    from: usize,
    values: &[u64],
    set: AncestorSet,
    out: &mut [u64],
    to: usize,
) -> Result<Taken, u64>
    requires { IsSet set × (from ≤ length nodes.now) × (length nodes.now ≤ 65536)
        × (to + yields (walk_rows depth (some (value_rows_of values.now) ∷ []) from (rows_of (drop from nodes.now))) ≤ length out.old) }
    ensures { Takes (λ place. take_events place (walk_rows depth (some (value_rows_of values.now) ∷ [])
        from (rows_of (drop from nodes.now))) (wanted_in set out.old to)) out.new result }
{
    let mut kept: [Option<usize>; 32] = [None; 32];
    kept[0] = Some(0);
    let mut len: usize = 1;
    let mut more = set;
    let mut i = from;
    let mut at = to;
    while let Some(meeting) = next_event(nodes, values, depth, &mut kept[..], len, i) {
        let node = meeting.node;
        match meeting.met {
            Met::Row(id) => {
                let request = EntityRequest {
                    id,
                    node: node as u64,
                };
                out[at] = request.word();
                at += 1;
            }
            Met::Ids(place, below) => {
                more = put_all(more, values, place, below).ok_or(15u64)?;
            }
            Met::Bad => return Err(14),
        }
        len = meeting.len;
        i = node + 1;
    }
    Ok(Taken { set: more, end: at })
}

// Takes what the children of a node meet among attributes (`find_remaining_entities`).
pub fn take_remaining(
    nodes: &[u64],
    node: usize,
    values: &[u64],
    set: AncestorSet,
    out: &mut [u64],
    to: usize,
) -> Result<Taken, u64>
    requires { IsSet set × (length nodes.now ≤ 65536)
        × (to + yields (remaining_rows (rows_of nodes.now) node (value_rows_of values.now)) ≤ length out.old) }
    ensures { Takes (λ place. take_events place (remaining_rows (rows_of nodes.now) node (value_rows_of values.now))
        (wanted_in set out.old to)) out.new result }
{
    if nodes.len() <= node {
        return Ok(Taken { set, end: to });
    }
    let row = Row { word: nodes[node] };
    take_below(nodes, row.depth(), node + 1, values, set, out, to)
}
