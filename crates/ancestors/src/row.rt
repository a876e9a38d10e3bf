// One row of an ancestors walk: its mark, and then what its entity's children meet.
ghost use Rattle.std.specs.Prelude.{[], ◌∷◌, ◌+◌, ◌≤◌, length};
ghost use Rattle.rules.specs.Loading.{take_row};
ghost use Rattle.rules.specs.Trips.{row_finds};
ghost use Rattle.rows.specs.States.{rows_of};
ghost use Rattle.values.specs.ValueWords.{row_asked};
ghost use Rattle.ancestors.specs.Sets.{IsSet};
ghost use Rattle.ancestors.specs.SliceWords.{slice_in};
ghost use Rattle.ancestors.specs.Takings.{wanted_in, take_mark, Puts, Takes};

use crate::events::{Taken, take_remaining};
use crate::set::AncestorSet;
use crate::slice::find_loaded;
use rows::Row;
use values::EntityRequest;

// Puts an entity's id where its node is marked, unless there is no place for it.
fn put_marked(nodes: &[u64], node: usize, set: AncestorSet, id: u64) -> Option<AncestorSet>
    requires { IsSet set }
    ensures { Puts (λ place. take_mark (rows_of nodes.now) place node id) set result }
{
    if node < nodes.len() {
        let row = Row { word: nodes[node] };
        if row.is_marked() {
            return set.put(id);
        }
    }
    Some(set)
}

// Takes a row: its mark, and then what its children meet among the attributes of its entity, if that is loaded.
pub fn take_row(
    nodes: &[u64],
    slice: &[u64],
    row: u64,
    set: AncestorSet,
    out: &mut [u64],
    to: usize,
) -> Result<Taken, u64>
    requires set { IsSet set × (length nodes.now ≤ 65536) }
    requires row_in_bounds { to + length (row_finds (rows_of nodes.now) (slice_in slice.now) (row_asked row ∷ [])) ≤ length out.old }
    ensures { Takes (λ place. take_row (rows_of nodes.now) (slice_in slice.now) place (row_asked row)
        (wanted_in set out.old to)) out.new result }
{
    let asked = EntityRequest::from(row);
    let node = asked.node as usize;
    let more = put_marked(nodes, node, set, asked.id).ok_or(15u64)?;
    match find_loaded(slice, asked.id) {
        Some(values) => take_remaining(nodes, node, values, more, out, to),
        None => Ok(Taken { set: more, end: to }),
    }
}
