// An ancestors walk (`compute_ancestors_request`): what is met first, and then round by round what the rows that wait meet.
ghost use Rattle.std.specs.Prelude.{◌≤◌, ◌<◌, length, take};
ghost use Rattle.rules.specs.Numbers.{most_steps};
ghost use Rattle.rules.specs.Loading.{take_rows, take_batches, ancestors_request};
ghost use Rattle.rules.specs.Trips.{nodes_asked, row_finds};
ghost use Rattle.rules.proofs.TripLaws.{Waits};
ghost use Rattle.rows.specs.States.{rows_of};
ghost use Rattle.values.specs.ValueWords.{row_asked};
ghost use Rattle.row_walk.specs.Initial.{request_with as request_of};
ghost use Rattle.ancestors.specs.Sets.{IsSet};
ghost use Rattle.ancestors.specs.SliceWords.{slice_in};
ghost use Rattle.slices.specs.Slices.{rows_asked};
ghost use Rattle.ancestors.specs.Takings.{wanted_in, Takes, Asks};

use crate::events::Taken;
use crate::initial::take_initial;
use crate::row::take_row;
use crate::set::AncestorSet;
use row_walk::Request;
use rows::{Kind, Row};
use values::EntityRequest;
use words::copy_words;

// Takes the rows of a round, one after the other. The rows that they find are written from the start on.
fn take_rows(
    nodes: &[u64],
    slice: &[u64],
    rows: &[u64],
    set: AncestorSet,
    out: &mut [u64],
) -> Result<Taken, u64>
    requires set { IsSet set × (length nodes.now ≤ 65536) }
    requires rows_in_bounds { length (row_finds (rows_of nodes.now) (slice_in slice.now) (rows_asked rows.now)) ≤ length out.old }
    ensures { Takes (λ place. take_rows (rows_of nodes.now) (slice_in slice.now) place (rows_asked rows.now)
        (wanted_in set out.old 0)) out.new result }
{
    let mut more = set;
    let mut at = 0;
    for word in rows {
        let taken = take_row(nodes, slice, *word, more, out, at)?;
        more = taken.set;
        at = taken.end;
    }
    Ok(Taken { set: more, end: at })
}

// Takes round after round: the rows that one finds are those of the next. There are at most as many rounds as a position has steps.
fn take_batches(
    nodes: &[u64],
    slice: &[u64],
    set: AncestorSet,
    rows: &mut [u64],
    count: usize,
    found: &mut [u64],
) -> Result<AncestorSet, u64>
    requires set { IsSet set × (count ≤ length rows.old) × (length nodes.now ≤ 65536) }
    requires nodes_in_bounds { (length nodes.now ≤ length rows.old) × (length nodes.now ≤ length found.old) }
    requires waits { Waits (rows_of nodes.now) (nodes_asked (rows_asked (take count rows.old))) }
    ensures { Asks (λ place. take_batches most_steps (rows_of nodes.now) (slice_in slice.now) place
        (wanted_in set rows.old count)) result }
{
    let mut more = set;
    let mut len = count;
    for _ in 0..Kind::STEPS {
        if len == 0 {
            break;
        }
        let taken = take_rows(nodes, slice, &rows[..len], more, found)?;
        copy_words(&found[..taken.end], rows, 0);
        more = taken.set;
        len = taken.end;
    }
    Ok(more)
}

// The ids that are wanted for one row: a walk over the ancestors trie of its node. `rows` and `found` are scratch, one word a node.
pub fn compute_ancestors_request(
    nodes: &[u64],
    slice: &[u64],
    request: Request,
    context: &[u64],
    row: u64,
    rows: &mut [u64],
    found: &mut [u64],
) -> Result<AncestorSet, u64>
    requires nodes_len_bound { (length nodes.now ≤ 65536) × (request.principal < 65536) × (request.resource < 65536) }
    requires nodes_in_bounds { (length nodes.now ≤ length rows.old) × (length nodes.now ≤ length found.old) }
    ensures { Asks (λ place. ancestors_request (request_of request context.now) (rows_of nodes.now)
        (slice_in slice.now) place (row_asked row)) result }
{
    let set = AncestorSet::new();
    let node = EntityRequest::from(row).node as usize;
    if nodes.len() <= node {
        return Ok(set);
    }
    let own = Row { word: nodes[node] };
    let taken = take_initial(nodes, own.depth(), node + 1, request, context, set, rows, 0)?;
    take_batches(nodes, slice, taken.set, rows, taken.end, found)
}
