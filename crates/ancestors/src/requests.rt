// The one ancestors call: a request for each row ever asked, in asking order (docs/FORMS.md, 'Ancestors requests out').
ghost use Rattle.std.specs.Prelude.{◌≡◌, ◌+◌, ◌^◌, ◌≤◌, ◌<◌, length, drop};
ghost use Rattle.rows.specs.States.{rows_of};
ghost use Rattle.words.specs.Runs.{Wrote};
ghost use Rattle.values.specs.ValueWords.{row_asked};
ghost use Rattle.ancestors.specs.Sets.{ids_of, IsSet};
ghost use Rattle.ancestors.specs.Requests.{roots_below, request_in, head_of, all_requests, JudgedAs, MayWrite, WrittenAs, RoomFor, RequestsAnswered};

use crate::rounds::compute_ancestors_request;
use crate::set::AncestorSet;
use row_walk::{Request, has_child};
use rows::Row;
use values::EntityRequest;
use words::{Refusal, copy_words};

// A request's head is one word: the entity whose ancestors are asked for, and how many ids are wanted.
#[derive(Drop)]
pub struct AncestorsRequest {
    pub id: u64,
    pub count: usize,
}

impl AncestorsRequest {
    pub fn of(word: u64) -> AncestorsRequest
        ensures { result ≡ request_in word }
    {
        AncestorsRequest {
            id: word % 0x1_0000,
            count: (word / 0x1_0000) as usize,
        }
    }

    pub fn word(self) -> u64
        requires { (self.id < 2 ^ 16) × (self.count < 2 ^ 48) }
        ensures { result ≡ head_of self.id self.count }
    {
        self.id + self.count as u64 * 0x1_0000
    }
}

// Whether the node of a row has an ancestors trie. Without one no ids are asked for, and there is nothing to walk.
fn has_ancestors_trie(nodes: &[u64], row: u64) -> bool
    ensures { result ≡ roots_below (drop (row_asked row).node (rows_of nodes.now)) }
{
    let node = EntityRequest::from(row).node as usize;
    if nodes.len() <= node {
        return false;
    }
    let own = Row { word: nodes[node] };
    has_child(nodes, node + 1, own.depth(), false)
}

// Writes the ids of a set to a place, and answers the place after them.
fn write_ids(set: AncestorSet, out: &mut [u64], to: usize) -> usize
    requires { IsSet set × (to + length (ids_of set) ≤ length out.old) }
    ensures { Wrote out.old to (ids_of set) out.new result }
{
    copy_words(&set.ids[..set.len], out, to)
}

// Judges all requests: the first that is refused, by its number and place.
fn judge_requests(
    nodes: &[u64],
    slice: &[u64],
    request: Request,
    context: &[u64],
    asked: &[u64],
    rows: &mut [u64],
    found: &mut [u64],
) -> Result<(), Refusal>
    requires nodes_len_bound { (length nodes.now ≤ 65536) × (request.principal < 65536) × (request.resource < 65536) }
    requires nodes_in_bounds { (length nodes.now ≤ length rows.old) × (length nodes.now ≤ length found.old) }
    ensures { JudgedAs (all_requests request context.now nodes.now slice.now asked.now) result }
{
    for i in 0..asked.len() {
        let row = asked[i];
        if has_ancestors_trie(nodes, row) {
            if let Err(number) = compute_ancestors_request(
                nodes, slice, request, context, row, rows, found,
            ) {
                return Err(Refusal {
                    number,
                    place: i as u64,
                });
            }
        }
    }
    Ok(())
}

// Writes all requests, none of which is refused: their count, a head each, and then their ids.
fn write_requests(
    nodes: &[u64],
    slice: &[u64],
    request: Request,
    context: &[u64],
    asked: &[u64],
    rows: &mut [u64],
    found: &mut [u64],
    out: &mut [u64],
)
    requires nodes_len_bound { (length nodes.now ≤ 65536) × (request.principal < 65536) × (request.resource < 65536) }
    requires nodes_in_bounds { (length nodes.now ≤ length rows.old) × (length nodes.now ≤ length found.old) }
    requires may_write { MayWrite (all_requests request context.now nodes.now slice.now asked.now) asked.now out.old }
    ensures { WrittenAs (all_requests request context.now nodes.now slice.now asked.now)
        asked.now out.old out.new }
{
    let mut at = asked.len() + 1;
    for i in 0..asked.len() {
        let row = asked[i];
        let start = at;
        if has_ancestors_trie(nodes, row) {
            // none is refused, so this never fails
            if let Ok(set) = compute_ancestors_request(
                nodes, slice, request, context, row, rows, found,
            ) {
                at = write_ids(set, out, start);
            }
        }
        let head = AncestorsRequest {
            id: EntityRequest::from(row).id,
            count: at - start,
        };
        out[i + 1] = head.word();
    }
    out[0] = asked.len() as u64;
}

// The requests for all rows that were asked. All are judged before any is written, so that nothing changes where one is refused.
pub fn compute_ancestors_requests(
    nodes: &[u64],
    slice: &[u64],
    request: Request,
    context: &[u64],
    asked: &[u64],
    out: &mut [u64],
) -> Result<(), Refusal>
    requires nodes_len_bound { (length nodes.now ≤ 4096) × (request.principal < 65536) × (request.resource < 65536) }
    requires room_for { RoomFor (all_requests request context.now nodes.now slice.now asked.now) asked.now out.old }
    ensures { RequestsAnswered (all_requests request context.now nodes.now slice.now asked.now)
        asked.now out.old out.new result }
{
    let mut rows = [0u64; 4096];
    let mut found = [0u64; 4096];
    judge_requests(nodes, slice, request, context, asked, &mut rows, &mut found)?;
    write_requests(
        nodes, slice, request, context, asked, &mut rows, &mut found, out,
    );
    Ok(())
}
