// The first batch (`initial_entities_to_load`): what is found in the context, and then the other roots.
ghost use Rattle.std.specs.Prelude.{◌≡◌, [], ◌+◌, ◌≤◌, ◌<◌, length, drop};
ghost use Rattle.rules.specs.Loading.{entity_named, at_roots, initial_entities, batch_of};
ghost use Rattle.rules.specs.WalkRows.{in_context_rows};
ghost use Rattle.rows.specs.Words.{row_in};
ghost use Rattle.rows.specs.States.{rows_of};
ghost use Rattle.values.specs.ValueWords.{value_rows_of};
ghost use Rattle.row_walk.specs.Batches.{yields, BatchWritten};
ghost use Rattle.row_walk.specs.Initial.{request_with, asks_at, ContextAt};

use crate::batch::find_remaining_entities;
use rows::{RequestType, Row, StepParts};
use values::EntityRequest;

// A request without its context: its type triple, principal and resource.
#[derive(Clone, Copy, PartialEq, Eq, Debug)]
pub struct Request {
    pub triple: u64,
    pub principal: u64,
    pub resource: u64,
}

// The entity that a root names.
fn entity_named(request: Request, step: u64) -> u64
    ensures { result ≡ entity_named (request_with request []) step }
{
    let parts = StepParts::from(step);
    if parts.kind == 1 {
        return request.principal;
    }
    if parts.kind == 2 {
        return RequestType::from(request.triple).action;
    }
    if parts.kind == 3 {
        return request.resource;
    }
    parts.id
}

// Whether a row is a root below a depth that names an entity.
fn asks(row: Row, depth: u64) -> bool
    ensures { result ≡ asks_at depth (row_in row.word) }
{
    let there = row.depth();
    if there <= depth {
        return false;
    }
    if there - 1 != depth {
        return false;
    }
    let kind = StepParts::from(row.step()).kind;
    if kind == 0 {
        return false;
    }
    kind != 4
}

// The place of the context root below a depth, or the length where there is none.
pub fn context_root(nodes: &[u64], from: usize, depth: u64) -> usize
    ensures { ContextAt nodes.now depth from result }
{
    for i in from..nodes.len() {
        let row = Row { word: nodes[i] };
        let there = row.depth();
        if there <= depth {
            return nodes.len();
        }
        if there - 1 == depth {
            if StepParts::from(row.step()).kind == 4 {
                return i;
            }
        }
    }
    nodes.len()
}

// Writes the rows that are found in the context, below its root. Answers the place after them, or none (14).
fn find_remaining_entities_context(
    nodes: &[u64],
    depth: u64,
    from: usize,
    context: &[u64],
    out: &mut [u64],
    to: usize,
) -> Option<usize>
    requires nodes_len_bound { length nodes.now ≤ 65536 }
    requires nodes_in_bounds { to + yields (in_context_rows (value_rows_of context.now) depth from (rows_of (drop from nodes.now))) ≤ length out.old }
    ensures { BatchWritten out.old to out.new
        (batch_of (in_context_rows (value_rows_of context.now) depth from (rows_of (drop from nodes.now)))) result }
{
    let root = context_root(nodes, from, depth);
    find_remaining_entities(nodes, root, context, out, to)
}

// Writes the rows of the other roots. Answers the place after them.
pub fn ask_roots(
    nodes: &[u64],
    depth: u64,
    from: usize,
    request: Request,
    out: &mut [u64],
    to: usize,
) -> usize
    requires nodes_len_bound { (length nodes.now ≤ 65536) × (request.principal < 65536) × (request.resource < 65536) }
    requires nodes_in_bounds { to + yields (at_roots (request_with request []) depth from (rows_of (drop from nodes.now))) ≤ length out.old }
    ensures { BatchWritten out.old to out.new
        (batch_of (at_roots (request_with request []) depth from (rows_of (drop from nodes.now)))) (Some result) }
{
    let mut at = to;
    for i in from..nodes.len() {
        let row = Row { word: nodes[i] };
        if row.depth() <= depth {
            return at;
        }
        if asks(row, depth) {
            let id = entity_named(request, row.step());
            let asked = EntityRequest { id, node: i as u64 };
            out[at] = asked.word();
            at += 1;
        }
    }
    at
}

// Writes the first batch, from the rows below a depth: the entities found in the context, then the other roots. Answers the place after its
// rows, or none (14).
pub fn initial_entities_to_load(
    nodes: &[u64],
    depth: u64,
    from: usize,
    request: Request,
    context: &[u64],
    out: &mut [u64],
    to: usize,
) -> Option<usize>
    requires nodes_len_bound { (length nodes.now ≤ 65536) × (request.principal < 65536) × (request.resource < 65536) }
    requires nodes_in_bounds { to + yields (initial_entities (request_with request context.now) depth from (rows_of (drop from nodes.now)))
        ≤ length out.old }
    ensures { BatchWritten out.old to out.new
        (batch_of (initial_entities (request_with request context.now) depth from (rows_of (drop from nodes.now)))) result }
{
    let end = find_remaining_entities_context(nodes, depth, from, context, out, to)?;
    Some(ask_roots(nodes, depth, from, request, out, end))
}
