// What an ancestors walk meets first (`initial_entities_to_load`): what is found in the context, and then the other roots.
ghost use Rattle.std.specs.Prelude.{◌+◌, ◌≤◌, ◌<◌, length, drop};
ghost use Rattle.rules.specs.Loading.{initial_entities, take_events};
ghost use Rattle.rows.specs.States.{rows_of};
ghost use Rattle.row_walk.specs.Batches.{yields};
ghost use Rattle.row_walk.specs.Initial.{request_with};
ghost use Rattle.ancestors.specs.Sets.{IsSet};
ghost use Rattle.ancestors.specs.Takings.{wanted_in, Takes};

use crate::events::{Taken, take_remaining};
use crate::set::AncestorSet;
use row_walk::{Request, ask_roots, context_root};

// Takes what is met first, from the rows below a depth.
pub fn take_initial(
    nodes: &[u64],
    depth: u64,
    from: usize,
    request: Request,
    context: &[u64],
    set: AncestorSet,
    out: &mut [u64],
    to: usize,
) -> Result<Taken, u64>
    requires set { IsSet set }
    requires nodes_len_bound { (length nodes.now ≤ 65536) × (request.principal < 65536) × (request.resource < 65536) }
    requires nodes_in_bounds { to + yields (initial_entities (request_with request context.now) depth from (rows_of (drop from nodes.now)))
        ≤ length out.old }
    ensures { Takes (λ place. take_events place (initial_entities (request_with request context.now) depth from
        (rows_of (drop from nodes.now))) (wanted_in set out.old to)) out.new result }
{
    let root = context_root(nodes, from, depth);
    let taken = take_remaining(nodes, root, context, set, out, to)?;
    let end = ask_roots(nodes, depth, from, request, out, taken.end);
    Ok(Taken {
        set: taken.set,
        end,
    })
}
