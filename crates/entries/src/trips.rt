// The bound on the trips of a load: one pass over the nodes of its entry.
ghost use Rattle.std.specs.Prelude.{ℕ, ◌≡◌, true, []};
ghost use Rattle.rules.specs.Tries.{ordered};
ghost use Rattle.rules.specs.Trips.{bound_of, trip_bound};
ghost use Rattle.rows.specs.States.{rows_of};
ghost use Rattle.entries.specs.Bounds.{NodesOf, told, trip_bound_in};

use crate::entry::find_entry;
use rows::{Kind, Row, StepParts};
use words::Refusal;

// What a load takes at most: rows and batches, and the ancestors calls on top.
#[derive(Clone, Copy, PartialEq, Eq, Debug)]
pub struct TripBound {
    pub rows: u64,
    pub batches: u64,
    pub ancestors: u64,
}

// The bound for the nodes of an entry. A root is a primary node, and so is a field below one. `primary` is how many steps of the last
// node's place lead to primary nodes, the request type counted.
fn bound_of(nodes: &[u64]) -> TripBound
    ensures { (request : ℕ) → NodesOf request (rows_of nodes.now) → result ≡ told (bound_of request (rows_of nodes.now)) }
{
    let mut rows: u64 = 0;
    let mut batches: u64 = 0;
    let mut primary: u64 = 1;
    for word in nodes {
        let row = Row { word: *word };
        let depth = row.depth();
        if depth <= primary {
            let parts = StepParts::from(row.step());
            primary = depth;
            if depth == 1 || parts.kind == 0 {
                primary = depth + 1;
                rows += 1;
                batches = batches.max(depth);
            }
        }
    }
    TripBound {
        rows,
        batches,
        ancestors: 1,
    }
}

// The bound for a request type by a manifest's rows; without an entry there are no trips.
fn bound_in(rows: &[u64], request: u64) -> TripBound
    requires { ordered [] (rows_of rows.now) ≡ true }
    ensures { result ≡ told (trip_bound (rows_of rows.now) request) }
{
    let Some(entry) = find_entry(rows, request) else {
        return TripBound {
            rows: 0,
            batches: 0,
            ancestors: 0,
        };
    };
    let from = entry.at + 1;
    let end = from + entry.nodes;
    bound_of(&rows[from..end])
}

// What a load for a request type takes at most: 31, then 1 at 0 for the manifest or the request type.
pub fn trip_bound(manifest: &[u64], request: u64) -> Result<TripBound, Refusal>
    ensures { result ≡ trip_bound_in manifest.now request }
{
    if manifest.len() < Kind::Manifest.words() {
        return Err(Refusal::SHORT);
    }
    if !rows::is_lawful(Kind::Manifest, manifest) {
        return Err(Refusal::UNLAWFUL);
    }
    if 0x1_0000_0000_0000 <= request {
        return Err(Refusal::UNLAWFUL);
    }
    let end = manifest[0] as usize + 1;
    Ok(bound_in(&manifest[1..end], request))
}
