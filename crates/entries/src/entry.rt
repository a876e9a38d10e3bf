// The entry of a request type in a manifest's rows.
ghost use Rattle.std.specs.Prelude.{◌≡◌, ◌≤◌, length, take};
ghost use Rattle.rules.specs.LoadCalls.{nodes_ahead, entry_for};
ghost use Rattle.rows.specs.States.{rows_of};
ghost use Rattle.entries.specs.Entries.{FoundAs};

use rows::Row;

// Where an entry stands: its first node's number among all nodes, the place of its own row, and how many nodes are behind that.
#[derive(Clone, Copy, PartialEq, Eq, Debug)]
pub struct EntryPlace {
    pub first: u64,
    pub at: usize,
    pub nodes: usize,
}

// How many nodes stand in front of the next entry.
fn nodes_ahead(rows: &[u64]) -> usize
    ensures { (nodes_ahead (rows_of rows.now) ≡ rows_of (take result rows.now)) × (result ≤ length rows.now) }
{
    for i in 0..rows.len() {
        let row = Row { word: rows[i] };
        if row.depth() == 0 {
            return i;
        }
    }
    rows.len()
}

// The entry of a request type, if there is one.
pub fn find_entry(rows: &[u64], request: u64) -> Option<EntryPlace>
    ensures { FoundAs rows.now request (entry_for request 0 (rows_of rows.now)) result }
{
    let mut nodes: u64 = 0;
    for at in 0..rows.len() {
        let row = Row { word: rows[at] };
        if row.depth() == 0 {
            if row.step() == request {
                return Some(EntryPlace {
                    first: nodes,
                    at,
                    nodes: nodes_ahead(&rows[at + 1..]),
                });
            }
        } else {
            nodes += 1;
        }
    }
    None
}
