// The walk: from a row on until something is met, with what is kept for each depth in an array.
ghost use Rattle.std.specs.Prelude.{◌≡◌, ◌<◌, ◌≤◌, length, take, get_or};
ghost use Rattle.rows.specs.Words.{depth_in};
ghost use Rattle.row_walk.specs.RowWalks.{kept_by};
ghost use Rattle.row_walk.specs.Meetings.{Visited, Meets};

use crate::rule::{Met, Rule, find_remaining_entities_value};
use rows::Row;

// What is met, the node at which it is met, and for how many depths something is kept then.
#[derive(Clone, Copy, PartialEq, Eq, Debug)]
pub struct Meeting {
    pub node: usize,
    pub len: usize,
    pub met: Met,
}

// What one row comes to, and for how many depths something is kept then.
#[derive(Clone, Copy, PartialEq, Eq, Debug)]
struct Visits {
    len: usize,
    rule: Rule,
}

// What is kept at a place, nothing past the last.
fn kept_at(kept: &[Option<usize>], len: usize, at: usize) -> Option<usize>
    requires { len ≤ length kept.now }
    ensures { result ≡ get_or (take len kept.now) at None }
{
    if at < len {
        return kept[at];
    }
    None
}

// What a row keeps.
fn kept_by(rule: Rule) -> Option<usize>
    ensures { result ≡ kept_by rule }
{
    match rule {
        Rule::Kept(place) => place,
        Rule::Met(_) => None,
    }
}

// One row below a depth: it is looked up in what its parent kept, and keeps its own.
fn visit(
    nodes: &[u64],
    node: usize,
    values: &[u64],
    depth: u64,
    kept: &mut [Option<usize>],
    len: usize,
) -> Visits
    requires node_in_bounds { (node < length nodes.now) × (depth < depth_in (get_or nodes.now node 0)) }
    requires len_in_bounds { (len ≤ length kept.old) × (32 ≤ length kept.old) }
    ensures { Visited nodes.now values.now depth kept.old len node
        kept.new result.len result.rule }
{
    let row = Row { word: nodes[node] };
    let below = row.depth() - depth;
    let place = below as usize - 1;
    let above = kept_at(&kept[..], len, place);
    let rule = find_remaining_entities_value(nodes, node, values, above, below);
    let to = below.min(len as u64) as usize;
    kept[to] = kept_by(rule);
    Visits { len: to + 1, rule }
}

// Goes on from a row below a depth until something is met, if anything is. What is kept is the first `len` of `kept`, for each depth the place
// from which on the rows of the values are kept.
pub fn next_event(
    nodes: &[u64],
    values: &[u64],
    depth: u64,
    kept: &mut [Option<usize>],
    len: usize,
    from: usize,
) -> Option<Meeting>
    requires { (len ≤ length kept.old) × (32 ≤ length kept.old) }
    ensures { Meets nodes.now values.now depth kept.old len from kept.new result }
{
    let mut count = len;
    for node in from..nodes.len() {
        let row = Row { word: nodes[node] };
        if row.depth() <= depth {
            return None;
        }
        let visited = visit(nodes, node, values, depth, kept, count);
        match visited.rule {
            Rule::Met(met) => {
                return Some(Meeting {
                    node,
                    len: visited.len,
                    met,
                });
            }
            Rule::Kept(_) => {}
        }
        count = visited.len;
    }
    None
}
