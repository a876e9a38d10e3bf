// Whether a state has a place, and whether it marks it.
ghost use Rattle.std.specs.Prelude.{◌≡◌, true, []};
ghost use Rattle.rules.specs.Tries.{ordered, found};
ghost use Rattle.rows.specs.States.{has_of, held_as, rows_of};

use crate::Kind;
use crate::lawful::is_lawful;
use crate::row::Row;
use words::Refusal;

// Whether rows have a place: one pass that keeps how many of the place's steps lead to the last row.
fn find(words: &[u64], place: &[u64]) -> Option<bool>
    requires { ordered [] (rows_of words.now) ≡ true }
    ensures { result ≡ held_as (found [] (rows_of words.now) place.now) }
{
    let mut matched: usize = 0;
    for word in words {
        let row = Row { word: *word };
        let depth = row.depth() as usize;
        if depth <= matched {
            matched = depth;
            if depth < place.len() {
                if place[depth] == row.step() {
                    matched = depth + 1;
                    if matched == place.len() {
                        return Some(row.is_marked());
                    }
                }
            }
        }
    }
    None
}

// Whether a lawful state has a place, given as its request type and then the steps of a position: and, if so, whether it is marked.
pub fn has(kind: Kind, state: &[u64], place: &[u64]) -> Result<Option<bool>, Refusal>
    ensures { result ≡ has_of kind state.now place.now }
{
    if state.len() < kind.words() {
        return Err(Refusal::SHORT);
    }
    if !is_lawful(kind, state) {
        return Err(Refusal::UNLAWFUL);
    }
    let end = state[0] as usize + 1;
    Ok(find(&state[1..end], place))
}
