// The check that a lent state is lawful: one pass, no recursion.
ghost use Rattle.std.specs.Prelude.{◌≡◌};
ghost use Rattle.rows.specs.States.{lawful_state, lawful_entry, form_of, may_follow, counted_rows};

use crate::Kind;
use crate::row::Row;
use crate::size::Size;

// Whether a word packs a row that may come after a place, the steps of `path`.
fn may_follow(path: &[u64], row: Row) -> bool
    ensures { result ≡ may_follow path.now row.word }
{
    if !row.is_word() {
        return false;
    }
    let depth = row.depth();
    if Kind::STEPS < depth {
        return false;
    }
    let at = depth as usize;
    if at < path.len() {
        return path[at] < row.step();
    }
    at == path.len()
}

// How many entries and nodes words are, if they are rows in the listing's order.
fn count_rows(words: &[u64]) -> Option<Size>
    ensures { result ≡ counted_rows words.now }
{
    // The place of the last row: the steps down to it.
    let mut path = [0u64; 25];
    let mut len: usize = 0;
    let mut size = Size::NONE;
    for word in words {
        let row = Row { word: *word };
        if !may_follow(&path[..len], row) {
            return None;
        }
        let at = row.depth() as usize;
        path[at] = row.step();
        len = at + 1;
        size = size.with(row);
    }
    Some(size)
}

// Whether a lent state is lawful.
pub fn is_lawful(kind: Kind, state: &[u64]) -> bool
    ensures { result ≡ lawful_state (form_of kind) state.now }
{
    if state.len() == 0 {
        return false;
    }
    let count = state[0];
    // what lies past the length of its kind is not looked at
    if kind.words() as u64 <= count {
        return false;
    }
    let room = state.len() as u64;
    if room <= count {
        return false;
    }
    let end = count as usize + 1;
    let Some(found) = count_rows(&state[1..end]) else {
        return false;
    };
    let limits = kind.limits();
    if limits.nodes < found.nodes {
        return false;
    }
    if limits.single {
        return found.entries == 1;
    }
    found.entries <= limits.entries
}

// Whether words are the rows of one entry of a manifest: its own row, and its nodes.
pub fn is_lawful_entry(words: &[u64]) -> bool
    ensures { result ≡ lawful_entry words.now }
{
    let Some(found) = count_rows(words) else {
        return false;
    };
    if Kind::NODES < found.nodes {
        return false;
    }
    found.entries == 1
}
