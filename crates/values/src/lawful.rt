// The test that words are the rows of a record's fields, in their one order: one pass, no recursion.
ghost use Rattle.std.specs.Prelude.{◌≡◌, ◌≤◌, ◌<◌, length};
ghost use Rattle.rules.specs.ValueRowTests.{earlier_rows, lawful_value_rows};
ghost use Rattle.values.specs.ValueWords.{depth_from, value_row_in, value_rows_of};
ghost use Rattle.values.specs.Lawful.{PastInside, is_ahead_at, level_in, levels_in, fits_at, comes_at, Opened};

use crate::row::ValueRow;

// The place of the first row from `at` on that is not deeper than `depth`: past what is inside a value.
pub fn past(words: &[u64], at: usize, depth: u64) -> usize
    requires { at ≤ length words.now }
    ensures { PastInside words.now at depth result }
{
    for i in at..words.len() {
        let row = ValueRow { word: words[i] };
        if row.depth() <= depth {
            return i;
        }
    }
    words.len()
}

// Whether the element at a place comes before the next one of its set, if there is one. Elements are compared without their places, by the
// words of their rows.
pub fn is_ahead(words: &[u64], at: usize) -> bool
    requires { at < length words.now }
    ensures { result ≡ is_ahead_at words.now at }
{
    let row = ValueRow { word: words[at] };
    let depth = row.depth();
    let start = at + 1;
    let next = past(words, start, depth);
    if next == words.len() {
        return true;
    }
    let other = ValueRow { word: words[next] };
    if other.depth() != depth {
        return true;
    }
    let x = row.unkeyed();
    let y = other.unkeyed();
    if x.word != y.word {
        return x.word < y.word;
    }
    let behind = next + 1;
    let end = past(words, behind, depth);
    words[start..next] < words[behind..end]
}

// Whether the row at a place may come at a level, which is twice the least key, and one more if it is of a set.
fn fits(words: &[u64], at: usize, level: u64) -> bool
    requires { at < length words.now }
    ensures { result ≡ fits_at words.now at (level_in level) }
{
    let row = ValueRow { word: words[at] };
    let least = level / 2;
    if level % 2 == 0 {
        return least <= row.key();
    }
    if row.key() != least {
        return false;
    }
    is_ahead(words, at)
}

// Whether the row at a place may come at one of the open levels.
fn comes(words: &[u64], at: usize, levels: &[u64]) -> bool
    requires { at < length words.now }
    ensures { result ≡ comes_at words.now at (levels_in levels.now) }
{
    let row = ValueRow { word: words[at] };
    if !row.is_value_row() {
        return false;
    }
    let depth = row.depth();
    if depth == 0 {
        return false;
    }
    let level = depth as usize - 1;
    if levels.len() <= level {
        return false;
    }
    fits(words, at, levels[level])
}

// Keeps the levels that are open after a row, and answers how many: those above it, its own, and one below it if it is a set or a record.
pub fn open_levels(levels: &mut [u64], row: ValueRow) -> usize
    requires { (0 < depth_from row.word) × (depth_from row.word < length levels.old) }
    ensures { Opened levels.old (value_row_in row.word) levels.new result }
{
    let below = row.depth() as usize;
    let own = below - 1;
    levels[own] = levels[own] % 2 + (row.key() + 1) * 2;
    let kind = row.kind();
    if kind < ValueRow::SET {
        return below;
    }
    if kind == ValueRow::SET {
        levels[below] = 1;
        return below + 1;
    }
    levels[below] = 0;
    below + 1
}

// Whether words are the rows of a record's fields, in their one order. `levels` is scratch, one word a depth.
pub fn is_lawful(words: &[u64], levels: &mut [u64]) -> bool
    requires { length words.now < length levels.old }
    ensures { result ≡ lawful_value_rows (value_rows_of words.now) }
{
    levels[0] = 0;
    let mut len: usize = 1;
    for i in 0..words.len() {
        if !comes(words, i, &levels[..len]) {
            return false;
        }
        len = open_levels(levels, ValueRow { word: words[i] });
    }
    true
}
