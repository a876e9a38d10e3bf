// The rows of a value, line after line, and the order of a set's elements once every line has passed.
ghost use Rattle.std.specs.Prelude.{◌≡◌, true, ◌<◌, length, take};
ghost use Rattle.rules.specs.ValueTexts.{field_level, may_come};
ghost use Rattle.rules.specs.ValueTextLaws.{may_pass};
ghost use Rattle.values.specs.ValueWords.{value_row_in, value_rows_of};
ghost use Rattle.values.specs.Lawful.{level_in, levels_in};
ghost use Rattle.value_text.specs.Rows.{ValueLineTaken, next_unless, Misplaced};

use crate::line::parse;
use values::ValueRow;

// Whether a row may come at one of the open levels.
pub fn may_come(row: ValueRow, levels: &[u64]) -> bool
    ensures { result ≡ may_come (levels_in levels.now) (value_row_in row.word) }
{
    let depth = row.depth();
    if depth == 0 {
        return false;
    }
    let at = depth as usize - 1;
    if levels.len() <= at {
        return false;
    }
    let level = levels[at];
    let least = level / 2;
    if level % 2 == 0 {
        return least <= row.key();
    }
    row.key() == least
}

// Takes one line, if it is of the stated form and may come: its word goes to a place, and the levels that are open after it are kept.
// Answers how many these are.
pub fn take_row(
    line: &[u8],
    words: &mut [u64],
    at: usize,
    levels: &mut [u64],
    len: usize,
) -> Option<usize>
    requires { (at < length words.old) × (len < length levels.old) }
    ensures { ValueLineTaken line.now words.old at words.new (take len levels.old) levels.new result }
{
    let row = parse(line)?;
    if !may_come(row, &levels[..len]) {
        return None;
    }
    words[at] = row.word;
    Some(values::open_levels(levels, row))
}

// The place of the next element, where the one at a place is of a set and does not come before it.
fn misplaced(words: &[u64], at: usize, level: u64) -> Option<usize>
    requires { at < length words.now }
    ensures { result ≡ next_unless words.now at (level_in level) }
{
    if level % 2 == 0 || values::is_ahead(words, at) {
        return None;
    }
    let row = ValueRow { word: words[at] };
    Some(values::past(words, at + 1, row.depth()))
}

// The place of the first row that is an element not above the one before it, if there is one. `levels` is scratch, one word a depth.
pub fn first_misplaced(words: &[u64], levels: &mut [u64]) -> Option<usize>
    requires { (may_pass field_level (value_rows_of words.now) ≡ true) × (length words.now < length levels.old) }
    ensures { Misplaced words.now result }
{
    levels[0] = 0;
    let mut least = words.len();
    for i in 0..words.len() {
        let row = ValueRow { word: words[i] };
        let own = row.depth() as usize - 1;
        if let Some(next) = misplaced(words, i, levels[own]) {
            least = least.min(next);
        }
        values::open_levels(levels, row);
    }
    if least < words.len() {
        Some(least)
    } else {
        None
    }
}
