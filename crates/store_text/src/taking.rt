// A line of a store behind those before it: whether it may come, its word, and what the next line is judged by.
ghost use Rattle.std.specs.Prelude.{◌≡◌, ◌+◌, ◌≤◌, ◌<◌, length, take};
ghost use Rattle.rules.specs.Text.{fields_of};
ghost use Rattle.rules.specs.ValueTexts.{store_line_of};
ghost use Rattle.values.specs.Lawful.{levels_in};
ghost use Rattle.values.specs.ValueWords.{value_row_in};
ghost use Rattle.store_text.specs.Standings.{standing, row_after, standing_behind, took_standing, took_id, open_in};

use crate::line::{StoreLine, parse_line};
use values::ValueRow;

// What the next line is judged by: the word of the line before it, the least id that the next entity may have, and how many levels are open.
#[derive(Clone, Copy, PartialEq, Eq, Debug)]
pub struct Standing {
    pub last: u64,
    pub next: u64,
    pub levels: usize,
}

impl Standing {
    // Before the first line it is as behind a row: only an entity may come.
    pub const START: Standing = Standing {
        last: 0x8_0000_0000,
        next: 0,
        levels: 0,
    };
}

// Takes the word of a parent or an ancestor, which is above the word before it: an entity's is below a parent's, that below an
// ancestor's, and a row's above them all.
fn take_id(before: Standing, word: u64) -> Option<Standing>
    ensures { result ≡ took_id before word }
{
    if word <= before.last {
        return None;
    }
    Some(Standing {
        last: word,
        ..before
    })
}

// Takes a row of attributes, where it may come at one of the open levels.
fn take_attribute(before: Standing, row: ValueRow, levels: &mut [u64]) -> Option<Standing>
    requires { before.levels < length levels.old }
    ensures levels_after { took_standing result levels.new ≡ row_after before.next (levels_in (take before.levels levels.old)) (value_row_in row.word) }
    ensures result_bound { open_in result ≤ before.levels + 1 }
{
    if !value_text::may_come(row, &levels[..before.levels]) {
        return None;
    }
    Some(Standing {
        last: row.word,
        levels: values::open_levels(levels, row),
        ..before
    })
}

// Takes a line, if it is of the stated form and may come. `levels` holds the open levels.
pub fn take_line(line: &[u8], before: Standing, levels: &mut [u64]) -> Option<Standing>
    requires { before.levels < length levels.old }
    ensures levels_after { took_standing result levels.new ≡ standing_behind (standing before.last before.next (levels_in (take before.levels levels.old))) (store_line_of (fields_of line.now)) }
    ensures result_bound { open_in result ≤ before.levels + 1 }
{
    let said = parse_line(line)?;
    match said {
        StoreLine::Entity(id) => {
            if id < before.next {
                return None;
            }
            levels[0] = 0;
            Some(Standing {
                last: id,
                next: id + 1,
                levels: 1,
            })
        }
        StoreLine::Parent(id) => take_id(before, id + 0x1_0000),
        StoreLine::Ancestor(id) => take_id(before, id + 0x2_0000),
        StoreLine::Attribute(row) => take_attribute(before, row, levels),
    }
}
