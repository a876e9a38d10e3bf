// A line of a value as a row.
ghost use Rattle.std.specs.Prelude.{◌≡◌, ◌≤◌, ◌<◌, drop};
ghost use Rattle.rules.specs.Text.{fields_of};
ghost use Rattle.rules.specs.ValueRows.{value_row};
ghost use Rattle.rules.specs.ValueTexts.{value_row_of};
ghost use Rattle.value_text.specs.Fields.{row_read, behind_read, lettered, of_form, row_fields};

use text::{TAB, field_end, letter_place, number_at, read_decimal};
use values::ValueRow;

// Where a line goes on behind its first field, if that is a letter and not the only field.
pub fn after_letter(line: &[u8], letter: u8) -> Option<usize>
    ensures { behind_read line.now result ≡ lettered letter (fields_of line.now) }
{
    let end = field_end(line, 0)?;
    if !text::is_letter(&line[..end], letter) {
        return None;
    }
    Some(end + 1)
}

// The row of its parts, where it is of its form: number 0 for sets and records.
fn row_of(depth: u64, key: u64, kind: u64, number: u64) -> Option<ValueRow>
    requires { (depth ≤ 65535) × (key ≤ 65535) × (kind < 5) × (number ≤ 65535) }
    ensures { row_read result ≡ of_form (value_row depth key kind number) }
{
    if number != 0 && ValueRow::SET <= kind {
        return None;
    }
    Some(ValueRow::of(depth, key, kind, number))
}

// The row of a line, by the fields from a place on, behind its letter. Its kind is the place of that kind's letter.
fn row_at(line: &[u8], at: usize) -> Option<ValueRow>
    ensures { row_read result ≡ row_fields (fields_of (drop at line.now)) }
{
    let (depth, depth_end) = number_at(line, at, TAB)?;
    let (key, key_end) = number_at(line, depth_end + 1, TAB)?;
    let letter = key_end + 1;
    let letter_end = field_end(line, letter)?;
    let kind = letter_place(b"nxesr", &line[letter..letter_end])?;
    let number = read_decimal(&line[letter_end + 1..])?;
    row_of(depth, key, kind as u64, number)
}

// The row of a line, by its fields, if it is of the stated form.
pub fn parse(line: &[u8]) -> Option<ValueRow>
    ensures { row_read result ≡ value_row_of (fields_of line.now) }
{
    let at = after_letter(line, b'V')?;
    row_at(line, at)
}
