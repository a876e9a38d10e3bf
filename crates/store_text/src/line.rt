// A line of a store: an entity, a parent or an ancestor by its id, or a row of attributes.
ghost use Rattle.std.specs.Prelude.{◌≡◌};
ghost use Rattle.rules.specs.Text.{fields_of};
ghost use Rattle.rules.specs.ValueTexts.{id_line, store_line_of};
ghost use Rattle.store_text.specs.Lines.{line_read, row_line};

use text::{field_end, is_letter, read_decimal};
use values::ValueRow;

// What a line says.
#[derive(Clone, Copy)]
pub enum StoreLine {
    Entity(u64),
    Parent(u64),
    Ancestor(u64),
    Attribute(ValueRow),
}

// A line of two fields, by its letter and its id.
fn id_line(word: &[u8], id: u64) -> Option<StoreLine>
    ensures { line_read result ≡ id_line word.now id }
{
    if is_letter(word, b'E') {
        return Some(StoreLine::Entity(id));
    }
    if is_letter(word, b'P') {
        return Some(StoreLine::Parent(id));
    }
    if is_letter(word, b'U') {
        return Some(StoreLine::Ancestor(id));
    }
    None
}

// A line of more fields.
fn row_line(line: &[u8]) -> Option<StoreLine>
    ensures { line_read result ≡ row_line (fields_of line.now) }
{
    let row = value_text::parse(line)?;
    Some(StoreLine::Attribute(row))
}

// What a line says, by its fields, if it is of the stated form.
pub fn parse_line(line: &[u8]) -> Option<StoreLine>
    ensures { line_read result ≡ store_line_of (fields_of line.now) }
{
    let end = field_end(line, 0)?;
    let second = end + 1;
    if field_end(line, second).is_some() {
        return row_line(line);
    }
    let id = read_decimal(&line[second..])?;
    id_line(&line[..end], id)
}
