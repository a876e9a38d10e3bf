// A line of a name table: its key, a kind and an id as one number, and its name.
ghost use Rattle.std.specs.Prelude.{◌≡◌};
ghost use Rattle.rules.specs.Names.{is_name_byte, is_name, key_from};
ghost use Rattle.text.specs.Answers.{number_of};
ghost use Rattle.name_table.specs.Lines.{LineParsed};

use text::{field_end, letter_place, read_decimal};

// Whether a byte may stand in a name: printable, no quote and no backslash.
fn is_name_byte(byte: u8) -> bool
    ensures { result ≡ is_name_byte byte }
{
    32 <= byte && byte <= 126 && byte != b'"' && byte != b'\\'
}

fn is_name(name: &[u8]) -> bool
    ensures { result ≡ is_name name.now }
{
    !name.is_empty() && name.iter().all(|byte| is_name_byte(*byte))
}

// The key of a line, by its fields; its kind is the place of its letter.
fn key_from(kind: &[u8], id: &[u8], name: &[u8]) -> Option<u64>
    ensures { number_of result ≡ key_from kind.now id.now name.now }
{
    let place = letter_place(b"tef", kind)?;
    let number = read_decimal(id)?;
    if !is_name(name) {
        return None;
    }
    Some(place as u64 * 0x1_0000 + number)
}

// What a line says, by its fields: its key, and where in the line its name begins; or it is not of the stated form.
pub fn parse(line: &[u8]) -> Option<(u64, usize)>
    ensures { LineParsed line.now result }
{
    let kind_end = field_end(line, 0)?;
    let second = kind_end + 1;
    let id_end = field_end(line, second)?;
    let third = id_end + 1;
    if field_end(line, third).is_some() {
        return None;
    }
    let key = key_from(&line[..kind_end], &line[second..id_end], &line[third..])?;
    Some((key, third))
}
