// A value's text, and a request's, read into lent words.
ghost use Rattle.std.specs.Prelude.{◌≡◌, ◌+◌, ◌≤◌, ◌<◌, length, drop};
ghost use Rattle.rules.specs.Text.{lines_of};
ghost use Rattle.rules.specs.ValueTexts.{value_from_lines};
ghost use Rattle.value_text.specs.Reads.{rows_got, rows_given, row_count};
ghost use Rattle.value_text.specs.Outcomes.{read_value_in};

use crate::rows::{first_misplaced, take_row};
use text::Line;
use words::Refusal;

// How many rows a value may have, and how many words it takes: a count and the rows.
const ROWS: usize = 8_192;

pub const WORDS: usize = 8_193;

// Reads all lines of a text from a place on, the first of a number, into words, from place 1 on, and answers how many. `levels` is
// scratch, one word a depth.
fn read_rows(
    text: &[u8],
    from: usize,
    place: u64,
    words: &mut [u64],
    levels: &mut [u64],
) -> Result<usize, Refusal>
    requires { (from ≤ length text.now) × (place ≤ from) × (length words.old ≡ 8193) × (length levels.old ≡ 8194) }
    ensures words_after { rows_got result words.new ≡ rows_given place (lines_of (drop from text.now)) }
    ensures result_bound { (row_count result < 8193) × (place + row_count result ≤ length text.now) }
{
    levels[0] = 0;
    let mut len: usize = 1;
    let mut count: usize = 0;
    let mut at = from;
    while at < text.len() {
        let refusal = Refusal {
            number: 1,
            place: place + count as u64,
        };
        let Line::Whole(end) = Line::at(text, at) else {
            return Err(refusal);
        };
        if count == ROWS {
            return Err(refusal);
        }
        let Some(open) = take_row(&text[at..end], words, count + 1, levels, len) else {
            return Err(refusal);
        };
        len = open;
        at = end + 1;
        count += 1;
    }
    Ok(count)
}

// Reads a value: its lines, and then the order of its elements.
fn read_ordered(text: &[u8], from: usize, place: u64, words: &mut [u64]) -> Result<usize, Refusal>
    requires { (from ≤ length text.now) × (place ≤ from) × (length words.old ≡ 8193) }
    ensures words_after { rows_got result words.new ≡ value_from_lines place (lines_of (drop from text.now)) }
    ensures result_bound { row_count result < 8193 }
{
    let mut levels = [0u64; 8_194];
    let count = read_rows(text, from, place, words, &mut levels)?;
    if let Some(first) = first_misplaced(&words[1..count + 1], &mut levels) {
        return Err(Refusal {
            number: 1,
            place: place + first as u64,
        });
    }
    Ok(count)
}

// Reads the lines of a value from a place of a text on, the first of a number, into a state: its count and its rows. A refusal leaves the
// state as it was.
pub fn read_value(text: &[u8], from: usize, place: u64, out: &mut [u64]) -> Result<(), Refusal>
    requires { (from ≤ length text.now) × (place ≤ from) }
    ensures { (result ≡ (read_value_in place (drop from text.now) out.old).reply) × (out.new ≡ (read_value_in place (drop from text.now) out.old).buffer) }
{
    if out.len() < WORDS {
        return Err(Refusal::SHORT);
    }
    let mut words = [0u64; WORDS];
    let count = read_ordered(text, from, place, &mut words)?;
    words[0] = count as u64;
    words::copy_rows(&words, out);
    Ok(())
}
