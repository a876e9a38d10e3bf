// Lines to items, each judged after those before it, and a schema's text read into a lent state.
ghost use Rattle.std.specs.Prelude.{◌≡◌, ◌+◌, ◌≤◌, ◌<◌, length};
ghost use Rattle.schema_text.specs.Outcomes.{read_schema_in};
ghost use Rattle.schema_text.specs.Reads.{ItemRoom, ItemTaken, ItemsRead, kept_at};

use crate::line::parse;
use schema::{Known, Schema};
use text::Line;
use words::Refusal;

// Stores a word, where words are stored at all.
fn keep_word(out: &mut [u64], at: usize, word: u64, stores: bool)
    requires { at < length out.old }
    ensures { out.new ≡ kept_at stores out.old at word }
{
    if stores {
        out[at] = word;
    }
}

// Takes one line: its word goes behind the others, where words are stored. Answers where the schema has come to, if the line is of the stated
// form and may stand there.
fn take_line(line: &[u8], out: &mut [u64], count: u64, known: Known, stores: bool) -> Option<Known>
    requires { ItemRoom count known out.old }
    ensures { ItemTaken count known line.now stores out.old out.new result }
{
    let item = parse(line)?;
    if !known.fits(item) {
        return None;
    }
    keep_word(out, count as usize + 1, item.word(), stores);
    Some(known.beyond(item))
}

// Reads all lines of a text: judges them, and stores their words from place 1 on only where that is asked for. Answers how many items there
// are, or the refusal of a line.
fn read_items(text: &[u8], out: &mut [u64], stores: bool) -> Result<u64, Refusal>
    requires { 142337 ≤ length out.old }
    ensures { ItemsRead text.now stores out.old out.new result }
{
    let mut known = Known::new();
    let mut count: u64 = 0;
    let mut at = 0;
    while at < text.len() {
        let refusal = Refusal {
            number: 1,
            place: count,
        };
        let Line::Whole(end) = Line::at(text, at) else {
            return Err(refusal);
        };
        known = take_line(&text[at..end], out, count, known, stores).ok_or(refusal)?;
        at = end + 1;
        count += 1;
    }
    Ok(count)
}

// Reads a schema's text into a state: judges it in a first pass and stores it in a second, so that a refusal leaves the state as it was.
pub fn read_schema(text: &[u8], out: &mut [u64]) -> Result<(), Refusal>
    ensures { (result ≡ (read_schema_in text.now out.old).reply) × (out.new ≡ (read_schema_in text.now out.old).buffer) }
{
    if out.len() < Schema::WORDS {
        return Err(Refusal::SHORT);
    }
    let count = read_items(text, out, false)?;
    read_items(text, out, true)?;
    out[0] = count;
    Ok(())
}
