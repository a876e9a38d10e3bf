// A store's text read into lent words.
ghost use Rattle.std.specs.Prelude.{◌≡◌, ◌≤◌, length};
ghost use Rattle.store_text.specs.Outcomes.{LinesGot, line_count, store_got, store_given, read_store_in};

use crate::order::first_unordered;
use crate::taking::{Standing, take_line};
use text::Line;
use words::Refusal;

// How long a text may be, and how many words it takes: a count, and a word a line. A line has at least four bytes.
const BYTES: usize = 65_536;

const WORDS: usize = 16_385;

// Reads all lines of a text into words, from place 1 on, and answers how many. `levels` is scratch, one word a depth.
fn read_lines(text: &[u8], words: &mut [u64], levels: &mut [u64]) -> Result<usize, Refusal>
    requires { (length text.now ≤ 65536) × (length words.old ≡ 16385) × (length levels.old ≡ 16385) }
    ensures { LinesGot text.now words.new result }
{
    let mut standing = Standing::START;
    let mut count: usize = 0;
    let mut at = 0;
    while at < text.len() {
        let refusal = Refusal {
            number: 1,
            place: count as u64,
        };
        let Line::Whole(end) = Line::at(text, at) else {
            return Err(refusal);
        };
        let Some(next) = take_line(&text[at..end], standing, levels) else {
            return Err(refusal);
        };
        standing = next;
        count += 1;
        words[count] = standing.last;
        at = end + 1;
    }
    Ok(count)
}

// Reads a store: its lines, and then the order of all elements.
fn read_ordered(text: &[u8], words: &mut [u64]) -> Result<usize, Refusal>
    requires { (length text.now ≤ 65536) × (length words.old ≡ 16385) }
    ensures words_after { store_got result words.new ≡ store_given text.now }
    ensures result_bound { line_count result ≤ 16384 }
{
    let mut levels = [0u64; WORDS];
    let count = read_lines(text, words, &mut levels)?;
    if let Some(first) = first_unordered(&words[1..count + 1], &mut levels) {
        return Err(Refusal {
            number: 1,
            place: first as u64,
        });
    }
    Ok(count)
}

// Reads a store's text into a state: the count of its lines, and a word a line. A refusal leaves the state as it was.
pub fn read_store(text: &[u8], out: &mut [u64]) -> Result<(), Refusal>
    ensures { (result ≡ (read_store_in text.now out.old).reply) × (out.new ≡ (read_store_in text.now out.old).buffer) }
{
    if out.len() < WORDS {
        return Err(Refusal::SHORT);
    }
    if BYTES < text.len() {
        return Err(Refusal {
            number: 15,
            place: 0,
        });
    }
    let mut words = [0u64; WORDS];
    let count = read_ordered(text, &mut words)?;
    words[0] = count as u64;
    words::copy_rows(&words, out);
    Ok(())
}
