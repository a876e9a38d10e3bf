// A name table's text read into lent words.
ghost use Rattle.std.specs.Prelude.{◌≡◌, map, ◌-◌, ◌≤◌, ◌<◌, length, take, drop};
ghost use Rattle.rules.specs.Names.{naming, name_taken, same_name, is_taken, read_names};
ghost use Rattle.name_table.specs.Words.{named_in};
ghost use Rattle.name_table.specs.Outcomes.{took_naming, Long, names_got, line_count, read_names_in};

use crate::line::parse;
use crate::named::Named;
use text::Line;
use words::{Refusal, key_of};

// How long a text may be, and how many words it takes: a count, and a word a line. A line has at least six bytes.
const BYTES: usize = 65_536;

pub const WORDS: usize = 10_923;

// Whether the word of a line is of a kind and has a name. Lengths are compared first: most names of one kind differ in them.
fn is_same(text: &[u8], word: u64, kind: u64, name: &[u8]) -> bool
    requires { 0 < length name.now }
    ensures { result ≡ same_name text.now kind name.now (named_in word) }
{
    let named = Named::of(word);
    if named.key / 0x1_0000 != kind {
        return false;
    }
    if named.size != name.len() {
        return false;
    }
    let to = named.from + named.size;
    to <= text.len() && &text[named.from..to] == name
}

// Whether a name of a kind stands among the words of earlier lines.
fn is_taken(text: &[u8], words: &[u64], kind: u64, name: &[u8]) -> bool
    requires { 0 < length name.now }
    ensures { result ≡ is_taken text.now kind name.now (map named_in words.now) }
{
    words.iter().any(|word| is_same(text, *word, kind, name))
}

// The word of the line from a place to its LF behind the words of those before it, if it is of the stated form and may come.
fn take_line(text: &[u8], at: usize, end: usize, words: &[u64], least: u64) -> Option<u64>
    requires { (at ≤ end) × (end ≤ length text.now) × (length text.now ≤ 65536) }
    ensures result_value { took_naming end (map named_in words.now) result ≡ name_taken text.now (naming at least (map named_in words.now)) (take (end - at) (drop at text.now)) }
    ensures long { Long at end result }
{
    let (key, start) = parse(&text[at..end])?;
    if key < least {
        return None;
    }
    let from = at + start;
    if is_taken(text, words, key / 0x1_0000, &text[from..end]) {
        return None;
    }
    let named = Named {
        key,
        from,
        size: end - from,
    };
    Some(named.word())
}

// Reads all lines of a text into words, from place 1 on, and answers how many.
fn read_lines(text: &[u8], words: &mut [u64]) -> Result<usize, Refusal>
    requires { (length text.now ≤ 65536) × (length words.old ≡ 10923) }
    ensures words_after { names_got result words.new ≡ read_names text.now }
    ensures result_bound { line_count result ≤ 10922 }
{
    let mut least: u64 = 0;
    let mut count: usize = 0;
    let mut at = 0;
    while at < text.len() {
        let refusal = Refusal {
            number: 1,
            place: count as u64,
        };
        let Line::Whole(end) = Line::at(text, at) else {
            return Err(refusal);
        };
        let next = count + 1;
        let Some(word) = take_line(text, at, end, &words[1..next], least) else {
            return Err(refusal);
        };
        words[next] = word;
        least = key_of(word) + 1;
        count = next;
        at = end + 1;
    }
    Ok(count)
}

// Reads a name table into a state: the count of its lines, and a word a line. A refusal leaves the state as it was.
pub fn read_names(text: &[u8], out: &mut [u64]) -> Result<(), Refusal>
    ensures { (result ≡ (read_names_in text.now out.old).reply) × (out.new ≡ (read_names_in text.now out.old).buffer) }
{
    if out.len() < WORDS {
        return Err(Refusal::SHORT);
    }
    if BYTES < text.len() {
        return Err(Refusal {
            number: 15,
            place: 0,
        });
    }
    let mut words = [0u64; WORDS];
    let count = read_lines(text, &mut words)?;
    words[0] = count as u64;
    words::copy_rows(&words, out);
    Ok(())
}
