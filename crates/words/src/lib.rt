// Runs of words: copied, searched, compared; and what an operation on lent words answers.
#![tactic(auto)]

ghost use Rattle.std.specs.Prelude.{◌≡◌, ◌+◌, ◌≤◌, ◌<◌, length, take, get_or};
ghost use Rattle.std.proofs.lemmas.List.Edits.{sets};
ghost use Rattle.words.specs.Keys.{key_in, searched};
ghost use Rattle.words.specs.Runs.{Wrote};

// Why an operation refuses, and where: a number and a place of docs/FORMS.md, 'Numbers given back'.
#[derive(Clone, Copy, PartialEq, Eq, Debug)]
pub struct Refusal {
    pub number: u64,
    pub place: u64,
}

impl Refusal {
    // A lent buffer is shorter than its one length.
    pub const SHORT: Refusal = Refusal {
        number: 31,
        place: 0,
    };

    // A lent state is not a lawful one, or a number that is lent is not of its form.
    pub const UNLAWFUL: Refusal = Refusal {
        number: 1,
        place: 0,
    };
}

// Copies words to a place, and answers the place after them.
pub fn copy_words<T: Copy>(words: &[T], out: &mut [T], to: usize) -> usize
    requires { to + length words.now ≤ length out.old }
    ensures { Wrote out.old to words.now out.new result }
{
    for i in 0..words.len() {
        out[to + i] = words[i];
    }
    to + words.len()
}

// A word of 16 bits as a number.
pub fn wide(word: u16) -> u64
    ensures { (result ≡ word) × (result < 65536) }
{
    word as u64
}

// Copies a state: its count, and as many rows behind it. What follows them stays.
pub fn copy_rows(from: &[u64], to: &mut [u64])
    requires { (get_or from.now 0 0 < length from.now) × (get_or from.now 0 0 < length to.old) }
    ensures { to.new ≡ sets to.old 0 (take (get_or from.now 0 0 + 1) from.now) }
{
    let end = from[0] as usize + 1;
    copy_words(&from[..end], to, 0);
}

// The key of a keyed word (docs/FORMS.md, 'Words').
pub fn key_of(word: u64) -> u64
    ensures { result ≡ key_in word }
{
    word / 0x100_0000_0000
}

// The place of a key in a run of words that ascend strictly by their keys: `Ok` with the place of the first word whose key is not less
// where that is the key, `Err` with it otherwise.
pub fn search_key(words: &[u64], key: u64) -> Result<usize, usize>
    ensures { result ≡ searched words.now key }
{
    for i in 0..words.len() {
        let there = key_of(words[i]);
        if there == key {
            return Ok(i);
        }
        if key < there {
            return Err(i);
        }
    }
    Err(words.len())
}
