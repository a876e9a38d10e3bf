// The stack of results: two runs of words that grow downwards, the wrapped paths of the results and their tries, the top in front.
#![tactic(auto)]

ghost use Rattle.std.specs.Prelude.{◌≡◌, ◌+◌, ◌≤◌, ◌<◌, length, get_or};
ghost use Rattle.rows.specs.States.{rows_in};
ghost use Rattle.words.specs.Replies.{refusal};
ghost use Rattle.path_tries.specs.Nodes.{IsState};
ghost use Rattle.result_stack.specs.Stacks.{Holding, Placed, number_of, TrieAt, CopiedFrom, trie_words, Pushed, TriesAt, TriesMergedFrom, Replaced};

use path_tries::union_into;
use words::{Refusal, copy_words};

// Where the top stands in either run, and how many results there are.
#[derive(Drop)]
pub struct Stack {
    pub code: usize,
    pub tries: usize,
    pub results: u64,
}

// Why a step refuses, by its number of docs/FORMS.md, 'Numbers given back'.
#[derive(Clone, Copy, PartialEq, Eq, Debug)]
pub enum StepRefusal {
    Unlawful = 1,
    TooDeep = 3,
    TooManyNodes = 4,
    Results = 6,
    SetDereferenced = 7,
    Mismatch = 8,
    TooManyPaths = 15,
}

impl StepRefusal {
    // The refusal of the line of that number.
    pub fn at(self, line: u64) -> Refusal
        ensures { result ≡ refusal (number_of self) line }
    {
        Refusal {
            number: self as u64,
            place: line,
        }
    }
}

impl Stack {
    // At most so many results.
    pub const RESULTS: u64 = 32;

    // The words that a step may need in front of the top: a field for each of 256 paths, and a whole trie.
    pub const CODE_ROOM: usize = 256;

    pub const TRIES_ROOM: usize = 1_025;

    // Runs that no text fills: 32 results of 6,631 and of 1,025 words, and room for a step.
    pub const CODE: usize = 212_448;

    pub const TRIES: usize = 33_825;

    // Runs that are enough for most texts: results of 1,024 words together, and room for a step.
    pub const SMALL_CODE: usize = 1_280;

    pub const SMALL_TRIES: usize = 2_049;

    // No result in runs of two lengths.
    pub fn new(code: usize, tries: usize) -> Stack
        ensures { (result.code ≡ code) × ((result.tries ≡ tries) × (result.results ≡ 0)) }
    {
        Stack {
            code,
            tries,
            results: 0,
        }
    }
}

// Copies words of paths so that they end at a place, and answers where they begin.
pub fn put_before(words: &[u16], out: &mut [u16], end: usize) -> usize
    requires { (length words.now ≤ end) × (end ≤ length out.old) }
    ensures { Placed words.now out.old end out.new result }
{
    let start = end - words.len();
    copy_words(words, out, start);
    start
}

// The place after the trie at a place.
pub fn trie_end(tries: &[u64], at: usize) -> usize
    requires { TrieAt tries.now at }
    ensures { (result ≡ at + 1 + get_or tries.now at 0) × (result ≤ length tries.now) }
{
    at + 1 + tries[at] as usize
}

// Copies the trie at a place.
pub fn copy_trie(tries: &[u64], at: usize, out: &mut [u64])
    requires { TrieAt tries.now at × (length out.old ≡ 1026) }
    ensures { CopiedFrom tries.now at out.new }
{
    let end = trie_end(tries, at);
    copy_words(&tries[at..end], out, 0);
}

// Puts a trie so that it ends at a place, and answers where it begins.
pub fn put_trie(trie: &[u64], tries: &mut [u64], end: usize) -> usize
    requires { IsState trie.now × ((get_or trie.now 0 0 < end) × (end ≤ length tries.old)) }
    ensures { Placed (trie_words (rows_in trie.now)) tries.old end tries.new result }
{
    let count = trie[0] as usize + 1;
    let start = end - count;
    copy_words(&trie[..count], tries, start);
    start
}

// A result with an empty trie on top: `from_root`, and the default result.
pub fn push(
    paths: &[u16],
    code: &mut [u16],
    tries: &mut [u64],
    stack: Stack,
) -> Result<Stack, StepRefusal>
    requires { Holding code.old tries.old stack × (length paths.now ≤ 2) }
    ensures { Pushed paths.now code.old tries.old stack code.new tries.new result }
{
    if Stack::RESULTS <= stack.results {
        return Err(StepRefusal::Results);
    }
    let top = stack.tries - 1;
    tries[top] = 0;
    Ok(Stack {
        code: put_before(paths, code, stack.code),
        tries: top,
        results: stack.results + 1,
    })
}

// Merges the tries of the top results into one, and answers where it begins, unless it has too many nodes. `merged` is scratch.
pub fn merge_tries(tries: &mut [u64], at: usize, count: u64, merged: &mut [u64]) -> Option<usize>
    requires { TriesAt tries.old at count × (length merged.old ≡ 1026) }
    ensures { TriesMergedFrom tries.old at count tries.new result }
{
    merged[0] = 0;
    let mut end = at;
    for i in 0..count {
        let first = end + 1;
        end = trie_end(tries, end);
        if !union_into(merged, &tries[first..end]) {
            return None;
        }
    }
    Some(put_trie(merged, tries, end))
}

// Puts paths and a trie in the place of results that end at two places.
pub fn replace(
    paths: &[u16],
    trie: &[u64],
    code: &mut [u16],
    code_end: usize,
    tries: &mut [u64],
    tries_end: usize,
    results: u64,
) -> Stack
    requires paths_fit { (length paths.now ≤ code_end) × (code_end ≤ length code.old) }
    requires trie_fits { IsState trie.now × ((get_or trie.now 0 0 < tries_end) × (tries_end ≤ length tries.old)) }
    ensures { Replaced paths.now trie.now code.old code_end tries.old tries_end results code.new tries.new result }
{
    Stack {
        code: put_before(paths, code, code_end),
        tries: put_trie(trie, tries, tries_end),
        results,
    }
}
