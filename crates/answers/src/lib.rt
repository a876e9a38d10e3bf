// Answers and sets of ancestor ids in lent words (docs/FORMS.md, 'Answers in' and 'Ancestors answers in'): judged for their form, summed,
// and found again by their places.
#![tactic(auto)]

ghost use Rattle.std.specs.Prelude.{◌≡◌, ◌+◌, ◌^◌, ◌≤◌, ◌<◌, length};
ghost use Rattle.rules.specs.Loading.{summed};
ghost use Rattle.answers.specs.Answers.{head_in, head_word, id_set, lent_from, lent_items, size_of_item, words_behind, AllRead, sum_in, PlacedAt, front_of, checked_as, is_entity, item_at, answer_at, set_at, HasScratch};

use values::{ValueRow, is_lawful};

// A head: a flag, and how many parents and rows stand behind it. An answer's flag is 1, and the word 0 is an absent entity; in a slice the
// flag is the entity's id.
#[derive(Clone, Copy, PartialEq, Eq, Debug)]
pub struct Head {
    pub flag: u64,
    pub parents: usize,
    pub rows: usize,
}

// What lent words hold: answers, or sets of ancestor ids.
#[derive(Clone, Copy, PartialEq, Eq, Debug)]
pub enum Lending {
    Answers,
    Sets,
}

impl From<u64> for Head {
    fn from(word: u64) -> Head
        ensures { result ≡ head_in word }
    {
        Head {
            flag: word % 0x1_0000,
            parents: (word / 0x1_0000 % 0x1_0000) as usize,
            rows: (word / 0x1_0000_0000) as usize,
        }
    }
}

impl Head {
    pub fn word(self) -> u64
        requires { (self.flag < 2 ^ 16) × (self.parents < 2 ^ 16) × (self.rows < 2 ^ 32) }
        ensures { result ≡ head_word self.flag self.parents self.rows }
    {
        self.flag + self.parents as u64 * 0x1_0000 + self.rows as u64 * 0x1_0000_0000
    }
}

impl Lending {
    // How many words stand behind a head.
    pub fn behind(self, word: u64) -> usize
        ensures { result ≡ words_behind self word }
    {
        match self {
            Lending::Answers => {
                let head = Head::from(word);
                head.parents + head.rows
            }
            Lending::Sets => word as usize,
        }
    }

    // How many words the answer or set at the front of words takes, if it is of its form. `levels` is scratch.
    fn front(self, words: &[u64], levels: &mut [u64]) -> Option<usize>
        requires { HasScratch self words.now levels.old }
        ensures { result ≡ front_of (item_at self words.now) }
    {
        match self {
            Lending::Answers => front_answer(words, levels),
            Lending::Sets => front_set(words),
        }
    }
}

// Ids are below this.
const IDS: u64 = 0x1_0000;

// Whether words are ids that ascend strictly.
pub fn is_id_set(words: &[u64]) -> bool
    ensures { result ≡ id_set 0 words.now }
{
    let mut least: u64 = 0;
    for &id in words {
        if id < least {
            return false;
        }
        if IDS <= id {
            return false;
        }
        least = id + 1;
    }
    true
}

// Whether words behind a head are the parents and the attributes of an entity. `levels` is scratch.
fn is_entity(head: Head, words: &[u64], levels: &mut [u64]) -> bool
    requires { (head.parents + head.rows < 2 ^ 64) × (length words.now < length levels.old) }
    ensures { result ≡ is_entity head words.now }
{
    if head.flag != 1 {
        return false;
    }
    let middle = head.parents;
    let end = middle + head.rows;
    if words.len() < end {
        return false;
    }
    if !is_id_set(&words[..middle]) {
        return false;
    }
    is_lawful(&words[middle..end], levels)
}

// How many words the answer at the front of words takes, if it is of its form. `levels` is scratch.
fn front_answer(words: &[u64], levels: &mut [u64]) -> Option<usize>
    requires { length words.now ≤ length levels.old }
    ensures { result ≡ front_of (answer_at words.now) }
{
    if words.len() == 0 {
        return None;
    }
    let word = words[0];
    if word == 0 {
        return Some(1);
    }
    let head = Head::from(word);
    if !is_entity(head, &words[1..], levels) {
        return None;
    }
    Some(1 + Lending::Answers.behind(word))
}

// How many words the set of ids at the front of words takes, if it is of its form.
fn front_set(words: &[u64]) -> Option<usize>
    ensures { result ≡ front_of (set_at words.now) }
{
    if words.len() == 0 {
        return None;
    }
    let count = words[0] as usize;
    if words.len() <= count {
        return None;
    }
    let end = 1 + count;
    if !is_id_set(&words[1..end]) {
        return None;
    }
    Some(end)
}

// How many words so many answers or sets take, one after the other, or the place of the first that is not of its form. `levels` is scratch:
// for answers it is as long as the words, for sets nothing is asked of it.
pub fn check(lent: Lending, words: &[u64], count: u64, levels: &mut [u64]) -> Result<usize, u64>
    requires { HasScratch lent words.now levels.old }
    ensures { result ≡ checked_as (lent_from lent 0 count words.now) }
{
    let mut at: usize = 0;
    for k in 0..count {
        let Some(size) = lent.front(&words[at..], levels) else {
            return Err(k);
        };
        at += size;
    }
    Ok(at)
}

// Sums the sizes of answers or sets that are of their form, onto a sum so far: the sum, or the place of the first that passes the limit.
pub fn sum(lent: Lending, words: &[u64], count: u64, sum: u64) -> Result<u64, u64>
    requires { AllRead (lent_from lent 0 count words.now) × (sum ≤ 8192) }
    ensures { summed (size_of_item lent) 0 sum (lent_items lent count words.now) ≡ sum_in result }
{
    let mut total = sum;
    let mut at: usize = 0;
    for k in 0..count {
        let behind = lent.behind(words[at]);
        total += behind as u64;
        if ValueRow::VALUES < total {
            return Err(k);
        }
        at += 1 + behind;
    }
    Ok(total)
}

// Stores, from `to` on, the places at which answers or sets stand that are of their form.
pub fn place(lent: Lending, words: &[u64], count: u64, places: &mut [u64], to: usize)
    requires { AllRead (lent_from lent 0 count words.now) × (to + count ≤ length places.old) }
    ensures { PlacedAt lent words.now (lent_items lent count words.now) places.old to places.new }
{
    let end = count as usize;
    let mut at: usize = 0;
    for k in 0..end {
        places[to + k] = at as u64;
        at += 1 + lent.behind(words[at]);
    }
}
