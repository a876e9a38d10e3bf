// The words of a store, part after part: an entity's own, its parents', its ancestors', and the rows of its attributes.
ghost use Rattle.std.specs.Prelude.{◌≡◌, ◌+◌, ◌≤◌, length, drop};
ghost use Rattle.store_text.specs.Runs.{part_number, part_of, run_of};

// Which part of an entity a word is of.
#[derive(Clone, Copy, PartialEq, Eq, Debug)]
pub enum Part {
    Own,
    Parents,
    Ancestors,
    Rows,
}

fn part_of(word: u64) -> Part
    ensures { part_number result ≡ part_of word }
{
    match word / 0x1_0000 {
        0 => Part::Own,
        1 => Part::Parents,
        2 => Part::Ancestors,
        _ => Part::Rows,
    }
}

// The end of a run of words of one part, from a place on.
pub fn run_end(words: &[u64], at: usize, part: Part) -> usize
    requires { at ≤ length words.now }
    ensures { (result ≡ at + run_of (part_number part) (drop at words.now)) × (result ≤ length words.now) }
{
    for i in at..words.len() {
        if part_of(words[i]) != part {
            return i;
        }
    }
    words.len()
}
