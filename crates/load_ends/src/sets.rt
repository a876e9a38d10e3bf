// ancestors' answers: the answered sets of ancestor ids, taken into a load's state.
ghost use Rattle.std.specs.Prelude.{◌≡◌, [], ◌∷◌, ℕ, ◌≤◌, length, take, get_or};
ghost use Rattle.std.proofs.lemmas.List.Edits.{sets};
ghost use Rattle.rules.specs.Loading.{done, summed, Load};
ghost use Rattle.rules.specs.LoadCalls.{ended};
ghost use Rattle.answers.specs.Answers.{AllRead, lent_from, lent_items};
ghost use Rattle.answers.specs.declared.Lending.TheVariants.{Sets};
ghost use Rattle.load_state.specs.Outcomes.{AnsweredAs};
ghost use Rattle.load_ends.specs.Ends.{sets_stored, taking_sets, ancestors_answer_in};

use answers::Lending;
use load_state::{LoadCounts, LoadRefusal, LoadReply, LoadState, Workspace};
use words::Refusal;

// The one length of ancestors' answers: a count, and words behind it.
const LENT_WORDS: usize = 24_577;

// Stores the last turn, the count of sets and their words.
fn store_sets(state: &mut [u64], count: u64, words: &[u64])
    requires { (36874 ≤ length state.old) × (length words.now ≤ 12288) }
    ensures { state.new ≡ sets (sets (sets state.old 0 (5 ∷ [])) 8 (count ∷ [])) 24586 words.now }
{
    state[0] = 5;
    state[8] = count;
    words::copy_words(words, state, LoadState::SETS);
}

// Stores the sets of the rows that were asked, and answers how many: surplus sets are not kept.
fn keep_sets(state: &mut [u64], words: &[u64], count: u64, asked: usize) -> u64
    requires in_bounds { (36874 ≤ length state.old) × ((asked ≤ 4096) × AllRead (lent_from Sets 0 count words.now)) }
    requires by_index { (sum : ℕ) × (total : ℕ) × (sum ≤ 8192) × (summed length 0 sum (lent_items Sets count words.now) ≡ done total) }
    ensures { (result ≡ length (take asked (lent_items Sets count words.now))) × (state.new ≡ sets_stored state.old words.now ended result) }
{
    let kept = count.min(asked as u64);
    let mut levels = [0u64; 1];
    // the first of sets that are all of their form are of it too, so the test never fails
    let Ok(size) = answers::check(Lending::Sets, words, kept, &mut levels) else {
        return kept;
    };
    store_sets(state, kept, &words[..size]);
    kept
}

// Takes lent sets into a load that awaits them, of so many rows and batches and of such a sum.
fn take_sets(
    state: &mut [u64],
    words: &[u64],
    count: u64,
    asked: usize,
    batches: u64,
    sum: u64,
) -> LoadReply
    requires in_bounds { (36874 ≤ length state.old) × ((asked ≤ 4096) × (sum ≤ 8192)) }
    requires state_value { get_or state.old 0 0 ≡ 4 }
    ensures { (load : Load) → length load.asked ≡ asked → load.rows ≡ asked → load.batches ≡ batches → load.sum ≡ sum
        → AnsweredAs (taking_sets state.old words.now count load) result state.new }
{
    let mut levels = [0u64; 1];
    if let Err(place) = answers::check(Lending::Sets, words, count, &mut levels) {
        return Err(LoadRefusal::Refused(Refusal { number: 1, place }));
    }
    if let Err(place) = answers::sum(Lending::Sets, words, count, sum) {
        return Err(LoadRefusal::Refused(Refusal { number: 15, place }));
    }
    let kept = keep_sets(state, words, count, asked);
    Ok(LoadCounts {
        count: kept,
        batches,
        rows: asked as u64,
    })
}

// Takes the answered sets: 31, 1, 16, 1 by set, 15. Surplus sets are judged and summed, and not kept.
pub fn load_ancestors_answer(state: &mut [u64], sets: &[u64]) -> LoadReply
    ensures { AnsweredAs (ancestors_answer_in state.old sets.now) result state.new }
{
    if state.len() < LoadState::WORDS {
        return Err(LoadRefusal::SHORT);
    }
    if sets.len() < LENT_WORDS {
        return Err(LoadRefusal::SHORT);
    }
    let mut work = Workspace::new();
    let Some(load) = work.read(state) else {
        return Err(LoadRefusal::UNLAWFUL);
    };
    if state[0] != 4 {
        return Err(LoadRefusal::OUT_OF_TURN);
    }
    take_sets(
        state,
        &sets[1..LENT_WORDS],
        sets[0],
        load.asked,
        load.batches,
        load.sum,
    )
}
