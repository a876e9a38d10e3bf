// answer: a batch's answers, taken into a load's state.
ghost use Rattle.std.specs.Prelude.{◌≡◌, true, [], ◌∷◌, ◌+◌, ◌-◌, ◌≤◌, ◌<◌, length, get_or, Some};
ghost use Rattle.std.proofs.lemmas.List.Edits.{sets};
ghost use Rattle.rules.specs.Loading.{◌then◌, batch_answered, summed, size_of_answer};
ghost use Rattle.rules.specs.LoadCalls.{is_summed};
ghost use Rattle.rows.specs.States.{rows_of};
ghost use Rattle.answers.specs.Answers.{AllRead, lent_from, lent_items};
ghost use Rattle.answers.specs.declared.Lending.TheVariants.{Answers};
ghost use Rattle.load_state.specs.LoadStates.{answer_words};
ghost use Rattle.load_state.specs.Transcripts.{node_words, lent_load, LentTo};
ghost use Rattle.load_state.specs.Outcomes.{AnsweredAs, given_in, words_of};
ghost use Rattle.loader.specs.Calls.{taken_into, taken_from, answer_in};

use answers::Lending;
use batches::take_answers;
use load_state::{
    LoadCounts, LoadRefusal, LoadReply, LoadState, Worked, Workspace, nodes_from, turn_for,
};
use words::Refusal;

// The one length of answers: a count, and words behind it.
const LENT_WORDS: usize = 24_577;

// Stores the turn, the count of answers and the words of those that came last.
fn store_answers(state: &mut [u64], turn: u64, count: u64, fresh: &[u64], at: usize)
    requires { (36874 ≤ length state.old) × (at + length fresh.now ≤ length state.old) }
    ensures { state.new ≡ sets (sets (sets state.old 0 (turn ∷ [])) 7 (count ∷ [])) at fresh.now }
{
    state[0] = turn;
    state[7] = count;
    words::copy_words(fresh, state, at);
}

// Takes answers, as many as rows wait, of a sum within the limit: behind those before them, in words of their own, and stored where none is refused.
fn take_given(state: &mut [u64], fresh: &[u64], load: Worked, work: &mut Workspace) -> LoadReply
    requires in_bounds { 36874 ≤ length state.old }
    requires lent_to { LentTo (lent_load state.old) (answer_words state.old) work.old.rows work.old.places (get_or state.old 7 0) (rows_of (node_words state.old)) (Some load) }
    requires asked_lt_end { (load.asked < load.end) × AllRead (lent_from Answers 0 (load.end - load.asked) fresh.now) × (words_of Answers (load.end - load.asked) fresh.now ≡ length fresh.now) }
    requires fresh_value { is_summed (summed size_of_answer 0 load.sum (lent_items Answers (load.end - load.asked) fresh.now)) ≡ true }
    ensures { AnsweredAs
        (taken_into state.old fresh.now load.end (load.asked + load.sum)
        (lent_load state.old then (λ told. batch_answered (rows_of (node_words state.old)) told (lent_items Answers (load.end - load.asked) fresh.now))))
        result state.new }
{
    let used = load.asked + load.sum as usize;
    let mut words = [0u64; 12_288];
    words::copy_words(&state[LoadState::ANSWERS..LoadState::SETS], &mut words, 0);
    words::copy_words(fresh, &mut words, used);
    answers::place(
        Lending::Answers,
        &words,
        load.end as u64,
        &mut work.places,
        0,
    );
    let from = nodes_from(state[5]);
    let last = LoadState::ENTRY + state[5] as usize;
    let next = take_answers(
        &state[from..last],
        &words,
        &mut work.rows,
        &work.places,
        load.asked,
        load.end,
        &mut work.scratch,
    )?;
    let waiting = next - load.end;
    let turn = turn_for(waiting);
    store_answers(
        state,
        turn,
        load.end as u64,
        fresh,
        LoadState::ANSWERS + used,
    );
    Ok(LoadCounts {
        count: waiting as u64,
        batches: load.batches + 1,
        rows: load.end as u64,
    })
}

// Takes lent answers: 1 by row, 12, 15, then by row 14, 13.
fn take_batch(state: &mut [u64], lent: &[u64], load: Worked, work: &mut Workspace) -> LoadReply
    requires in_bounds { 36874 ≤ length state.old }
    requires lent_to { LentTo (lent_load state.old) (answer_words state.old) work.old.rows work.old.places (get_or state.old 7 0) (rows_of (node_words state.old)) (Some load) }
    requires asked_lt_end { (load.asked < load.end) × (24577 ≤ length lent.now) }
    ensures { AnsweredAs
        (taken_from state.old lent.now
        (lent_load state.old then (λ told. given_in Answers lent.now then (λ given. batch_answered (rows_of (node_words state.old)) told given))))
        result state.new }
{
    let count = lent[0];
    let size = match answers::check(
        Lending::Answers,
        &lent[1..LENT_WORDS],
        count,
        &mut work.scratch,
    ) {
        Ok(size) => size,
        Err(row) => {
            return Err(LoadRefusal::Refused(Refusal {
                number: 1,
                place: row,
            }));
        }
    };
    let waiting = (load.end - load.asked) as u64;
    if count != waiting {
        return Err(LoadRefusal::Counted {
            expected: waiting,
            got: count,
        });
    }
    if let Err(row) = answers::sum(Lending::Answers, &lent[1..LENT_WORDS], count, load.sum) {
        return Err(LoadRefusal::Refused(Refusal {
            number: 15,
            place: row,
        }));
    }
    let behind = 1 + size;
    take_given(state, &lent[1..behind], load, work)
}

// Takes a batch's answers: 31, 1, 16, 1 by row, 12, 15, then by row 14, 13; a refusal leaves the state as it was.
pub fn load_answer(state: &mut [u64], answers: &[u64]) -> LoadReply
    ensures { AnsweredAs (answer_in state.old answers.now) result state.new }
{
    if state.len() < LoadState::WORDS {
        return Err(LoadRefusal::SHORT);
    }
    if answers.len() < LENT_WORDS {
        return Err(LoadRefusal::SHORT);
    }
    let mut work = Workspace::new();
    let Some(load) = work.read(state) else {
        return Err(LoadRefusal::UNLAWFUL);
    };
    if state[0] != 2 {
        return Err(LoadRefusal::OUT_OF_TURN);
    }
    take_batch(state, answers, load, &mut work)
}
