// From the words of a lent state to the load that it tells of.
ghost use Rattle.std.specs.Prelude.{◌≡◌, true, List, ℕ, ◌+◌, ◌≤◌, ◌<◌, length, get_or};
ghost use Rattle.rules.specs.Tries.{ordered};
ghost use Rattle.rows.specs.States.{rows_of};
ghost use Rattle.answers.specs.Answers.{AllRead, lent_from, lent_items};
ghost use Rattle.answers.specs.declared.Lending.TheVariants.{Answers};
ghost use Rattle.row_walk.specs.Initial.{request_with};
ghost use Rattle.load_state.specs.LoadStates.{answer_words};
ghost use Rattle.load_state.specs.Transcripts.{node_words, nodes_from, worked_by, load_in, lent_load, LentTo, WorkedTo};

use crate::LoadState;
use crate::parts::has_good_parts;
use crate::turns::read_load;
use answers::Lending;
use batches::replay;
use row_walk::{Request, initial_entities_to_load};

// The load that answers lead to: the places behind the rows answered and behind those that wait, the batches and the sum.
#[derive(Clone, Copy, PartialEq, Eq, Debug)]
pub struct Worked {
    pub asked: usize,
    pub end: usize,
    pub batches: u64,
    pub sum: u64,
}

// Where a load is worked out: its rows, the places of its answers, and scratch.
#[derive(Drop)]
pub struct Workspace {
    pub rows: [u64; 8_192],
    pub places: [u64; 4_096],
    pub scratch: [u64; 24_577],
}

impl Workspace {
    pub fn new() -> Workspace {
        Workspace {
            rows: [0; 8_192],
            places: [0; 4_096],
            scratch: [0; 24_577],
        }
    }

    // The load of a lent state, if that is lawful, worked out here.
    pub fn read(&mut self, state: &[u64]) -> Option<Worked>
        requires { 36874 ≤ length state.now }
        ensures { LentTo (lent_load state.now) (answer_words state.now) self.new.rows self.new.places (get_or state.now 7 0) (rows_of (node_words state.now)) result }
    {
        read_load(state, &mut self.rows, &mut self.places, &mut self.scratch)
    }
}

// Where the nodes of an entry of so many rows begin.
pub fn nodes_from(count: u64) -> usize
    ensures { result ≡ nodes_from count }
{
    if count == 0 { 9 } else { 10 }
}

// Works out the load of a request with so many answers, if there is one.
fn work_out_load(
    nodes: &[u64],
    request: Request,
    context: &[u64],
    words: &[u64],
    count: u64,
    rows: &mut [u64],
    places: &mut [u64],
    scratch: &mut [u64],
) -> Option<Worked>
    requires nodes_len_bound { (length nodes.now ≤ 4096) × ((request.principal < 65536) × (request.resource < 65536)) }
    requires by_index { (s : List ℕ) × (ordered s (rows_of nodes.now) ≡ true) }
    requires all_read { AllRead (lent_from Answers 0 count words.now) × (count ≤ length places.old) }
    requires in_bounds { (8192 ≤ length rows.old) × (length words.now + length words.now ≤ length scratch.old) }
    ensures { WorkedTo (worked_by (request_with request context.now) (rows_of nodes.now) (lent_items Answers count words.now)) words.now rows.new places.new count (rows_of nodes.now) result }
{
    let Ok(sum) = answers::sum(Lending::Answers, words, count, 0) else {
        return None;
    };
    answers::place(Lending::Answers, words, count, places, 0);
    let first = initial_entities_to_load(nodes, 0, 0, request, context, rows, 0)?;
    let asked = count as usize;
    let (end, batches) = replay(nodes, words, rows, places, first, asked, scratch)?;
    Some(Worked {
        asked,
        end,
        batches,
        sum,
    })
}

// Works out the load that a state tells of, if there is one. `scratch` is scratch.
pub fn work_out(
    state: &[u64],
    rows: &mut [u64],
    places: &mut [u64],
    scratch: &mut [u64],
) -> Option<Worked>
    requires in_bounds { (36874 ≤ length state.now) × (8192 ≤ length rows.old) }
    requires in_bounds_2 { (4096 ≤ length places.old) × (24577 ≤ length scratch.old) }
    ensures { WorkedTo (load_in state.now) (answer_words state.now) rows.new places.new (get_or state.now 7 0) (rows_of (node_words state.now)) result }
{
    if !has_good_parts(state, scratch) {
        return None;
    }
    let request = Request {
        triple: state[1],
        principal: state[2],
        resource: state[3],
    };
    let from = nodes_from(state[5]);
    let end = LoadState::ENTRY + state[5] as usize;
    let last = LoadState::CONTEXT + state[6] as usize;
    work_out_load(
        &state[from..end],
        request,
        &state[LoadState::CONTEXT..last],
        &state[LoadState::ANSWERS..LoadState::SETS],
        state[7],
        rows,
        places,
        scratch,
    )
}
