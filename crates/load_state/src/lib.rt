// The state of a load (docs/FORMS.md, 'Load state'): the transcript that it is, and the load that it tells of.
#![tactic(auto)]

ghost use Rattle.std.specs.Prelude.{◌≡◌};
ghost use Rattle.load_state.specs.declared.LoadRefusal.TheVariants.{Refused};

mod parts;
mod turns;
mod working;

pub use parts::is_request;
pub use turns::{read_load, turn_for};
use words::Refusal;
pub use working::{Worked, Workspace, nodes_from};

// What a call of a load counts where it is done: what it hands out or takes, and the batches and rows asked so far.
#[derive(Clone, Copy, PartialEq, Eq, Debug)]
pub struct LoadCounts {
    pub count: u64,
    pub batches: u64,
    pub rows: u64,
}

// Why a call of a load refuses: with a number and a place; or 12, with how many answers were expected and how many were got.
#[derive(Clone, Copy, PartialEq, Eq, Debug)]
pub enum LoadRefusal {
    Refused(Refusal),
    Counted { expected: u64, got: u64 },
}

// What a call of a load answers.
pub type LoadReply = Result<LoadCounts, LoadRefusal>;

impl LoadRefusal {
    // A lent buffer is shorter than its one length.
    pub const SHORT: LoadRefusal = LoadRefusal::Refused(Refusal::SHORT);

    // A lent state is not a lawful one, or a number that is lent is not of its form.
    pub const UNLAWFUL: LoadRefusal = LoadRefusal::Refused(Refusal::UNLAWFUL);

    // A call is out of turn.
    pub const OUT_OF_TURN: LoadRefusal = LoadRefusal::Refused(Refusal {
        number: 16,
        place: 0,
    });
}

impl From<Refusal> for LoadRefusal {
    ghost from_gives = { λ refusal told. told ≡ Refused refusal };

    fn from(refusal: Refusal) -> LoadRefusal {
        LoadRefusal::Refused(refusal)
    }
}

// The parts of a load's state.
#[derive(Drop)]
pub struct LoadState {}

impl LoadState {
    // The one length of a state, and of a context.
    pub const WORDS: usize = 36_874;

    pub const CONTEXT_WORDS: usize = 8_193;

    // Where the entry, the context, the answers and the sets of ancestor ids stand.
    pub const ENTRY: usize = 9;

    pub const CONTEXT: usize = 4_106;

    pub const ANSWERS: usize = 12_298;

    pub const SETS: usize = 24_586;

    // An entry's own row and its nodes.
    pub const ENTRY_ROWS: u64 = 4_097;
}
