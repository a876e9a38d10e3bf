// The trie of the Rust (`AccessTrie`, `RootAccessTrie`) as rows in lent buffers: a row as a word, the check that a state is lawful, and
// whether a place is there.
#![tactic(auto)]

mod lawful;
mod place;
mod row;
mod size;

ghost use Rattle.std.specs.Prelude.{◌≡◌};
ghost use Rattle.rows.specs.States.{words_of, form_of};

pub use lawful::{is_lawful, is_lawful_entry};
pub use place::has;
pub use row::{RequestType, Row, StepParts};
pub use size::Size;

// The kinds of state: rows with their count in front.
#[derive(Clone, Copy, PartialEq, Eq, Debug)]
pub enum Kind {
    Contribution,
    Manifest,
}

// What a state may hold.
#[derive(Clone, Copy, PartialEq, Eq, Debug)]
pub struct Limits {
    pub single: bool,
    pub entries: u64,
    pub nodes: u64,
}

impl Kind {
    // A position has at most so many steps.
    pub const STEPS: u64 = 24;

    // A contribution has at most so many nodes.
    pub const CONTRIBUTION_NODES: u64 = 1_024;

    // A manifest has at most so many request types.
    pub const ENTRIES: u64 = 64;

    // A manifest has at most so many nodes.
    pub const NODES: u64 = 4_096;

    // The one length of a state.
    pub fn words(self) -> usize
        ensures { result ≡ words_of self }
    {
        match self {
            Kind::Contribution => 1_026,
            Kind::Manifest => 4_161,
        }
    }

    pub fn limits(self) -> Limits
        ensures { (result.single ≡ (form_of self).single) × (result.entries ≡ (form_of self).entries) × (result.nodes ≡ (form_of self).nodes) }
    {
        match self {
            Kind::Contribution => Limits {
                single: true,
                entries: 1,
                nodes: Kind::CONTRIBUTION_NODES,
            },
            Kind::Manifest => Limits {
                single: false,
                entries: Kind::ENTRIES,
                nodes: Kind::NODES,
            },
        }
    }
}
