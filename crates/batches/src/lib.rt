// A batch's answers taken row by row (`find_remaining_entities`, `merge_entities`): the rows that they give, and whether they merge.
#![tactic(auto)]

mod merges;
mod replaying;
mod taking;

pub use replaying::replay;
pub use taking::take_answers;
