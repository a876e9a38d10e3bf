// A store's text (docs/FORMS.md), read line after line into a word each, and what a store answers from these words.
#![tactic(auto)]

mod answering;
mod line;
mod order;
mod reading;
mod runs;
mod taking;

pub use answering::{answer_ancestors, answer_row};
pub use reading::read_store;
