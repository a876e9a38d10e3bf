// A name table (docs/FORMS.md), read line after line into a word each, and the name of an id found in these words.
#![tactic(auto)]

mod finding;
mod line;
mod named;
mod reading;

pub use finding::find_name;
pub use reading::{WORDS, read_names};
