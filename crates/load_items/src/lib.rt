// What the programs that replay vectors of loading share: items of a data file read into words, and words shown.
#![tactic(auto)]

mod items;
mod shown;

pub use crate::items::{number_of, words_of};
pub use crate::shown::{Handed, Shown, Values};
