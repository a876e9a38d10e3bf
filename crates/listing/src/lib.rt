// The listing of a manifest or a contribution, written and read.
#![tactic(auto)]

mod reading;
mod whole;

pub use whole::{read_listing, write_listing};
