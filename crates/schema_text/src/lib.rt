// A schema's text read into a lent state, line after line.
#![tactic(auto)]

mod line;
mod reading;

pub use reading::read_schema;
