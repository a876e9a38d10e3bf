// A line of the listing: read as a row, and rows written as lines.
#![tactic(auto)]

mod line;
mod writing;

pub use line::{ParsedRow, parse};
pub use writing::write_rows;
