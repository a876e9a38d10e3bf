// A manifest's rows in words, for people: names where a table has them, bytes that wait until they are written, and the walk over the rows.
#![tactic(auto)]

mod labels;
mod sink;
mod walking;

pub use labels::{Names, is_ancestors, put_entry, put_node};
pub use sink::Sink;
pub use walking::{rows_of, visit_rows};
