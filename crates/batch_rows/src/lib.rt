// The rows of a batch as structs, each an entity and its node, in a slice that the caller lends.
#![tactic(auto)]

mod lent;

pub use lent::load_batch_rows;
