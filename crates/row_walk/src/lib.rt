// The walk over a trie's rows and a run of value rows (`find_remaining_entities`): what is met, in the order in which it is met.
#![tactic(auto)]

mod batch;
mod initial;
mod rule;
mod scan;
mod walk;

pub use batch::find_remaining_entities;
pub use initial::{Request, ask_roots, context_root, initial_entities_to_load};
pub use rule::Met;
pub use scan::has_child;
pub use walk::{Meeting, next_event};
