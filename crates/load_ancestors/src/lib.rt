// The call of a load that asks for the ancestors of its rows.
#![tactic(auto)]

mod requests;

pub use requests::load_ancestors;
