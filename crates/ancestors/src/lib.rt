// The ids that ancestors requests ask for (`compute_ancestors_request`).
#![tactic(auto)]

mod events;
mod initial;
mod requests;
mod rounds;
mod row;
mod set;
mod slice;

pub use requests::{AncestorsRequest, compute_ancestors_requests};
pub use rounds::compute_ancestors_request;
pub use set::AncestorSet;
