// The calls with which a load ends: ancestors' answers and result.
#![tactic(auto)]

mod result;
mod sets;

pub use result::load_result;
pub use sets::load_ancestors_answer;
