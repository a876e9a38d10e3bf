// The lines of a load's log (docs/FORMS.md, 'Log of a load'), each written as it comes.
#![tactic(auto)]

mod each;
mod line;
mod requests;
mod slice;

pub use crate::each::write_batch;
pub use crate::line::write_line;
pub use crate::requests::{RequestPlace, count_of, write_requests};
pub use crate::slice::write_slice;
