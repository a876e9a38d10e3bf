// Texts of values and of requests (docs/FORMS.md), read line after line.
#![tactic(auto)]

mod line;
mod reading;
mod request;
mod rows;

pub use line::parse;
pub use reading::read_value;
pub use request::{Request, read_request};
pub use rows::{first_misplaced, may_come};
