// Values as rows in lent buffers (docs/FORMS.md, 'Value'): a row as a word, and the test of a run of rows. A row asked as a word.
#![tactic(auto)]

mod lawful;
mod request;
mod row;

pub use lawful::{is_ahead, is_lawful, open_levels, past};
pub use request::EntityRequest;
pub use row::ValueRow;
