// The schema (`ValidatorSchema`) as a lent state, one word a line of its text: types, attributes of entity types, types of literals and
// context types of actions; and which lines may come after one another.
#![tactic(auto)]

mod item;
mod known;
mod lawful;

pub use item::Item;
pub use known::Known;
pub use lawful::{Schema, is_lawful};
