// The front: every operation that is public to users, each by the crate that promises it. None has a `requires`; each checks its own input,
// and its `ensures` fixes the reply and the final content of every lent buffer.
#![tactic(auto)]

pub mod c;
pub mod loads;

pub use analysis::{add_policy, analyse};
pub use batch_rows::load_batch_rows;
pub use entries::{TripBound, trip_bound};
pub use listing::{read_listing, write_listing};
pub use load_ancestors::load_ancestors;
pub use load_batch::load_batch;
pub use load_begin::load_begin;
pub use load_ends::{load_ancestors_answer, load_result};
pub use load_state::{LoadCounts, LoadRefusal, LoadReply};
pub use loader::load_answer;
pub use manifest::EntityManifest;
pub use rows::{Kind, has};
pub use schema_text::read_schema;
pub use type_annotations::to_typed;
pub use union::union;
pub use values::EntityRequest;
pub use words::Refusal;
