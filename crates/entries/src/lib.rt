// The entry of a request type in a manifest, and the trips that a load for it takes at most.
#![tactic(auto)]

mod entry;
mod trips;

pub use entry::{EntryPlace, find_entry};
pub use trips::{TripBound, trip_bound};
