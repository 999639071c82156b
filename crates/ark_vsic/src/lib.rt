//! The storage card: a ring of descriptors, of which one call moves one block, or syncs.
#![tactic(auto)]

mod block;
mod due;
mod laws;
mod place;
mod vsic;

pub use due::{Due, Moved};
pub use laws::{due_laws, place_laws, transfer_laws};
pub use vsic::Vsic;
