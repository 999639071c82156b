//! The network card: a ring of buffers for frames that arrive, and one of frames that go out, of which one call moves one.
#![tactic(auto)]

mod arrived;
mod frame;
mod laws;
mod pace;
mod sent;
mod vnic;

pub use arrived::Arrived;
pub use laws::{arrival_laws, sending_laws};
pub use sent::Sent;
pub use vnic::Vnic;
