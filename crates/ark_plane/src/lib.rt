//! The control plane of a device: which of its blocks are free, the slots of its table, and this end's addresses.
#![tactic(auto)]

mod changing;
mod loading;
mod plane;
mod room;

pub use plane::Plane;
