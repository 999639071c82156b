//! An outside in memory, whose calls fail as planned, and all that was done to it.
#![tactic(auto)]

mod event;
mod holding;
mod openings;
mod recorded;
mod schedule;
mod source;
mod tape;
mod world;

pub use event::Event;
pub use schedule::Fail;
pub use world::MemoryWorld;
