//! Replies are printed: the line of each, its newline included.
#![tactic(auto)]

mod printing;
mod putting;

pub use printing::{TEXT_ROOM, print};
