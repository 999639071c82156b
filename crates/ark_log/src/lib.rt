//! An open log or queue: its list, the commands that wait, and their buffers.
#![tactic(auto)]

mod accepting;
mod acknowledging;
mod buffers;
mod chain;
mod closing;
mod command;
mod laws;
mod loading;
mod opening;
mod polling;
mod posting;
mod stage;
mod staging;
mod walking;

pub use chain::Chain;
pub use command::{ChainRefusal, Command};
pub use laws::{buffer_laws, stage_laws, standing_laws};
pub use loading::LoadFault;
pub use polling::Polled;
pub use walking::ReadAt;
