//! The words of a script about logs and queues.
#![tactic(auto)]

mod accepting;
mod areas;
mod closing;
mod finding;
mod logs;
mod opening;
mod polling;
mod walking;

pub use finding::OpenAt;
pub use logs::act;
