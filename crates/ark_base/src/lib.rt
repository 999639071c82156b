//! Words that every crate of the control plane speaks of: blocks, spans, names, kinds, outcomes, refusals, statuses.
#![tactic(auto)]

mod block;
mod kind;
mod name;
mod refusal;
mod status;

pub use block::{Block, Span};
pub use kind::{Kind, Outcome};
pub use name::{AppName, Label, Name};
pub use refusal::Refusal;
pub use status::{Memory, Status};
