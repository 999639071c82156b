//! The labels under which an application holds its objects.
#![tactic(auto)]

mod capability;
mod table;

pub use capability::{CapKind, Capability};
pub use table::{AddFault, CapTable, LABELS};
