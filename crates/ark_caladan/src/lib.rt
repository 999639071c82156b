//! What a log and a queue mean: their lists, their commands, the stages that carry a command out on its area, and what a stop may
//! leave. These are definitions for contracts, and laws of them.
#![tactic(auto)]

mod laws;
mod open_logs;

pub use laws::{
    append_leaves, command_laws, drop_leaves, list_laws, move_laws, opening_leaves, view_laws,
};
pub use open_logs::{buffer_laws, call_laws, log_laws, posting_laws, repair_laws, waiting_laws};
