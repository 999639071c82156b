//! The report of a device: its size, and a line for each slot in use, with what is found in the blocks of a log or queue.
#![tactic(auto)]

mod contents;
mod line;
mod report;

pub use contents::{Contents, read_contents};
pub use report::put_report;
