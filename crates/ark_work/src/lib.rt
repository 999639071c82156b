//! The script that the command `work` runs, line by line, and the line that tells of its replies.
#![tactic(auto)]

mod draws;
mod lines;
mod tally;
#[cfg(test)]
mod tests;

pub use lines::{LINE_ROOM, Lines};
pub use tally::{SUMMARY_ROOM, Tally};
