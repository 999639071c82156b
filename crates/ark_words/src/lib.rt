//! The words of the command line: which command they give.
#![tactic(auto)]

mod number;
mod sorting;
mod task;
mod words;

pub use task::{Task, WordsFault};
pub use words::read_words;

#[cfg(test)]
mod tests;
