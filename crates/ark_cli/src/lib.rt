//! The command line of the control plane: all that the program does, over an outside.
#![tactic(auto)]

mod checking;
mod command;
mod line;
mod opening;
mod script;
mod words;
mod working;

pub use ark_words::{Task, WordsFault, read_words};
pub use command::arrakis;
