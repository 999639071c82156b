//! The program over a file, standard input and standard output.
#![tactic(auto)]

mod running;
mod starting;
mod world;

pub use running::run;
pub use starting::{program, start};
pub use world::{FileHost, FileWorld};
