//! Lines of a script are read: what each asks for, or why it is refused at sight.
#![tactic(auto)]

mod filter;
mod form;
mod line;
mod shape;
mod single;
mod word;

pub use line::{MAX_LINE, one_meaning, read_line};
