//! One line of a script: read, served by the host, and its reply as text.
#![tactic(auto)]

mod reply;
mod serving;

pub use reply::{ReplyBuffer, TextBuffer};
pub use serving::{answer, refuse};
