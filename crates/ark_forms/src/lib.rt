//! How the words of a line are read as arguments: names, numbers, bytes, addresses, choices and lists.
#![tactic(auto)]

mod argument;
mod decimal;
mod digits;
mod lists;
mod split;

pub use argument::{direction, kind, name, optional_name, proto, side};
pub use decimal::{ip, number, size};
pub use digits::{hex, hex0, mac};
pub use lists::{peers, services};
pub use split::{five, four, one, six, split_once, three, two};
