//! Lines of a script and the replies to them, as types and definitions: what a line asks for, and how a reply is spelled.
#![tactic(auto)]

mod group;
mod reply;
mod said;
mod spelling;
mod step;

pub use group::Group;
pub use reply::{MAX_SHOWN, Reply};
pub use said::Said;
pub use spelling::decode;
pub use step::{Hex, Side, Step};
