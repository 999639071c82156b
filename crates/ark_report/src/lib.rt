//! What the command `work` does with its device: the generated script is answered, and the replies are counted.
#![tactic(auto)]

mod counting;
mod summary;

pub use counting::count_replies;
pub use summary::put_summary;
