//! Which frames a card of an application may take and send.
#![tactic(auto)]

mod among;
mod filter;
mod laws;
mod layer;
mod live;
mod matching;
mod overlap;
mod rules;
#[cfg(test)]
mod tests;

pub use filter::{Direction, Filter, Peers, Proto, Services};
pub use laws::filter_laws;
pub use live::Live;
pub use matching::matches;
pub use overlap::overlaps;
pub use rules::{AddRule, Rules};
