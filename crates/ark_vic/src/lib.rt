//! What a virtual interface card is made of: rings of descriptors, doors that count events, and rates that pace a queue.
#![tactic(auto)]

mod descriptor;
mod door;
mod laws;
mod rate;
mod ring;

pub use descriptor::{Completion, Descriptor, Job};
pub use door::{Bell, Counts, Door};
pub use laws::rate_laws;
pub use rate::Rate;
pub use ring::Ring;

#[cfg(test)]
mod tests;
