//! Frames of Ethernet as bytes: their IPv4 part, and UDP datagrams in them, read and written.
#![tactic(auto)]

mod cover;
mod frame;
mod own;
mod sum;
#[cfg(test)]
mod tests;
mod udp;
mod wire;
mod write;

pub use frame::{Frame, Ip, read_frame};
pub use own::Own;
pub use udp::{Bad, Udp, read_udp};
pub use write::write_udp;
