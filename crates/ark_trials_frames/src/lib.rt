//! Frames that a network card sends and receives, and the datagrams of its sockets, with each answer.
#![tactic(auto)]

#[cfg(test)]
mod frames;
#[cfg(test)]
mod sockets;
