//! Granted objects of one kind, each under the key that its capability carries.
#![tactic(auto)]

mod objects;

pub use objects::{Objects, ROOM};

#[cfg(test)]
mod tests;
