//! Moves of a storage card over a device in memory, with each answer.
#![tactic(auto)]

#[cfg(test)]
mod cards;
