//! Public calls that a run makes, once each by themselves, and a run whose script comes one byte at a time.
#![tactic(auto)]

#[cfg(test)]
mod once;
#[cfg(test)]
mod watched;
