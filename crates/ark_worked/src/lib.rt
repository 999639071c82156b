//! Scripts that are worked from the definitions: evaluated to their replies and, where it matters, to their device calls and
//! to what a stop may leave. Nothing stands on this crate.
#![tactic(auto)]
