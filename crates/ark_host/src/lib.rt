//! All parts of the control plane together, and one step of a script over them.
#![tactic(auto)]

mod host;

pub use host::Host;
