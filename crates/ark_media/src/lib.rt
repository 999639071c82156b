//! The outside of the control plane: a disk, a script and an output, seen by what they went through.
#![tactic(auto)]

mod laws;
mod outside;

pub use laws::stop_laws;
pub use outside::{AttachFailed, Disk, DiskFailed, Outside, SinkFailed, SourceFailed};
