//! The I/O memory of one application: a region of frames of 512 bytes, and the buffers that lie in it.
#![tactic(auto)]

mod buf;
mod laws;
mod place;
mod region;
mod two;

pub use buf::{Buf, Place};
pub use laws::region_laws;
pub use region::Region;
pub use two::two_of;

#[cfg(test)]
mod tests;
