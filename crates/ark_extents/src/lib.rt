//! The blocks of storage areas: spans of blocks, the free blocks, and a disk seen at the blocks of one area.
#![tactic(auto)]

mod builder;
mod free;
mod lowest;
mod rising;
mod runs;
mod spans;
mod view;

pub use free::{FreeMap, RUNS, TakeFault};
pub use runs::is_apart_from_all;
pub use spans::Spans;
pub use view::VsaView;
