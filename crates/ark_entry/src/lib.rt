//! The blocks of a log or a queue: its header and its entries, written and read, and the list that is found in them, by
//! definitions for contracts and laws of them.
#![tactic(auto)]

mod entry;
mod header;
mod laws;

pub use entry::{EntryHead, entry_blocks, mark, marked, read_entry_head, write_entry};
pub use header::{BadHead, ChainHead, is_zero, read_header, write_header};
pub use laws::{
    append_laws, drop_laws, empty_laws, entry_laws, found_laws, header_laws, repair_laws,
};

#[cfg(test)]
mod tests;
