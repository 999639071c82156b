//! The table of grants on a device: its superblock and how a new device is formatted, its slots, and each change of it.
#![tactic(auto)]

mod bytes;
mod fault;
mod going;
mod granting;
mod laws;
mod loading;
mod reading;
mod slot;
mod superblock;
mod table;

pub use fault::LoadFault;
pub use laws::{change_laws, changing_laws, fresh_laws, slot_laws, standing_laws, table_laws};
pub use slot::Slot;
pub use superblock::format;
pub use table::GrantTable;
