ghost use Rattle.std.specs.Prelude.{◌≡◌, ◌≤◌, is_ok};
ghost use Rattle.ark_media.specs.Calls.{Went};
ghost use Rattle.ark_table.specs.Superblock.{superblock, format_calls};

use crate::bytes::put;
use ark_media::{Disk, DiskFailed};
use byteorder::{ByteOrder, NetworkEndian};

// So many slots has a device's table.
const SLOTS: u16 = 128;

// The superblock of a device of so many blocks.
pub(crate) fn superblock_of(blocks: u32) -> [u8; 512]
    ensures { result ≡ superblock blocks }
{
    let mut block = [0u8; 512];
    let at = put(&mut block, 0, b"ARRAKIS1");
    let mut size = [0; 8];
    NetworkEndian::write_u64(&mut size, u64::from(blocks));
    let at = put(&mut block, at, &size);
    let mut slots = [0; 2];
    NetworkEndian::write_u16(&mut slots, SLOTS);
    let _ = put(&mut block, at, &slots);
    block
}

/// Formats a device with no grant: writes the superblock to block 0, and syncs. It fails only where one of these two calls
/// fails, and makes none after it.
pub fn format<D: Disk>(disk: &mut D) -> Result<(), DiskFailed>
    requires low { 130 ≤ (D.told disk.old).blocks }
    requires high { (D.told disk.old).blocks ≤ 1048576 }
    ensures went { Went D.goes (format_calls (D.told disk.old).blocks) (is_ok result) disk.old
        disk.new }
{
    let block = superblock_of(disk.blocks());
    disk.write(0, &block)?;
    disk.sync()
}
