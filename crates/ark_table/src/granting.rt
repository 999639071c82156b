ghost use Rattle.std.specs.Prelude.{◌≡◌, ◌<◌, ◌≤◌, ◌^◌, All, is_ok};
ghost use Rattle.ark_media.specs.Calls.{Went};
ghost use Rattle.ark_table.specs.Plans.{zero_calls, grant_calls};
ghost use Rattle.ark_table.specs.Stated.{stated};

use crate::slot::{Slot, slot_block};
use ark_extents::Spans;
use ark_media::{Disk, DiskFailed};

// Writes zeros to each of the blocks, up to the first write that fails.
fn write_zeros<D: Disk>(disk: &mut D, spans: &Spans) -> Result<(), DiskFailed>
    requires inside { All (λ n. n < (D.told disk.old).blocks) spans.now }
    ensures went { Went D.goes (zero_calls spans.now) (is_ok result) disk.old disk.new }
{
    for off in 0..spans.blocks() {
        let Some(n) = spans.translate(off) else {
            unreachable!()
        };
        disk.write(n, &[0; 512])?;
    }
    Ok(())
}

/// Writes zeros to the added blocks, and syncs; then writes the slot, and syncs. It makes no call after one that failed.
pub fn grant<D: Disk>(disk: &mut D, i: u16, slot: &Slot, added: &Spans) -> Result<(), DiskFailed>
    requires inside { All (λ n. n < (D.told disk.old).blocks) added.now }
    requires slot { i < (D.told disk.old).blocks }
    ensures went { Went D.goes (grant_calls i (stated slot.now) added.now) (is_ok result) disk.old
        disk.new }
{
    write_zeros(disk, added)?;
    disk.sync()?;
    disk.write(u32::from(i), &slot_block(slot))?;
    disk.sync()
}
