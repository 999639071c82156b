ghost use Rattle.std.specs.Prelude.{◌≡◌, ◌≤◌, ◌+◌, true, is_ok, length, IfOk};
ghost use Rattle.ark_media.specs.Journal.{AllBlocks};
ghost use Rattle.ark_media.specs.Calls.{GoesBy, OnTold};
ghost use Rattle.ark_extents.specs.Views.{view_image};
ghost use Rattle.ark_table.specs.Area.{is_area};
ghost use Rattle.ark_table.specs.Stated.{stated};
ghost use Rattle.ark_check.specs.Reading.{IsReading, AreContents};

use ark_base::Kind;
use ark_chain::{SurveyFault, survey};
use ark_extents::VsaView;
use ark_media::{Disk, DiskFailed};
use ark_table::Slot;
use circular_buffer::HeapCircularBuffer;

/// What stands in the blocks of an area.
#[derive(Clone, Copy, Debug, PartialEq, Eq)]
pub enum Contents {
    /// Blocks of no order.
    Raw,
    /// A list: the number of its first entry, and how many entries it has.
    Found(u64, u32),
    /// A list that is damaged: the number of the first entry that is missing, or 0 where the header is wrong.
    Damaged(u64),
}

/// Reads what stands in the blocks of a slot's area, and nothing where these are raw. `lengths` has room for as many entries
/// as the area's ring has blocks. It fails exactly where a read failed.
pub fn read_contents<D: Disk>(
    disk: &mut D,
    slot: &Slot,
    lengths: &mut HeapCircularBuffer<u32>,
) -> Result<Contents, DiskFailed>
    requires right { is_area (D.told disk.old).blocks (stated slot.now) ≡ true }
    requires room { length slot.now.spans ≤ lengths.old.capacity + 1 }
    ensures went { GoesBy D.goes disk.old disk.new (IsReading (is_ok result)) }
    ensures found { IfOk result (λ c. OnTold (D.told disk.new) (λ image. AllBlocks image →
        AreContents slot.now.kind (view_image slot.now.spans image) c)) }
    ensures kept { lengths.new.capacity ≡ lengths.old.capacity }
{
    if slot.kind == Kind::Raw {
        return Ok(Contents::Raw);
    }
    lengths.clear();
    let mut area = VsaView::new(&slot.spans, disk);
    match survey(&mut area, slot.kind, lengths) {
        Ok(seen) => Ok(Contents::Found(seen.first, seen.count)),
        Err(SurveyFault::Damaged(number)) => Ok(Contents::Damaged(number)),
        Err(SurveyFault::DeviceFault) => Err(DiskFailed),
    }
}
