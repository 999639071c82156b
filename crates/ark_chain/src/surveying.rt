ghost use Rattle.std.specs.Prelude.{◌≡◌, ◌≤◌, ◌<◌, ◌+◌, ◌^◌, [], ◌∷◌, is_ok, length, IfOk, OnOk};
ghost use Rattle.ark_media.specs.Calls.{Went, Reads, OnTold};
ghost use Rattle.ark_chain.specs.Survey.{HasSurveyed, IsSurvey, IsSeen, is_read};
ghost use Rattle.ark_chain.specs.Walking.{HasWalked, HasEntries, IsHeader, IsHeadOf, AreFound};

use crate::next::next_entry;
use crate::reading::Reading;
use ark_base::Kind;
use ark_entry::{BadHead, ChainHead, entry_blocks, read_header};
use ark_media::{Disk, DiskFailed};
use circular_buffer::HeapCircularBuffer;
use thiserror::Error;

/// What is found in the blocks of a log or queue: the number of its first entry, the entry's block in the ring, how many entries
/// there are, how many blocks they have, and the block of the ring behind them.
#[derive(Clone, Copy, Debug, PartialEq, Eq)]
pub struct Seen {
    pub first: u64,
    pub start: u32,
    pub count: u32,
    pub used: u32,
    pub end: u32,
}

/// Why no list was found.
#[derive(Clone, Copy, Debug, PartialEq, Eq, Error)]
pub enum SurveyFault {
    /// A read of the device failed.
    #[error("the device failed")]
    DeviceFault,
    /// The header is wrong, and the number is 0; or it counts more entries than stand there, and this is the number of the
    /// first that is missing.
    #[error("the list is damaged at entry {0}")]
    Damaged(u64),
}

// Reads the header of a ring of so many blocks.
fn read_head<D: Disk>(disk: &mut D, kind: Kind, room: u32) -> Result<ChainHead, SurveyFault>
    requires inside { 0 < (D.told disk.old).blocks }
    requires some { 0 < room }
    ensures went { Went D.goes (Reads 0 ∷ []) (is_read result) disk.old disk.new }
    ensures head { OnTold (D.told disk.new) (IsHeader kind room result) }
    ensures right { IfOk result (IsHeadOf room) }
{
    let mut block = [0; 512];
    match disk.read(0, &mut block) {
        Err(DiskFailed) => return Err(SurveyFault::DeviceFault),
        Ok(()) => {}
    }
    match read_header(&block, kind, room) {
        Err(BadHead) => Err(SurveyFault::Damaged(0)),
        Ok(head) => Ok(head),
    }
}

// Notes the lengths of the entries that stand one behind another from the start of the ring on, as many as there are, and
// gives the number of their blocks.
fn note_entries<D: Disk>(
    disk: &mut D,
    from: &Reading,
    first: u64,
    lengths: &mut HeapCircularBuffer<u32>,
) -> Result<u32, DiskFailed>
    requires inside { from.now.room + 1 ≡ (D.told disk.old).blocks }
    requires small { from.now.room + 1 < 2 ^ 32 }
    requires some { 0 < from.now.room }
    requires low { first ≤ 2 ^ 62 + 1 }
    requires empty { lengths.old.items ≡ [] }
    requires room { from.now.room ≤ lengths.old.capacity }
    ensures went { HasWalked D.goes from.now.room from.now.start (is_ok result) lengths.new.items
        disk.old disk.new }
    ensures entries { IfOk result (HasEntries from.now.room first lengths.new.items) }
    ensures found { OnOk result (OnTold (D.told disk.new)
        (AreFound from.now.room from.now.start first lengths.new.items)) }
    ensures kept { lengths.new.capacity ≡ lengths.old.capacity }
{
    let mut used = 0;
    for taken in 0..from.room {
        match next_entry(disk, from, used, first + u64::from(taken)) {
            Err(fault) => return Err(fault),
            Ok(None) => return Ok(used),
            Ok(Some(len)) => {
                lengths.push_back(len);
                used += entry_blocks(len);
            }
        }
    }
    Ok(used)
}

/// Reads what the blocks of a log or queue say: its header first, and of each entry, one behind another, the first block and
/// the last. `lengths`, which is empty and has room for as many as the ring has blocks, has the lengths of the entries that
/// were found. `DeviceFault` comes exactly where a read failed, and `Damaged` exactly where no read failed and the list is
/// damaged.
pub fn survey<D: Disk>(
    disk: &mut D,
    kind: Kind,
    lengths: &mut HeapCircularBuffer<u32>,
) -> Result<Seen, SurveyFault>
    requires two { 2 ≤ (D.told disk.old).blocks }
    requires empty { lengths.old.items ≡ [] }
    requires room { (D.told disk.old).blocks ≤ lengths.old.capacity + 1 }
    ensures went { HasSurveyed D.goes D.told kind result lengths.new.items disk.old disk.new }
    ensures found { OnTold (D.told disk.new) (IsSurvey kind result lengths.new.items) }
    ensures seen { IfOk result (IsSeen (D.told disk.old).blocks lengths.new.items) }
    ensures kept { lengths.new.capacity ≡ lengths.old.capacity }
{
    let room = disk.blocks() - 1;
    let head = match read_head(disk, kind, room) {
        Err(fault) => return Err(fault),
        Ok(head) => head,
    };
    let from = Reading {
        start: head.start,
        room,
    };
    let used = match note_entries(disk, &from, head.first, lengths) {
        Err(DiskFailed) => return Err(SurveyFault::DeviceFault),
        Ok(used) => used,
    };
    let count = lengths.len() as u32;
    if count < head.count {
        return Err(SurveyFault::Damaged(head.first + u64::from(count)));
    }
    Ok(Seen {
        first: head.first,
        start: head.start,
        count,
        used,
        end: from.index(used),
    })
}
