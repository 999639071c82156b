ghost use Rattle.std.specs.Prelude.{◌≡◌, ◌<◌, ◌≤◌, ◌+◌, ◌^◌, [], ◌∷◌, ◌++◌, All, length, is_ok, IfOk, OnOk};
ghost use Rattle.ark_media.specs.Calls.{Went, Reads, OnTold};
ghost use Rattle.ark_chain.specs.Survey.{reads, IsSeen, IsSurvey};
ghost use Rattle.ark_chain.specs.Repair.{outside, not_zero, clears, repair_calls, HasInspected, AreNoted};

use crate::reading::Reading;
use crate::surveying::{Seen, SurveyFault, survey};
use ark_base::Kind;
use ark_entry::is_zero;
use ark_media::{Disk, DiskFailed};
use circular_buffer::HeapCircularBuffer;

// Reads a block, and notes it where it is not zero.
fn note<D: Disk>(
    disk: &mut D,
    n: u32,
    noted: &mut HeapCircularBuffer<u32>,
) -> Result<(), DiskFailed>
    requires inside { n < (D.told disk.old).blocks }
    requires room { length noted.old.items < noted.old.capacity }
    requires within { All (λ m. m < (D.told disk.old).blocks) noted.old.items }
    ensures went { Went D.goes (Reads n ∷ []) (is_ok result) disk.old disk.new }
    ensures noted { OnOk result (OnTold (D.told disk.new) (λ image.
        noted.new.items ≡ noted.old.items ++ not_zero image (n ∷ []))) }
    ensures within { All (λ m. m < (D.told disk.old).blocks) noted.new.items }
    ensures few { length noted.new.items ≤ length noted.old.items + 1 }
    ensures kept { noted.new.capacity ≡ noted.old.capacity }
{
    let mut block = [0; 512];
    disk.read(n, &mut block)?;
    if !is_zero(&block) {
        noted.push_back(n);
    }
    Ok(())
}

// Reads the blocks of the ring outside the list of so many blocks from the start on, in rising order, each once, and notes
// those that are not zero, as blocks of the area.
fn note_outside<D: Disk>(
    disk: &mut D,
    from: &Reading,
    used: u32,
    noted: &mut HeapCircularBuffer<u32>,
) -> Result<(), DiskFailed>
    requires inside { from.now.room + 1 ≡ (D.told disk.old).blocks }
    requires small { from.now.room + 1 < 2 ^ 32 }
    requires start { from.now.start < from.now.room }
    requires empty { noted.old.items ≡ [] }
    requires room { from.now.room ≤ noted.old.capacity }
    ensures went { Went D.goes (reads (outside from.now.room from.now.start used from.now.room))
        (is_ok result) disk.old disk.new }
    ensures noted { OnOk result (OnTold (D.told disk.new) (λ image. noted.new.items
        ≡ not_zero image (outside from.now.room from.now.start used from.now.room))) }
    ensures within { All (λ m. m < (D.told disk.old).blocks) noted.new.items }
    ensures kept { noted.new.capacity ≡ noted.old.capacity }
{
    for q in 0..from.room {
        if from.behind(q) >= used {
            note(disk, q + 1, noted)?;
        }
    }
    Ok(())
}

/// Reads all that an opening reads: what a survey does, and then the blocks of the ring outside the list, in rising order, each
/// once. Those that are not zero are noted. It fails as a survey does.
pub fn inspect<D: Disk>(
    disk: &mut D,
    kind: Kind,
    lengths: &mut HeapCircularBuffer<u32>,
    noted: &mut HeapCircularBuffer<u32>,
) -> Result<Seen, SurveyFault>
    requires two { 2 ≤ (D.told disk.old).blocks }
    requires empty { lengths.old.items ≡ [] }
    requires room { (D.told disk.old).blocks ≤ lengths.old.capacity + 1 }
    requires none_noted { noted.old.items ≡ [] }
    requires room_noted { (D.told disk.old).blocks ≤ noted.old.capacity + 1 }
    ensures went { HasInspected D.goes D.told kind result lengths.new.items disk.old disk.new }
    ensures found { OnTold (D.told disk.new) (IsSurvey kind result lengths.new.items) }
    ensures seen { IfOk result (IsSeen (D.told disk.old).blocks lengths.new.items) }
    ensures noted { IfOk result (λ seen. OnTold (D.told disk.new)
        (AreNoted seen noted.new.items)) }
    ensures within { IfOk result (λ seen.
        All (λ n. n < (D.told disk.new).blocks) noted.new.items) }
    ensures kept { lengths.new.capacity ≡ lengths.old.capacity }
{
    let room = disk.blocks() - 1;
    let seen = match survey(disk, kind, lengths) {
        Err(fault) => return Err(fault),
        Ok(seen) => seen,
    };
    let from = Reading {
        start: seen.start,
        room,
    };
    match note_outside(disk, &from, seen.used, noted) {
        Err(DiskFailed) => Err(SurveyFault::DeviceFault),
        Ok(()) => Ok(seen),
    }
}

// Writes zeros to these blocks, in their order.
fn clear<D: Disk>(disk: &mut D, blocks: &HeapCircularBuffer<u32>) -> Result<(), DiskFailed>
    requires inside { All (λ n. n < (D.told disk.old).blocks) blocks.now.items }
    ensures went { Went D.goes (clears blocks.now.items) (is_ok result) disk.old disk.new }
{
    for i in 0..blocks.len() {
        let Some(n) = blocks.get(i) else {
            unreachable!();
        };
        disk.write(*n, &[0; 512])?;
    }
    Ok(())
}

/// Repairs an area: a sync, zeros to these blocks in their order, the header to the first block, and a sync. It makes no call
/// after one that failed.
pub fn repair<D: Disk>(
    disk: &mut D,
    blocks: &HeapCircularBuffer<u32>,
    header: &[u8],
) -> Result<(), DiskFailed>
    requires some { 0 < (D.told disk.old).blocks }
    requires inside { All (λ n. n < (D.told disk.old).blocks) blocks.now.items }
    requires whole { length header.now ≡ 512 }
    ensures went { Went D.goes (repair_calls blocks.now.items header.now) (is_ok result) disk.old
        disk.new }
{
    disk.sync()?;
    clear(disk, blocks)?;
    disk.write(0, header)?;
    disk.sync()
}
