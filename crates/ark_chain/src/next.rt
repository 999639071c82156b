ghost use Rattle.std.specs.Prelude.{◌≡◌, ◌<◌, ◌≤◌, ◌+◌, ◌-◌, ◌^◌, None, is_ok, IfOk, IfSome};
ghost use Rattle.ark_media.specs.Calls.{Went, OnTold};
ghost use Rattle.ark_media.specs.Journal.{block};
ghost use Rattle.ark_entry.specs.Entry as spec;
ghost use Rattle.ark_chain.specs.Survey.{block_at, last_of, reads_at};
ghost use Rattle.ark_chain.specs.Walking.{IsHead, IsNoHead, IsNext, FitsAt, HasLooked};

use crate::reading::Reading;
use ark_entry::{entry_blocks, marked, read_entry_head};
use ark_media::{Disk, DiskFailed};

/// The length that a block says as the first of the entry of this number, where the entry's blocks fit the ring.
pub fn head_len(from: &Reading, block: &[u8; 512], used: u32, number: u64) -> Option<u32>
    requires within { used ≤ from.now.room }
    requires some { 0 < from.now.room }
    ensures head { IfSome result (IsHead from.now.room from.now.start used number block.now) }
    ensures none { result ≡ None → IsNoHead from.now.room from.now.start used number block.now }
{
    let head = read_entry_head(block)?;
    let blocks = entry_blocks(head.len);
    if head.number != number || blocks > from.room - used {
        return None;
    }
    let next = from.index(used + blocks);
    if head.next == next {
        Some(head.len)
    } else {
        None
    }
}

// Whether the entry that begins with this block ends with the marker. Its last block is read where it is another.
fn is_ended<D: Disk>(
    disk: &mut D,
    from: &Reading,
    first: &[u8; 512],
    used: u32,
    len: u32,
) -> Result<bool, DiskFailed>
    requires inside { from.now.room + 1 ≡ (D.told disk.old).blocks }
    requires small { from.now.room + 1 < 2 ^ 32 }
    requires fits { used + spec.entry_blocks len ≤ from.now.room }
    ensures went { Went D.goes (reads_at from.now.room from.now.start
        (last_of used (spec.entry_blocks len - 1))) (is_ok result) disk.old disk.new }
    ensures marked { IfOk result (λ is. OnTold (D.told disk.new) (λ image.
        block image (block_at from.now.room from.now.start used) ≡ first.now
        → is ≡ spec.is_marked (block image (block_at from.now.room from.now.start
        (used + spec.entry_blocks len - 1))))) }
{
    let more = entry_blocks(len) - 1;
    if more == 0 {
        return Ok(marked(first));
    }
    let mut last = [0; 512];
    disk.read(from.place(used + more), &mut last)?;
    Ok(marked(&last))
}

/// The length of the entry of this number that stands so many blocks behind the start of the ring; `None` exactly where none
/// stands there.
pub fn next_entry<D: Disk>(
    disk: &mut D,
    from: &Reading,
    used: u32,
    number: u64,
) -> Result<Option<u32>, DiskFailed>
    requires inside { from.now.room + 1 ≡ (D.told disk.old).blocks }
    requires small { from.now.room + 1 < 2 ^ 32 }
    requires within { used ≤ from.now.room }
    requires some { 0 < from.now.room }
    ensures went { HasLooked D.goes from.now.room from.now.start used result disk.old disk.new }
    ensures next { IfOk result (λ next. OnTold (D.told disk.new)
        (IsNext from.now.room from.now.start used number next)) }
    ensures fits { IfOk result (λ next. IfSome next
        (FitsAt from.now.room used number)) }
{
    if used == from.room {
        return Ok(None);
    }
    let mut first = [0; 512];
    disk.read(from.place(used), &mut first)?;
    let Some(len) = head_len(from, &first, used, number) else {
        return Ok(None);
    };
    let ended = is_ended(disk, from, &first, used, len)?;
    if ended { Ok(Some(len)) } else { Ok(None) }
}
