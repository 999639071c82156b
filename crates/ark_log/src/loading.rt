ghost use Rattle.std.specs.Prelude.{◌≡◌, ◌≤◌, ◌<◌, ◌+◌, ◌^◌, IfOk, IfErr};
ghost use Rattle.ark_region.specs.Frames.{Apart, LiesInRegion, Piece, bytes_of};
ghost use Rattle.ark_log.specs.Loaded.{HasLoaded, HasFailedToLoad};

use crate::chain::{Chain, WAITING};
use crate::posting::write_head;
use ark_base::Kind;
use ark_chain::{Seen, SurveyFault, inspect, repair};
use ark_entry::ChainHead;
use ark_media::{Disk, DiskFailed};
use ark_region::{Buf, Region};
use circular_buffer::HeapCircularBuffer;
use std::alloc::Global;

/// Why a log or queue was not opened.
#[derive(Clone, Copy, Debug, PartialEq, Eq)]
pub enum LoadFault {
    /// There is no memory for it; no device call was made.
    Memory,
    /// A device call failed.
    DeviceFault,
    /// The list is damaged at this entry, or its header is where this is 0; nothing was written.
    Damaged(u64),
}

// The header of a list that was found.
fn head_of(kind: Kind, seen: &Seen) -> ChainHead
    ensures kind { result.kind ≡ kind }
    ensures first { result.first ≡ seen.now.first }
    ensures start { result.start ≡ seen.now.start }
    ensures count { result.count ≡ seen.now.count }
    ensures end { result.end ≡ seen.now.end }
{
    ChainHead {
        kind,
        first: seen.first,
        start: seen.start,
        count: seen.count,
        end: seen.end,
    }
}

impl Chain {
    /// Opens the log or queue that stands in an area. All memory that it ever takes is taken first. Then the area is read, and
    /// where its list is damaged nothing is written. Else it is repaired: a sync, zeros to those blocks of the ring outside the
    /// list that are not zero, in rising order, the header of the list, and a sync. The header's buffer holds what was written.
    /// Where it fails the buffer comes back. No other buffer's bytes change.
    pub fn load<D: Disk>(
        alloc: Global,
        disk: &mut D,
        kind: Kind,
        grant: u64,
        header: Buf,
        region: &mut Region,
    ) -> Result<Chain, (LoadFault, Buf)>
        requires two { 2 ≤ (D.told disk.old).blocks }
        requires whole { header.len ≡ 512 }
        requires lies { LiesInRegion region.old.taken header }
        ensures loaded { IfOk result (λ chain. HasLoaded D.goes D.told kind grant header chain
            region.old region.new disk.old disk.new) }
        ensures failed { IfErr result (λ e. HasFailedToLoad D.goes D.told kind e.0
            disk.old disk.new) }
        ensures back { IfErr result (λ e. e.1 ≡ header) }
        ensures kept { region.new.taken ≡ region.old.taken }
        ensures others { (p : Piece) → Apart header p
            → bytes_of region.new p ≡ bytes_of region.old p }
    {
        let room = disk.blocks() - 1;
        let Ok(mut lengths) = HeapCircularBuffer::with_capacity(alloc, room as usize) else {
            return Err((LoadFault::Memory, header));
        };
        let Ok(mut noted) = HeapCircularBuffer::with_capacity(alloc, room as usize) else {
            return Err((LoadFault::Memory, header));
        };
        let Ok(waiting) = HeapCircularBuffer::with_capacity(alloc, WAITING) else {
            return Err((LoadFault::Memory, header));
        };
        let seen = match inspect(disk, kind, &mut lengths, &mut noted) {
            Err(SurveyFault::DeviceFault) => return Err((LoadFault::DeviceFault, header)),
            Err(SurveyFault::Damaged(n)) => return Err((LoadFault::Damaged(n), header)),
            Ok(seen) => seen,
        };
        write_head(&header, region, &head_of(kind, &seen));
        match repair(disk, &noted, region.bytes(&header)) {
            Err(DiskFailed) => return Err((LoadFault::DeviceFault, header)),
            Ok(()) => {}
        }
        let header_at = header.start();
        Ok(Chain {
            kind,
            grant,
            room,
            first: seen.first,
            start: seen.start,
            count: seen.count,
            coming: seen.first,
            lengths,
            stored: seen.used,
            used: seen.used,
            header_at,
            header: Some(header),
            waiting,
            done: 0,
            failed: false,
        })
    }
}
