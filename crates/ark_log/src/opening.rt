ghost use Rattle.std.specs.Prelude.{◌≡◌, ◌<◌, ◌+◌, ◌*◌, ◌^◌, IfOk, IfErr};
ghost use Rattle.ark_log.specs.Open.{new_chain};

use crate::chain::{Chain, WAITING};
use ark_base::{Kind, Memory};
use ark_region::Buf;
use circular_buffer::HeapCircularBuffer;
use std::alloc::Global;

impl Chain {
    /// The log or queue of an area of zeros, whose ring has so many blocks: it has no entry, and the first will have number 1. All
    /// memory that it ever takes is taken here; `Memory` comes for want of it alone, and hands the header's buffer back.
    pub fn new(
        alloc: Global,
        kind: Kind,
        grant: u64,
        room: u32,
        header: Buf,
    ) -> Result<Chain, (Memory, Buf)>
        requires some { 0 < room }
        requires few { room + 1 < 2 ^ 32 }
        requires whole { header.len ≡ 512 }
        ensures made { IfOk result (λ c. c ≡ new_chain kind grant room header) }
        ensures back { IfErr result (λ e. e.1 ≡ header) }
    {
        let Ok(lengths) = HeapCircularBuffer::with_capacity(alloc, room as usize) else {
            return Err((Memory, header));
        };
        let Ok(waiting) = HeapCircularBuffer::with_capacity(alloc, WAITING) else {
            return Err((Memory, header));
        };
        let header_at = header.start();
        Ok(Chain {
            kind,
            grant,
            room,
            first: 1,
            start: 0,
            count: 0,
            coming: 1,
            lengths,
            stored: 0,
            used: 0,
            header_at,
            header: Some(header),
            waiting,
            done: 0,
            failed: false,
        })
    }
}
