ghost use Rattle.std.specs.Prelude.{◌≡◌, ◌≤◌, ◌<◌, ◌-◌, ◌%◌, false, [], length, is_ok};
ghost use Rattle.ark_media.specs.Journal.{output_of};
ghost use Rattle.ark_memory.specs.Reels.{IsReady};
ghost use Rattle.ark_memory.specs.Turns.{counted};

use crate::event::Event;
use crate::openings::Openings;
use crate::recorded::Recorded;
use crate::schedule::{Fail, Schedule};
use crate::source::Source;
use ark_base::Memory;
use std::alloc::Global;

/// The outside in memory: a device that can be attached or made, a script, and all that was put out.
///
/// The calls attach, make, fetch, put, read, write and sync are counted from 0, and fail as they were planned. It tells
/// its history up to the first call past the planned number of calls.
#[derive(Drop)]
pub struct MemoryWorld {
    found: Vec<u8>,
    room: u32,
    device: Recorded,
    source: Source,
    schedule: Schedule,
    text: u32,
    disk_faults: u64,
    attach_faults: u64,
    source_faults: u64,
    sink_faults: u64,
    openings: Openings,
    ghost ready: { IsReady (length found.items) room device schedule.calls schedule.made text },
}

// What a call answers; one that failed is counted.
fn answer<E: Copy>(works: bool, faults: &mut u64, failed: E) -> Result<(), E>
    ensures planned { is_ok result ≡ works }
    ensures counts { faults.new ≡ counted (is_ok result) faults.old }
    ensures later { faults.old ≤ faults.new }
{
    if works {
        return Ok(());
    }
    *faults = faults.saturating_add(1);
    Err(failed)
}

impl MemoryWorld {
    ghost use Rattle.std.specs.Prelude.{◌↔◌, IsTrue, IfOk, take};
    ghost use Rattle.ark_memory.specs.Reels.{nothing_told};
    ghost use Rattle.ark_memory.specs.World.{told_by};
    ghost use Rattle.ark_media.specs.Journal.{Sync, onto, current};
    ghost use Rattle.ark_media.specs.Blocks.{flat};
    ghost use Rattle.ark_memory.specs.Leaving.{MayLeaveBytes};
    ghost use Rattle.ark_memory.specs.Shown.{ShowsAt};

    /// A world in which `device` can be attached: its whole blocks of 512 bytes, without what comes after the last. A device
    /// of at most `room` blocks can be made. The calls of `plan` fail, and all from number `calls` on; there is room for
    /// `text` bytes of output in all. It takes all memory that it ever needs, and answers `Memory` where there is too little.
    pub fn new(
        alloc: Global,
        device: &[u8],
        room: u32,
        script: &[u8],
        plan: &[Fail],
        calls: u32,
        text: u32,
    ) -> Result<MemoryWorld, Memory>
        ensures told { IfOk result (λ w. told_by w ≡ nothing_told) }
        ensures script { IfOk result (λ w. w.source ≡ record { taken = []; left = script.now }) }
        ensures attach_faults { IfOk result (λ w. w.attach_faults ≡ 0) }
        ensures source_faults { IfOk result (λ w. w.source_faults ≡ 0) }
        ensures sink_faults { IfOk result (λ w. w.sink_faults ≡ 0) }
        ensures openings { IfOk result (λ w. w.openings.asked ≡ []) }
        ensures found { IfOk result (λ w. w.found.items
            ≡ take (length device.now - length device.now % 512) device.now) }
        ensures room { IfOk result (λ w. w.room ≡ room) }
        ensures plan { IfOk result (λ w. w.schedule.fails.items ≡ plan.now) }
        ensures calls { IfOk result (λ w. w.schedule.calls ≡ calls) }
        ensures made { IfOk result (λ w. w.schedule.made ≡ 0) }
        ensures text { IfOk result (λ w. w.text ≡ text) }
    {
        let found = &device[..device.len() - device.len() % 512];
        let limit = found.len().max(512 * room as usize);
        Ok(MemoryWorld {
            found: Vec::from_slice(alloc, found).map_err(|_| Memory)?,
            room,
            device: Recorded::new(alloc, limit, calls, text).map_err(|_| Memory)?,
            source: Source::new(alloc, script).map_err(|_| Memory)?,
            schedule: Schedule::new(alloc, plan, calls).map_err(|_| Memory)?,
            text,
            disk_faults: 0,
            attach_faults: 0,
            source_faults: 0,
            sink_faults: 0,
            openings: Openings::new(),
        })
    }

    /// How many events there are since the device was attached or made.
    pub fn events(&self) -> u32
        ensures { result ≡ length self.now.device.events }
    {
        self.device.events()
    }

    /// The event with this number, counted from 0 for the first since the device was attached or made.
    pub fn event(&self, i: u32) -> Option<Event<'_>>
        ensures { ShowsAt self.now.device.events i result }
    {
        self.device.event(i)
    }

    /// All bytes of the device as they are now, block after block.
    pub fn image(&self) -> &[u8]
        ensures { result.now ≡ flat (current self.now.device.base
            (onto self.now.device.events [])) }
    {
        self.device.image()
    }

    /// Whether a stop after the first `front` of these events may leave these bytes of the device, where it leaves blocks whole:
    /// each block has its content at the last sync that succeeded, or what a write since then wrote.
    pub fn may_leave(&self, front: u32, image: &[u8]) -> bool
        ensures leaves { IsTrue result ↔ MayLeaveBytes self.now.device front image.now }
    {
        self.device.may_leave(front, image)
    }

    /// All that was put out since the device was attached or made.
    pub fn out(&self) -> &[u8]
        ensures { result.now ≡ output_of self.now.device.events }
    {
        self.device.out()
    }
}

mod disk;
mod outside;
#[cfg(test)]
mod tests;
