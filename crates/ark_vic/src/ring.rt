ghost use Rattle.std.specs.Prelude.{◌≡◌, ◌≤◌, ◌<◌, ◌+◌, ◌^◌, ◌↔◌, [], ◌∷◌, ◌++◌, length, drop, slice_get, IsOk, IsTrue, IfOk, IfErr, OnOk, MatchOption};
ghost use Rattle.std.specs.Option.{option_copied};

use crate::descriptor::{Completion, Descriptor};
use ark_base::{Memory, Outcome};
use circular_buffer::HeapCircularBuffer;
use std::alloc::Global;
use std::marker::Model;

/// A ring of descriptors: those that are posted, and the completions of those that have ended, until they are reaped.
/// Together they are at most `size`. All of its room is made by `new`.
#[derive(Drop)]
pub struct Ring {
    posted: HeapCircularBuffer<Descriptor>,
    unreaped: HeapCircularBuffer<Completion>,
    moved: u32,
    size: u32,
}

impl Model for Ring {
    ghost use Rattle.std.specs.Prelude.{◌≡◌, ◌≤◌, ◌+◌, length};
    ghost use Rattle.ark_vic.specs.Queue.{Queue};

    ghost Value = { Queue };

    ghost view = { λ r. record {
      posted = r.posted.items;
      unreaped = r.unreaped.items;
      moved =
          r.moved;
      size = r.size;
    } };

    ghost invariant = { λ r. (r.posted.capacity ≡ r.size) × (r.unreaped.capacity ≡ r.size)
        × (length r.posted.items + length r.unreaped.items ≤ r.size) × (r.size ≤ 256) };
}

impl Ring {
    ghost use Rattle.ark_vic.specs.Queue.{finished, members};

    /// An empty ring for `size` descriptors, at most 256. It fails for want of memory alone.
    pub fn new(alloc: Global, size: u32) -> Result<Ring, Memory>
        requires { size ≤ 256 }
        ensures { IfOk result (λ r. r
            ≡ record { posted = []; unreaped = []; moved = 0; size = size }) }
    {
        let Ok(posted) = HeapCircularBuffer::with_capacity(alloc, size as usize) else {
            return Err(Memory);
        };
        let Ok(unreaped) = HeapCircularBuffer::with_capacity(alloc, size as usize) else {
            return Err(Memory);
        };
        Ok(Ring {
            posted,
            unreaped,
            moved: 0,
            size,
        })
    }

    /// Posts a descriptor, behind all that are posted. It hands it back, and the ring stays as it is, exactly where the
    /// ring is full.
    pub fn post(&mut self, descriptor: Descriptor) -> Result<(), Descriptor>
        ensures fits { IsOk result ↔ (members self.old < self.old.size) }
        ensures posted { OnOk result (self.new
            ≡ record self.old { posted = self.old.posted ++ descriptor ∷ [] }) }
        ensures back { IfErr result (λ back. back ≡ descriptor) }
        ensures same { IfErr result (λ back. self.new ≡ self.old) }
    {
        if self.is_full() {
            return Err(descriptor);
        }
        self.posted.try_push_back(descriptor)
    }

    /// The oldest posted descriptor; `None` exactly where nothing is posted.
    pub fn head(&self) -> Option<&Descriptor>
        ensures { option_copied result ≡ slice_get self.now.posted 0 }
    {
        self.posted.front()
    }

    /// How many blocks the oldest posted descriptor has moved: the calls of `advance` since it became the oldest.
    pub fn moved(&self) -> u32
        ensures { result ≡ self.now.moved }
    {
        self.moved
    }

    /// Counts one block more that the oldest posted descriptor has moved.
    pub fn advance(&mut self)
        requires posted { 0 < length self.old.posted }
        requires below { self.old.moved + 1 < 2 ^ 32 }
        ensures { self.new ≡ record self.old { moved = self.old.moved + 1 } }
    {
        self.moved += 1;
    }

    /// Ends the oldest posted descriptor: its completion, with the outcome and a frame's length in bytes, stands last
    /// among the unreaped.
    pub fn finish(&mut self, outcome: Outcome, len: u32)
        requires { 0 < length self.old.posted }
        ensures { MatchOption (slice_get self.old.posted 0) ⊥ (λ d. self.new
            ≡ finished self.old d outcome len) }
    {
        let Some(descriptor) = self.posted.pop_front() else {
            unreachable!();
        };
        self.moved = 0;
        let Ok(()) = self.unreaped.try_push_back(Completion {
            job: descriptor.job,
            tag: descriptor.tag,
            outcome,
            len,
            buf: descriptor.buf,
        })
        else {
            unreachable!();
        };
    }

    /// Takes the oldest completion; `None` exactly where there is none.
    pub fn reap(&mut self) -> Option<Completion>
        ensures value { result ≡ slice_get self.old.unreaped 0 }
        ensures rest { self.new ≡ record self.old { unreaped = drop 1 self.old.unreaped } }
    {
        self.unreaped.pop_front()
    }

    /// Whether no descriptor can be posted.
    pub fn is_full(&self) -> bool
        ensures { IsTrue result ↔ (self.now.size ≤ members self.now) }
    {
        self.size as usize <= self.posted.len() + self.unreaped.len()
    }

    /// How many descriptors are posted.
    pub fn posted(&self) -> u32
        ensures { result ≡ length self.now.posted }
    {
        self.posted.len() as u32
    }

    /// How many completions are not reaped.
    pub fn unreaped(&self) -> u32
        ensures { result ≡ length self.now.unreaped }
    {
        self.unreaped.len() as u32
    }

    /// How many descriptors and completions there may be together.
    pub fn size(&self) -> u32
        ensures size { result ≡ self.now.size }
        ensures within { members self.now ≤ self.now.size }
    {
        self.size
    }
}
