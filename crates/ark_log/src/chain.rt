ghost use Rattle.std.specs.Prelude.{◌≡◌, ◌≤◌, ◌<◌, ◌+◌, ◌^◌, length};
ghost use Rattle.ark_log.specs.Open.{IsRight};

use crate::command::Waiting;
use ark_base::Kind;
use ark_region::Buf;
use circular_buffer::HeapCircularBuffer;
use std::marker::Model;

// So many commands may wait.
pub(crate) const WAITING: usize = 8;

/// A log or queue that is open: its acknowledged list, by the number of the first entry, the block of the ring where it begins and the
/// lengths of its entries; the commands that wait, at most 8, oldest first; and the buffer of its header. The entries that wait to be
/// appended have their lengths behind those of the list. Its payloads stand on the device, and those that wait in their buffers.
#[derive(Drop)]
pub struct Chain {
    pub(crate) kind: Kind,
    pub(crate) grant: u64,
    pub(crate) room: u32,
    pub(crate) first: u64,
    pub(crate) start: u32,
    pub(crate) count: u32,
    pub(crate) coming: u64,
    pub(crate) lengths: HeapCircularBuffer<u32>,
    pub(crate) stored: u32,
    pub(crate) used: u32,
    pub(crate) header_at: u32,
    pub(crate) header: Option<Buf>,
    pub(crate) waiting: HeapCircularBuffer<Waiting>,
    pub(crate) done: u32,
    pub(crate) failed: bool,
}

impl Model for Chain {
    ghost use Rattle.std.specs.Prelude.{◌≡◌};
    ghost use Rattle.ark_log.specs.Open.{OpenChain, IsRight};

    ghost Value = { OpenChain };

    ghost view = { λ c. record {
      kind = c.kind;
      grant = c.grant;
      room = c.room;
      first = c.first;
      start = c.start;
      count = c.count;
      coming = c.coming;
      lengths = c.lengths.items;
      stored = c.stored;
      used = c.used;
      header_at = c.header_at;
      header = c.header;
      waiting = c.waiting.items;
      done = c.done;
      failed = c.failed;
    } };

    ghost invariant = { λ c. (c.lengths.capacity ≡ c.room) × (c.waiting.capacity ≡ 8)
        × IsRight (record {
          kind = c.kind;
          grant = c.grant;
          room = c.room;
          first = c.first;
          start = c.start;
          count = c.count;
          coming = c.coming;
          lengths = c.lengths.items;
          stored = c.stored;
          used = c.used;
          header_at = c.header_at;
          header = c.header;
          waiting = c.waiting.items;
          done = c.done;
          failed = c.failed;
        }) };
}

impl Chain {
    /// The number of the first acknowledged entry, also where there is none yet.
    pub fn first(&self) -> u64
        ensures { result ≡ self.now.first }
    {
        self.first
    }

    /// How many entries are acknowledged.
    pub fn count(&self) -> u32
        ensures { result ≡ self.now.count }
    {
        self.count
    }

    /// How many commands wait.
    pub fn waiting(&self) -> u32
        ensures count { result ≡ length self.now.waiting }
        ensures within { result ≤ 8 }
    {
        self.waiting.len() as u32
    }

    /// Whether it is a log or a queue.
    pub fn kind(&self) -> Kind
        ensures { result ≡ self.now.kind }
    {
        self.kind
    }

    /// The grant of its area.
    pub fn grant(&self) -> u64
        ensures { result ≡ self.now.grant }
    {
        self.grant
    }

    /// How many blocks its ring has.
    pub fn room(&self) -> u32
        ensures room { result ≡ self.now.room }
        ensures few { self.now.room + 1 < 2 ^ 32 }
    {
        self.room
    }

    /// A law, which does nothing: what is so of every open log.
    pub fn is_right(&self)
        ensures { IsRight self.now }
    {
        let _ = &self.kind;
    }

    /// Whether a descriptor of it has failed since it was opened.
    pub fn failed(&self) -> bool
        ensures { result ≡ self.now.failed }
    {
        self.failed
    }
}
