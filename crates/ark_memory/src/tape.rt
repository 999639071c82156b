ghost use Rattle.std.specs.Prelude.{◌≡◌, ◌≤◌, ◌<◌, ◌+◌, ◌-◌, take, drop, ◌++◌, ◌∷◌, [], length, IfOk};
ghost use Rattle.ark_media.specs.Journal.{Out, Read, Write, Sync, output_of};
ghost use Rattle.ark_memory.specs.Reels.{Taped, no_events, tape_with};

use crate::event::Event;
use ark_base::Block;
use std::alloc::{AllocError, Global};
use std::marker::Model;

/// An event as it is kept: its output and its block stand in two buffers.
#[derive(Clone, Copy, Debug, PartialEq, Eq)]
pub enum Kept {
    Read {
        n: u32,
        ok: bool,
    },
    Write {
        n: u32,
        place: usize,
        took: bool,
        ok: bool,
    },
    Sync {
        ok: bool,
    },
    Out {
        from: usize,
        to: usize,
    },
}

/// Events in the order in which they came, with all output in one buffer and all written blocks in another.
#[derive(Drop)]
pub struct Tape {
    entries: Vec<Kept>,
    blocks: Vec<Block>,
    text: Vec<u8>,
    limit: u32,
    text_limit: u32,
}

impl Model for Tape {
    ghost use Rattle.std.specs.Prelude.{◌≤◌, ◌<◌, ◌^◌, length, map, vec_capacity};
    ghost use Rattle.ark_memory.specs.Reels.{Taped};

    ghost Value = { Taped };

    ghost use Rattle.ark_memory.specs.Tape.{event_of, Sound};

    ghost view = { λ t. record {
      events = map
          (event_of t.text.items t.blocks.items) t.entries.items;
      limit = t.limit;
      text_limit =
          t.text_limit;
    } };

    ghost invariant = { λ t. Sound t.text.items t.blocks.items t.entries.items
        × ((length t.entries.items ≤ t.limit) × (t.limit < 2 ^ 32)
        × (t.limit ≤ vec_capacity t.entries))
        × ((length t.blocks.items ≤ length t.entries.items) × (t.limit ≤ vec_capacity t.blocks))
        × ((length t.text.items ≤ t.text_limit) × (t.text_limit ≤ vec_capacity t.text)) };
}

// Some of the bytes.
fn part_of(text: &[u8], from: usize, to: usize) -> &[u8]
    requires order { from ≤ to }
    requires inside { to ≤ length text.now }
    ensures { result.now ≡ take (to - from) (drop from text.now) }
{
    &text[from..to]
}

impl Tape {
    ghost use Rattle.std.specs.Prelude.{false, get_or, MatchOption};
    ghost use Rattle.ark_memory.specs.Shown.{ShowsAt};

    /// No events, with room for so many of them, and for so many bytes of output.
    pub fn new(alloc: Global, limit: u32, text_limit: u32) -> Result<Tape, AllocError>
        ensures { IfOk result (λ tape. tape ≡ no_events limit text_limit) }
    {
        Ok(Tape {
            entries: Vec::with_capacity(alloc, limit as usize)?,
            blocks: Vec::with_capacity(alloc, limit as usize)?,
            text: Vec::with_capacity(alloc, text_limit as usize)?,
            limit,
            text_limit,
        })
    }

    /// How many events there are.
    pub fn len(&self) -> u32
        ensures { result ≡ length self.now.events }
    {
        self.entries.len() as u32
    }

    /// The event with this number, from 0 on.
    pub fn get(&self, i: u32) -> Option<Event<'_>>
        ensures { ShowsAt self.now.events i result }
    {
        if i as usize >= self.entries.len() {
            return None;
        }
        match self.entries[i as usize] {
            Kept::Read { n, ok } => Some(Event::Read { n, ok }),
            Kept::Write { n, place, took, ok } => Some(Event::Write {
                n,
                block: &self.blocks[place],
                took,
                ok,
            }),
            Kept::Sync { ok } => Some(Event::Sync { ok }),
            Kept::Out { from, to } => Some(Event::Out {
                bytes: part_of(&self.text, from, to),
            }),
        }
    }

    /// All that was put out.
    pub fn out(&self) -> &[u8]
        ensures { result.now ≡ output_of self.now.events }
    {
        &self.text
    }

    /// Forgets all events.
    pub fn clear(&mut self)
        ensures { self.new ≡ no_events self.old.limit self.old.text_limit }
    {
        self.entries.clear();
        self.blocks.clear();
        self.text.clear();
    }

    pub fn read(&mut self, n: u32, ok: bool)
        requires { length self.old.events < self.old.limit }
        ensures { self.new ≡ tape_with self.old (Read n ok) }
    {
        self.entries.push_reserved(Kept::Read { n, ok });
    }

    pub fn sync(&mut self, ok: bool)
        requires { length self.old.events < self.old.limit }
        ensures { self.new ≡ tape_with self.old (Sync ok) }
    {
        self.entries.push_reserved(Kept::Sync { ok });
    }

    pub fn write(&mut self, n: u32, block: &[u8], took: bool, ok: bool)
        requires whole { length block.now ≡ 512 }
        requires room { length self.old.events < self.old.limit }
        ensures { self.new ≡ tape_with self.old (Write n block.now took ok) }
    {
        let mut copy = [0u8; 512];
        copy.copy_from_slice(block);
        let place = self.blocks.len();
        self.blocks.push_reserved(Block(copy));
        self.entries
            .push_reserved(Kept::Write { n, place, took, ok });
    }

    pub fn put(&mut self, bytes: &[u8])
        requires room { length self.old.events < self.old.limit }
        requires text { length (output_of self.old.events) + length bytes.now ≤
            self.old.text_limit }
        ensures { self.new ≡ tape_with self.old (Out bytes.now) }
    {
        let from = self.text.len();
        let _ = self.text.extend_from_slice(bytes);
        let to = self.text.len();
        self.entries.push_reserved(Kept::Out { from, to });
    }
}
