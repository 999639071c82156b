ghost use Rattle.std.specs.Prelude.{◌≡◌, ◌<◌, ◌≤◌, ◌+◌, ◌*◌, ◌%◌, ◌++◌, ◌&&◌, leb, [], true, false, length, IfOk, replicate, take, drop};
ghost use Rattle.ark_media.specs.Journal.{Sync, onto, current, block, output_of, zero_block};
ghost use Rattle.ark_memory.specs.Reels.{Reel, blank};
ghost use Rattle.ark_memory.specs.Turns.{works, HasRoom, after_read, after_write, after_sync, after_put, after_fetch, after_begin};
ghost use Rattle.ark_media.specs.Blocks.{flat, whole_blocks};

use crate::event::Event;
use crate::schedule::Turn;
use crate::tape::Tape;
use std::alloc::{AllocError, Global};
use std::marker::Model;

/// A device in memory with all that was done to it.
#[derive(Drop)]
pub struct Recorded {
    base: Vec<u8>,
    image: Vec<u8>,
    tape: Tape,
    limit: usize,
    lost: bool,
}

impl Model for Recorded {
    ghost use Rattle.std.specs.Prelude.{◌≡◌, ◌≤◌, ◌*◌, ◌/◌, [], length, vec_capacity};
    ghost use Rattle.ark_media.specs.Journal.{onto, current};
    ghost use Rattle.ark_media.specs.Blocks.{whole_blocks, flat, AllWhole};
    ghost use Rattle.ark_memory.specs.Reels.{Reel, reel_of};

    ghost Value = { Reel };

    ghost view = { λ r. reel_of r.lost r.base.items r.tape r.limit };

    ghost invariant = { λ r. ((r.image.items
        ≡ flat (current (whole_blocks r.base.items) (onto r.tape.events [])))
        × AllWhole (current (whole_blocks r.base.items) (onto r.tape.events [])))
        × (length r.base.items ≤ 512 * 2097152)
        × ((r.limit ≤ vec_capacity r.base) × (r.limit ≤ vec_capacity r.image)) };
}

// Replaces block `n` of the image.
fn put_block(image: &mut [u8], n: u32, block: &[u8])
    requires whole { length block.now ≡ 512 }
    requires inside { 512 * n + 512 ≤ length image.old }
    ensures { image.new ≡ take (512 * n) image.old
        ++ (block.now ++ drop (512 * n + 512) image.old) }
{
    let from = 512 * n as usize;
    image[from..from + 512].copy_from_slice(block);
}

impl Recorded {
    ghost use Rattle.std.specs.Prelude.{get_or, MatchOption};
    ghost use Rattle.ark_memory.specs.Shown.{ShowsAt};

    /// An empty device, with room for so many bytes of a device, so many events and so many bytes of output.
    pub fn new(alloc: Global, limit: usize, events: u32, text: u32) -> Result<Recorded, AllocError>
        ensures { IfOk result (λ r. r ≡ blank limit events text) }
    {
        Ok(Recorded {
            base: Vec::with_capacity(alloc, limit)?,
            image: Vec::with_capacity(alloc, limit)?,
            tape: Tape::new(alloc, events, text)?,
            limit,
            lost: false,
        })
    }

    /// The number of blocks.
    pub fn blocks(&self) -> u32
        ensures { result ≡ length self.now.base }
    {
        (self.base.len() / 512) as u32
    }

    /// All bytes of the device as they are now.
    pub fn image(&self) -> &[u8]
        ensures { result.now ≡ flat (current self.now.base (onto self.now.events [])) }
    {
        &self.image
    }

    /// All that was put out.
    pub fn out(&self) -> &[u8]
        ensures { result.now ≡ output_of self.now.events }
    {
        self.tape.out()
    }

    /// How many events there are.
    pub fn events(&self) -> u32
        ensures { result ≡ length self.now.events }
    {
        self.tape.len()
    }

    /// The event with this number, from 0 on.
    pub fn event(&self, i: u32) -> Option<Event<'_>>
        ensures { ShowsAt self.now.events i result }
    {
        self.tape.get(i)
    }

    /// A call that leaves the device was made. From a call past the end on no history is told.
    pub fn rest(&mut self, turn: Turn)
        ensures { self.new ≡ after_fetch turn self.old }
    {
        if turn.is_over() {
            self.lost = true;
        }
    }

    /// Notes a read of block `n`. One that works gives the block.
    pub fn read(&mut self, turn: Turn, n: u32, out: &mut [u8])
        requires inside { n < length self.old.base }
        requires room { HasRoom turn self.old }
        requires whole { length out.old ≡ 512 }
        ensures noted { self.new ≡ after_read turn n self.old }
        ensures honest { works turn ≡ true
            → out.new ≡ block (current self.new.base (onto self.new.events [])) n }
        ensures unread { works turn ≡ false → out.new ≡ out.old }
    {
        if turn.is_over() {
            self.lost = true;
            return;
        }
        let ok = turn.works();
        self.tape.read(n, ok);
        if !ok {
            return;
        }
        let from = 512 * n as usize;
        out.copy_from_slice(&self.image[from..from + 512]);
    }

    /// Notes a write of block `n`, and does it if it takes effect.
    pub fn write(&mut self, turn: Turn, n: u32, block: &[u8])
        requires inside { n < length self.old.base }
        requires room { HasRoom turn self.old }
        requires whole { length block.now ≡ 512 }
        ensures { self.new ≡ after_write turn n block.now self.old }
    {
        if turn.is_over() {
            self.lost = true;
            return;
        }
        let took = turn.takes();
        self.tape.write(n, block, took, turn.works());
        if took {
            put_block(&mut self.image, n, block);
        }
    }

    /// Notes a sync.
    pub fn sync(&mut self, turn: Turn)
        requires { HasRoom turn self.old }
        ensures { self.new ≡ after_sync turn self.old }
    {
        if turn.is_over() {
            self.lost = true;
            return;
        }
        self.tape.sync(turn.works());
    }

    /// Puts bytes out.
    pub fn put(&mut self, turn: Turn, bytes: &[u8])
        requires room { HasRoom turn self.old }
        requires text { length (output_of self.old.events) + length bytes.now ≤
            self.old.limits.text }
        ensures { self.new ≡ after_put turn bytes.now self.old }
    {
        if turn.is_over() {
            self.lost = true;
            return;
        }
        self.tape.put(bytes);
    }

    /// Begins with so many zero blocks, where the call works and they are at most `most`; whether it did.
    pub fn begin_new(&mut self, turn: Turn, blocks: u32, most: u32) -> bool
        requires small { blocks ≤ 2097152 }
        requires room { 512 * most ≤ self.old.limits.device }
        ensures begins { result ≡ (works turn && leb blocks most) }
        ensures device { self.new
            ≡ after_begin turn (leb blocks most) (replicate blocks zero_block) self.old }
    {
        if turn.is_over() {
            self.lost = true;
            return false;
        }
        if !turn.works() || blocks > most {
            return false;
        }
        self.tape.clear();
        self.base.clear();
        self.image.clear();
        let bytes = 512 * blocks as usize;
        let _ = self.base.resize(bytes, 0);
        let _ = self.image.resize(bytes, 0);
        true
    }

    /// Begins with these bytes, which are whole blocks, where the call works and they are at most 2,097,152 blocks; whether it did.
    pub fn begin_found(&mut self, turn: Turn, device: &[u8]) -> bool
        requires whole { length device.now % 512 ≡ 0 }
        requires room { length device.now ≤ self.old.limits.device }
        ensures begins { result ≡ (works turn && leb (length device.now) (512 * 2097152)) }
        ensures device { self.new
            ≡ after_begin turn (leb (length device.now) (512 * 2097152))
            (whole_blocks device.now) self.old }
    {
        if turn.is_over() {
            self.lost = true;
            return false;
        }
        if !turn.works() || device.len() > 512 * 2_097_152 {
            return false;
        }
        self.tape.clear();
        self.base.clear();
        self.image.clear();
        let _ = self.base.extend_from_slice(device);
        let _ = self.image.extend_from_slice(device);
        true
    }
}

mod leaving;
