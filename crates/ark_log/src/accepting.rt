ghost use Rattle.std.specs.Prelude.{◌≡◌, ◌≤◌, ◌<◌, ◌+◌, ◌++◌, ◌∷◌, [], None, false, length, IfSome, IfNone, IfOk, IfErr, OnOk, OnErr};
ghost use Rattle.ark_entry.specs.Entry as spec;
ghost use Rattle.ark_log.specs.declared.command.Command.TheVariants as command;
ghost use Rattle.ark_log.specs.Refused.{Admits, IsFull, IsNoPop, IsNoRoom, IsRefused, IsNoEntry, IsNever, IsNextToPop, next_number};
ghost use Rattle.ark_log.specs.Waits.{WaitsToAppend, WaitsToPop, waits, with_buffer};

use crate::buffers::{new_buffer, new_entry};
use crate::chain::{Chain, WAITING};
use crate::command::{ChainRefusal, Command, Waiting};
use ark_chain::Reading;
use ark_entry::entry_blocks;
use ark_region::{Buf, Region};
use circular_buffer::HeapCircularBuffer;

// The highest number of an entry.
const LAST: u64 = 1 << 62;

// Puts a command that has a buffer behind the others.
fn enqueue(waiting: &mut HeapCircularBuffer<Waiting>, command: Command, len: u32, buf: Buf)
    requires { length waiting.old.items < waiting.old.capacity }
    ensures { waiting.new ≡ record waiting.old {
      items = waiting.old.items ++ with_buffer command len buf ∷ [];
    } }
{
    let start = buf.start();
    let Ok(()) = waiting.try_push_back(Waiting {
        command,
        len,
        start,
        buf: Some(buf),
    }) else {
        unreachable!();
    };
}

impl Chain {
    // Whether a command may wait behind the others.
    fn admit(&self) -> Result<(), ChainRefusal>
        ensures ok { OnOk result (Admits self.now) }
        ensures refused { IfErr result (IsRefused self.now IsNever) }
    {
        if self.failed {
            return Err(ChainRefusal::Failed);
        }
        if self.waiting.len() >= WAITING {
            return Err(ChainRefusal::Busy);
        }
        Ok(())
    }

    // Its ring, seen from the start of its list on.
    pub(crate) fn reading(&self) -> Reading
        ensures { result ≡ record { start = self.now.start; room = self.now.room } }
    {
        Reading {
            start: self.start,
            room: self.room,
        }
    }

    // The number of the next entry that is accepted.
    fn next_number(&self) -> u64
        ensures { result ≡ next_number self.now }
    {
        self.first + self.lengths.len() as u64
    }

    // The length of the entry that the next pop drops; `None` exactly where there is none.
    fn next_to_pop(&self) -> Option<u32>
        ensures some { IfSome result (IsNextToPop self.now) }
        ensures none { IfNone result (self.now.coming ≡ next_number self.now) }
    {
        let Some(len) = self.lengths.get((self.coming - self.first) as usize) else {
            return None;
        };
        Some(*len)
    }

    /// Accepts a command to drop the entries below this number; it waits behind the others. `Failed` comes exactly where the log has
    /// failed, else `Busy` exactly where 8 commands wait, else `NoEntry` exactly where no entry would be dropped, or one that is not
    /// there. A command that is refused changes nothing.
    pub fn trim(&mut self, n: u64) -> Result<(), ChainRefusal>
        ensures accepted { OnOk result (self.new ≡ waits self.old
            (record { command = command.Trim n; len = 0; start = 0; buf = None }) n) }
        ensures admitted { OnOk result (Admits self.old) }
        ensures some { OnOk result (self.old.coming < n) }
        ensures there { OnOk result (n ≤ next_number self.old) }
        ensures refused { IfErr result (IsRefused self.old (IsNoEntry self.old n)) }
        ensures same { OnErr result (self.new ≡ self.old) }
    {
        self.admit()?;
        if n <= self.coming || n > self.next_number() {
            return Err(ChainRefusal::NoEntry);
        }
        let Ok(()) = self.waiting.try_push_back(Waiting {
            command: Command::Trim(n),
            len: 0,
            start: 0,
            buf: None,
        })
        else {
            unreachable!();
        };
        self.coming = n;
        Ok(())
    }

    /// Accepts a command to append an entry, and gives its number; it waits behind the others. The entry is written once, into a new
    /// buffer, as it will stand on the device but for its marker. `Failed` comes exactly where the log has failed, else `Busy` exactly
    /// where 8 commands wait, else `LogFull` exactly where the ring has no room for it or no number is left, else `NoBuffer` exactly
    /// where the region has no place for its buffer. A command that is refused changes nothing.
    pub fn append(&mut self, region: &mut Region, payload: &[u8]) -> Result<u64, ChainRefusal>
        requires short { length payload.now ≤ 32768 }
        ensures number { IfOk result (λ n. n ≡ next_number self.old) }
        ensures accepted { OnOk result
            (WaitsToAppend payload.now self.old self.new region.old region.new) }
        ensures admitted { OnOk result (Admits self.old) }
        ensures room { OnOk result (¬ IsFull self.old (spec.entry_blocks (length payload.now))) }
        ensures refused { IfErr result (IsRefused self.old
            (IsNoRoom self.old region.old (spec.entry_blocks (length payload.now)))) }
        ensures same { OnErr result (self.new ≡ self.old) }
        ensures region { OnErr result (region.new ≡ region.old) }
        ensures frames { length region.new.taken ≡ length region.old.taken }
    {
        self.admit()?;
        let len = payload.len() as u32;
        let blocks = entry_blocks(len);
        let number = self.next_number();
        if blocks > self.room - self.used || number > LAST {
            return Err(ChainRefusal::LogFull);
        }
        let next = self.reading().index(self.used + blocks);
        let Some(buf) = new_entry(region, number, next, payload) else {
            return Err(ChainRefusal::NoBuffer);
        };
        self.lengths.push_back(len);
        self.used += blocks;
        enqueue(&mut self.waiting, Command::Append(number), len, buf);
        Ok(number)
    }

    /// Accepts a command to drop the first entry that no other command drops, and gives its number; it waits behind the others. A new
    /// buffer is for the entry's blocks. `Failed` comes exactly where the log has failed, else `Busy` exactly where 8 commands wait,
    /// else `NoEntry` exactly where there is none, else `NoBuffer` exactly where the region has no place for its buffer. A command
    /// that is refused changes nothing.
    pub fn pop(&mut self, region: &mut Region) -> Result<u64, ChainRefusal>
        ensures number { IfOk result (λ n. n ≡ self.old.coming) }
        ensures accepted { OnOk result (WaitsToPop self.old self.new region.old region.new) }
        ensures admitted { OnOk result (Admits self.old) }
        ensures some { OnOk result (self.old.coming < next_number self.old) }
        ensures refused { IfErr result (IsRefused self.old (IsNoPop self.old region.old)) }
        ensures same { OnErr result (self.new ≡ self.old) }
        ensures region { OnErr result (region.new ≡ region.old) }
        ensures frames { length region.new.taken ≡ length region.old.taken }
    {
        self.admit()?;
        let Some(len) = self.next_to_pop() else {
            return Err(ChainRefusal::NoEntry);
        };
        let number = self.coming;
        let Some(buf) = new_buffer(region, entry_blocks(len)) else {
            return Err(ChainRefusal::NoBuffer);
        };
        enqueue(&mut self.waiting, Command::Pop(number), len, buf);
        self.coming += 1;
        Ok(number)
    }
}
