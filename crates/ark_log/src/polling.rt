ghost use Rattle.std.specs.Prelude.{◌≡◌, ◌≤◌, ◌<◌, ◌+◌, ◌*◌, ◌^◌, ◌≢◌, [], Some, slice_get, length, IsSome, IfSome, IfErr, OnOk, OnErr};
ghost use Rattle.ark_region.specs.Frames.{LiesInRegion};
ghost use Rattle.ark_base.specs.declared.kind.Outcome.TheVariants as outcome;
ghost use Rattle.ark_vic.specs.declared.descriptor.Completion.{Completion};
ghost use Rattle.ark_vic.specs.Queue.{Queue, members};
ghost use Rattle.ark_entry.specs.Entry as spec;
ghost use Rattle.ark_log.specs.Open.{HasBuffer};
ghost use Rattle.ark_log.specs.Acked.{acknowledged};
ghost use Rattle.ark_log.specs.Closed.{HasBuffersIn};
ghost use Rattle.ark_log.specs.Polled.{GivesPayload, GoesOn, IsAcked, HasPolled, MayEnd, ended, failed_with, stage_of as next_of};
ghost use Rattle.ark_log.specs.Stages.{IsOfStage, IsWhole, oldest};

use crate::chain::Chain;
use crate::closing::give_back;
use crate::command::{Command, Waiting};
use crate::stage::stage_of;
use ark_base::Outcome;
use ark_region::Region;
use ark_vic::{Completion, Ring};

// The bytes of an entry before its payload.
const HEAD: usize = 20;

/// What a poll came to.
#[derive(Clone, Copy, Debug, PartialEq, Eq)]
pub enum Polled {
    /// No command waits, or the descriptor that is posted has not ended.
    Nothing,
    /// The next descriptor of the oldest command was posted.
    Posted,
    /// The oldest command is acknowledged. The number is the length of the payload of a pop, and 0 for others.
    Acked(Command, u32),
    /// The descriptor ended so, and the log has failed.
    Fault(Outcome),
}

// Copies the payload of an entry from a command's buffer to the front of `out`.
fn copy_payload(command: &Waiting, region: &Region, out: &mut [u8])
    requires lies { IfSome command.now.buf (LiesInRegion region.now.taken) }
    requires whole { IfSome command.now.buf (λ b. b.len ≡ 512 * spec.entry_blocks command.now.len) }
    requires room { command.now.len ≤ length out.old }
    ensures { GivesPayload command.now region.now out.old out.new }
{
    if let Some(buf) = &command.buf {
        let len = command.len as usize;
        out[..len].copy_from_slice(region.part(buf, HEAD, HEAD + len));
    }
}

impl Chain {
    // Applies the oldest command to the list, and takes it.
    fn advance(&mut self) -> Waiting
        requires { 0 < length self.old.waiting }
        ensures chain { self.new ≡ acknowledged self.old (oldest self.old).command }
        ensures oldest { result ≡ oldest self.old }
        ensures buffer { HasBuffer result }
    {
        let (command, _) = self.oldest();
        match command {
            Command::Append(_) => self.acknowledge_append(),
            Command::Trim(n) => self.acknowledge_drop(n),
            Command::Pop(n) => self.acknowledge_drop(n + 1),
        }
    }

    // Acknowledges the oldest command: it is applied to the list, and its buffer is given back.
    fn finish(&mut self, region: &mut Region, out: &mut [u8]) -> Polled
        requires some { 0 < length self.old.waiting }
        requires lies { HasBuffersIn region.old.taken self.old }
        requires room { 32768 ≤ length out.old }
        ensures { (ring : Queue) → IsAcked
            (record { chain = self.old; ring = ring; space = region.old; out = out.old })
            (record { chain = self.new; ring = ring; space = region.new; out = out.new })
            result }
    {
        let oldest = self.advance();
        let command = oldest.command;
        let len = match command {
            Command::Pop(_) => {
                copy_payload(&oldest, region, out);
                oldest.len
            }
            _ => 0,
        };
        give_back(oldest.buf, region);
        Polled::Acked(command, len)
    }

    // Posts the next stage of the oldest command, or acknowledges it.
    fn go_on(&mut self, ring: &mut Ring, region: &mut Region, out: &mut [u8]) -> Polled
        requires some { 0 < length self.old.waiting }
        requires free { members ring.old < ring.old.size }
        requires whole { IsWhole self.old }
        requires lies { HasBuffersIn region.old.taken self.old }
        requires room { 32768 ≤ length out.old }
        ensures { GoesOn (next_of self.old)
            (record { chain = self.old; ring = ring.old; space = region.old; out = out.old })
            (record { chain = self.new; ring = ring.new; space = region.new; out = out.new })
            result }
    {
        let (command, _) = self.oldest();
        let Some(stage) = stage_of(command, self.done) else {
            return self.finish(region, out);
        };
        self.post_stage(stage, ring, region);
        Polled::Posted
    }

    // Takes the buffer of a descriptor back that has ended, and counts its stage as whole; or it has failed.
    fn end(&mut self, ending: Completion) -> Result<(), Outcome>
        requires some { 0 < length self.old.waiting }
        requires stage { IsSome (next_of self.old) }
        requires its { IfSome (next_of self.old) (λ s. IsOfStage self.old s ending.buf) }
        ensures ok { OnOk result (self.new ≡ ended self.old ending.buf) }
        ensures well { OnOk result (ending.outcome ≡ outcome.Ok) }
        ensures failed { OnErr result (self.new ≡ failed_with self.old ending.buf) }
        ensures badly { IfErr result (λ o. (o ≡ ending.outcome) × (o ≢ outcome.Ok)) }
    {
        let (command, _) = self.oldest();
        let Some(stage) = stage_of(command, self.done) else {
            unreachable!();
        };
        self.take_back(stage, ending.buf);
        if ending.outcome != Outcome::Ok {
            self.failed = true;
            return Err(ending.outcome);
        }
        self.done += 1;
        Ok(())
    }

    /// Brings the oldest command one step on, as its card's ring tells. The ring has nothing but this log's posted descriptor or its
    /// completion, which stays so while the log alone posts there. `Nothing` comes exactly where no command waits or the descriptor
    /// has not ended, `Fault` exactly where it ended otherwise than `Ok`. Of a pop that is acknowledged the payload stands at the
    /// front of `out`; no other payload is copied.
    pub fn poll(&mut self, ring: &mut Ring, region: &mut Region, out: &mut [u8]) -> Polled
        requires alone { members ring.old ≤ 1 }
        requires size { 0 < ring.old.size }
        requires whole { members ring.old ≡ 0 → IsWhole self.old }
        requires lies { members ring.old ≡ 0 → HasBuffersIn region.old.taken self.old }
        requires may { (c : Completion) → slice_get ring.old.unreaped 0 ≡ Some c
            → MayEnd self.old region.old.taken c.buf }
        requires room { 32768 ≤ length out.old }
        ensures { HasPolled
            (record { chain = self.old; ring = ring.old; space = region.old; out = out.old })
            (record { chain = self.new; ring = ring.new; space = region.new; out = out.new })
            result }
    {
        if self.waiting.is_empty() || ring.posted() > 0 {
            return Polled::Nothing;
        }
        let Some(ending) = ring.reap() else {
            return self.go_on(ring, region, out);
        };
        match self.end(ending) {
            Ok(()) => self.go_on(ring, region, out),
            Err(outcome) => Polled::Fault(outcome),
        }
    }
}
