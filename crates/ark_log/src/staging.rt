ghost use Rattle.std.specs.Prelude.{◌≡◌, ◌≤◌, ◌<◌, ◌+◌, ◌-◌, ◌*◌, ◌^◌, ◌++◌, ◌∷◌, [], None, length, IsSome, IfSome};
ghost use Rattle.ark_region.specs.Frames.{LiesInRegion};
ghost use Rattle.ark_vic.specs.Queue.{members};
ghost use Rattle.ark_entry.specs.Stated.{stated};
ghost use Rattle.ark_chain.specs.Survey.{block_at};
ghost use Rattle.ark_log.specs.Open.{CanCome, HasBuffer, first_after};
ghost use Rattle.ark_log.specs.Closed.{HasBuffersIn};
ghost use Rattle.ark_vic.specs.declared.descriptor.Job.TheVariants as job;
ghost use Rattle.ark_log.specs.Stages.{HasStageBuffer, IsOfStage, IsPrepared, described, entry_with, freed, header_after, header_with, oldest, posting_of, stage_with};
ghost use Rattle.ark_log.specs.declared.stage.Stage.TheVariants as stage;

use crate::chain::Chain;
use crate::command::Command;
use crate::posting::{mark_buffer, post, replace_first, write_head};
use crate::stage::Stage;
use ark_chain::Reading;
use ark_entry::{ChainHead, entry_blocks};
use ark_region::{Buf, Region};
use ark_vic::{Job, Ring};

impl Chain {
    // The oldest command, and the length of its entry.
    pub(crate) fn oldest(&self) -> (Command, u32)
        requires { 0 < length self.now.waiting }
        ensures command { result.0 ≡ (oldest self.now).command }
        ensures len { result.1 ≡ (oldest self.now).len }
        ensures can { CanCome result.0 self.now.first (self.now.first + self.now.count) }
        ensures low { first_after (oldest self.now).command self.now.first ≤ 2 ^ 62 + 1 }
        ensures buffer { HasBuffer (oldest self.now) }
    {
        let Some(oldest) = self.waiting.front() else {
            unreachable!();
        };
        (oldest.command, oldest.len)
    }

    // The number of the first entry behind a command.
    fn first_after(&self, command: Command) -> u64
        requires { CanCome command self.now.first (self.now.first + self.now.count) }
        ensures first { result ≡ first_after command self.now.first }
        ensures low { self.now.first ≤ result }
        ensures high { result ≤ self.now.first + self.now.count }
    {
        match command {
            Command::Append(_) => self.first,
            Command::Trim(n) => n,
            Command::Pop(n) => n + 1,
        }
    }

    // The header of the list behind a command.
    fn next_head(&self, command: Command) -> ChainHead
        requires { CanCome command self.now.first (self.now.first + self.now.count) }
        ensures head { stated result ≡ header_after self.now command }
        ensures kind { result.kind ≡ self.now.kind }
    {
        let first = self.first_after(command);
        let dropped = (first - self.first) as u32;
        let reading = self.reading();
        ChainHead {
            kind: self.kind,
            first,
            start: reading.index(self.blocks_before(dropped)),
            count: self.count - dropped,
            end: reading.index(self.stored),
        }
    }

    // Posts the buffer of the oldest command to read or write so many blocks of its entry, from one behind the list's start on.
    fn post_entry(&mut self, ring: &mut Ring, job: Job, behind: u32, count: u32)
        requires some { 0 < length self.old.waiting }
        requires room { members ring.old < ring.old.size }
        ensures ring { ring.new ≡ record ring.old {
          posted = ring.old.posted ++ described self.old.grant job
              (block_at self.old.room self.old.start behind) count 0 (oldest self.old).buf ∷ [];
        } }
        ensures chain { self.new ≡ entry_with None self.old }
    {
        let first = self.reading().place(behind);
        let buf = replace_first(&mut self.waiting, None);
        post(ring, self.grant, job, first, count, 0, buf);
    }

    // Writes the marker of the oldest command's entry into its buffer, and posts its last block.
    fn post_mark(&mut self, ring: &mut Ring, region: &mut Region, len: u32)
        requires some { 0 < length self.old.waiting }
        requires room { members ring.old < ring.old.size }
        requires is { len ≡ (oldest self.old).len }
        requires whole { IsSome (oldest self.old).buf }
        requires lies { IfSome (oldest self.old).buf (LiesInRegion region.old.taken) }
        ensures ring { ring.new ≡ record ring.old {
          posted = ring.old.posted ++ posting_of self.old stage.Mark ∷ [];
        } }
        ensures chain { self.new ≡ entry_with None self.old }
        ensures region { IsPrepared self.old stage.Mark region.old region.new }
    {
        let more = entry_blocks(len) - 1;
        let entry = Reading {
            start: self.reading().index(self.stored),
            room: self.room,
        };
        let first = entry.place(more);
        let Some(buf) = replace_first(&mut self.waiting, None) else {
            unreachable!();
        };
        mark_buffer(&buf, region);
        let from = buf.len() - 512;
        post(ring, self.grant, Job::Write, first, 1, from, Some(buf));
    }

    // Writes the header of the list behind a command into its buffer, and posts it.
    fn post_header(&mut self, ring: &mut Ring, region: &mut Region, command: Command)
        requires room { members ring.old < ring.old.size }
        requires is { command ≡ (oldest self.old).command }
        requires can { CanCome command self.old.first (self.old.first + self.old.count) }
        requires whole { IsSome self.old.header }
        requires lies { IfSome self.old.header (LiesInRegion region.old.taken) }
        ensures ring { ring.new ≡ record ring.old {
          posted = ring.old.posted ++ posting_of self.old stage.Header ∷ [];
        } }
        ensures chain { self.new ≡ header_with None self.old }
        ensures region { IsPrepared self.old stage.Header region.old region.new }
    {
        let head = self.next_head(command);
        let Some(buf) = self.header.take() else {
            unreachable!();
        };
        write_head(&buf, region, &head);
        post(ring, self.grant, Job::Write, 0, 1, 0, Some(buf));
    }

    // Posts zeros to the blocks of the entries that a command drops.
    fn post_clear(&mut self, ring: &mut Ring, command: Command)
        requires room { members ring.old < ring.old.size }
        requires can { CanCome command self.old.first (self.old.first + self.old.count) }
        ensures ring { ring.new ≡ record ring.old {
          posted = ring.old.posted ++ described self.old.grant job.Zero
              (block_at self.old.room self.old.start 0) (freed self.old command) 0 None ∷ [];
        } }
        ensures chain { self.new ≡ self.old }
    {
        let dropped = (self.first_after(command) - self.first) as u32;
        let freed = self.blocks_before(dropped);
        let first = self.reading().place(0);
        post(ring, self.grant, Job::Zero, first, freed, 0, None);
    }

    // Posts what the oldest command does at a stage.
    pub(crate) fn post_stage(&mut self, stage: Stage, ring: &mut Ring, region: &mut Region)
        requires some { 0 < length self.old.waiting }
        requires room { members ring.old < ring.old.size }
        requires whole { HasStageBuffer self.old stage }
        requires lies { HasBuffersIn region.old.taken self.old }
        ensures ring { ring.new ≡ record ring.old {
          posted = ring.old.posted ++ posting_of self.old stage ∷ [];
        } }
        ensures chain { self.new ≡ stage_with self.old stage None }
        ensures region { IsPrepared self.old stage region.old region.new }
    {
        let (command, len) = self.oldest();
        let stored = self.stored;
        match stage {
            Stage::Load => self.post_entry(ring, Job::Read, 0, entry_blocks(len)),
            Stage::Draft => self.post_entry(ring, Job::Write, stored, entry_blocks(len)),
            Stage::Mark => self.post_mark(ring, region, len),
            Stage::Header => self.post_header(ring, region, command),
            Stage::Clear => self.post_clear(ring, command),
            Stage::Flush => post(ring, self.grant, Job::Sync, 0, 1, 0, None),
        }
    }

    // Takes the buffer of a stage back.
    pub(crate) fn take_back(&mut self, stage: Stage, buf: Option<Buf>)
        requires some { 0 < length self.old.waiting }
        requires its { IsOfStage self.old stage buf }
        ensures { self.new ≡ stage_with self.old stage buf }
    {
        match stage {
            Stage::Load | Stage::Draft | Stage::Mark => {
                replace_first(&mut self.waiting, buf);
            }
            Stage::Header => self.header = buf,
            Stage::Clear | Stage::Flush => {}
        }
    }
}
