ghost use Rattle.std.specs.Prelude.{◌≡◌, ◌≤◌, ◌<◌, ◌+◌, ◌⊎◌, [], All, true, None, length, IfOk, IfSome, is_some};
ghost use Rattle.std.specs.Borrow.{sem};
ghost use Rattle.ark_media.specs.Calls.{Went};
ghost use Rattle.ark_vsic.specs.declared.due.Moved.TheVariants as moved;
ghost use Rattle.ark_vsic.specs.declared.due.Due.TheVariants as due;
ghost use Rattle.ark_vsic.specs.Card.{bound_with, bound_without, head_of, is_bound};
ghost use Rattle.ark_vsic.specs.Moves.{CanMove, Leaves, MayPass, MovesBlocks, answer_of, answer_tried, calls_of, count_of, due_of, ended, is_last, pace_after, ring_after, worked};

use crate::block::try_block;
use crate::due::{Due, Moved, PASS, outcome_of, paced};
use crate::place::{block_of, spans_of};
use ark_base::{Memory, Outcome};
use ark_extents::Spans;
use ark_media::Disk;
use ark_region::Region;
use ark_vic::{Job, Rate, Ring};
use arrayvec::ArrayVec;
use std::alloc::Global;
use std::marker::Model;

/// A storage card: a ring of descriptors on the areas that are bound to it, by their grants, at most 8. A rate may pace it.
/// A descriptor may name any grant; whether its area is bound and held is asked at each move.
#[derive(Drop)]
pub struct Vsic {
    ring: Ring,
    bound: ArrayVec<u64, 8>,
    pace: Option<Rate>,
}

impl Model for Vsic {
    ghost use Rattle.ark_vsic.specs.Card.{Card};

    ghost Value = { Card };

    ghost view = { λ v. record { ring = v.ring; bound = v.bound.items; pace = v.pace } };
}

impl Vsic {
    ghost use Rattle.ark_vsic.specs.Lending.{LendsRing};

    /// A card with an empty ring for `size` descriptors, at most 256, to which no area is bound, and which nothing paces. It
    /// fails for want of memory alone; no other call takes memory.
    pub fn new(alloc: Global, size: u32) -> Result<Vsic, Memory>
        requires { size ≤ 256 }
        ensures ring { IfOk result (λ v. v.ring ≡ record {
          posted = [];
          unreaped = [];
          moved = 0;
          size = size;
        }) }
        ensures bound { IfOk result (λ v. v.bound ≡ []) }
        ensures pace { IfOk result (λ v. v.pace ≡ None) }
    {
        let ring = Ring::new(alloc, size)?;
        Ok(Vsic {
            ring,
            bound: ArrayVec::new(),
            pace: None,
        })
    }

    /// Its ring.
    pub fn ring(&self) -> &Ring
        ensures { result.now ≡ self.now.ring }
    {
        &self.ring
    }

    /// Its ring, for descriptors to be posted and completions to be reaped. All else stays as it is.
    pub fn ring_mut(&mut self) -> &mut Ring
        ensures* writes_back { sem 𝓛 (LendsRing self.entry result) }
        ensures value { result.now ≡ self.old.ring }
    {
        &mut self.ring
    }

    /// Whether descriptors may use the area of this grant.
    pub fn binds(&self, grant: u64) -> bool
        ensures { result ≡ is_bound grant self.now.bound }
    {
        self.bound.as_slice().contains(&grant)
    }

    /// Lets descriptors use the area of this grant.
    pub fn bind(&mut self, grant: u64)
        requires { (length self.old.bound < 8) ⊎ (is_bound grant self.old.bound ≡ true) }
        ensures { self.new ≡ record self.old { bound = bound_with grant self.old.bound } }
    {
        if !self.binds(grant) {
            self.bound.push(grant);
        }
    }

    /// Lets them use it no more. A descriptor on it ends at its next move.
    pub fn unbind(&mut self, grant: u64)
        ensures { self.new ≡ record self.old { bound = bound_without grant self.old.bound } }
    {
        self.bound.retain(|bound| *bound != grant);
    }

    /// A rate paces the card from now on, or none.
    pub fn pace(&mut self, rate: Option<Rate>)
        ensures { self.new ≡ record self.old { pace = rate } }
    {
        self.pace = rate;
    }

    /// Whether a rate paces it.
    pub fn is_paced(&self) -> bool
        ensures { result ≡ is_some self.now.pace }
    {
        self.pace.is_some()
    }

    /// What it does next at tick `now`, for an application that holds these areas, by their grants.
    pub fn due(&self, held: &[(u64, Spans)], now: u64) -> Due
        ensures { result ≡ due_of self.now held.now now }
    {
        let Some(head) = self.ring.head() else {
            return Due::Nothing;
        };
        if head.job == Job::Sync {
            return Due::Sync;
        }
        if !self.binds(head.grant) {
            return Due::Ends(Outcome::NoGrant);
        }
        let Some(spans) = spans_of(held, head.grant) else {
            return Due::Ends(Outcome::NoGrant);
        };
        let Some(n) = block_of(spans, head.wrap, head.first, self.ring.moved()) else {
            return Due::Ends(Outcome::OutOfRange);
        };
        paced(&self.pace, now, n)
    }

    // Tries the block that is due; whether that succeeded.
    fn try_next<D: Disk>(&self, n: u32, region: &mut Region, disk: &mut D) -> bool
        requires blocks { MovesBlocks (head_of self.now.ring) }
        requires sound { IfSome (head_of self.now.ring) (λ d.
            CanMove region.old.taken self.now.ring.moved d) }
        requires inside { n < (D.told disk.old).blocks }
        ensures went { Went D.goes (calls_of self.now (due.Block n) region.old)
            result disk.old disk.new }
        ensures region { Leaves self.now (due.Block n) result
            (D.told disk.new).history region.old region.new }
    {
        let Some(head) = self.ring.head() else {
            unreachable!();
        };
        try_block(head, self.ring.moved(), n, region, disk)
    }

    // Ends the oldest descriptor.
    fn end(&mut self, outcome: Outcome) -> Moved
        requires { 0 < length self.old.ring.posted }
        ensures answer { result ≡ moved.Done outcome }
        ensures card { self.new ≡ record self.old {
          ring = ended self.old.ring (head_of self.old.ring) outcome;
        } }
    {
        self.ring.finish(outcome, 0);
        Moved::Done(outcome)
    }

    // How many blocks the oldest descriptor has, none where none is posted.
    fn blocks(&self) -> u32
        ensures { result ≡ count_of (head_of self.now.ring) }
    {
        match self.ring.head() {
            None => 0,
            Some(head) => head.count,
        }
    }

    // Counts a block that was tried.
    fn count(&mut self, ok: bool) -> Moved
        requires posted { 0 < length self.old.ring.posted }
        requires below { self.old.ring.moved < count_of (head_of self.old.ring) }
        ensures answer { result ≡ answer_tried (is_last self.old.ring) ok }
        ensures card { self.new ≡ record self.old {
          ring = ring_after self.old.ring (answer_tried (is_last self.old.ring) ok);
        } }
    {
        let count = self.blocks();
        if ok && self.ring.moved() + 1 < count {
            self.ring.advance();
            return Moved::Block;
        }
        self.end(outcome_of(ok))
    }

    // A block passes its rate.
    fn pass(&mut self, now: u64)
        requires { MayPass now self.old.pace }
        ensures { self.new ≡ record self.old { pace = pace_after self.old.pace (due.Block 0) now } }
    {
        if let Some(rate) = &mut self.pace {
            rate.passed(PASS, now);
        }
    }

    /// Makes the next device call of the oldest descriptor, or ends it with none, for an application that holds these areas,
    /// by their grants. A block moves straight between the device and the buffer. `DeviceFault` comes only where the call failed.
    pub fn move_one<D: Disk>(
        &mut self,
        held: &[(u64, Spans)],
        region: &mut Region,
        disk: &mut D,
        now: u64,
    ) -> Moved
        requires sound { IfSome (head_of self.old.ring) (λ d.
            CanMove region.old.taken self.old.ring.moved d) }
        requires inside { All (λ a. All (λ n. n < (D.told disk.old).blocks) a.1) held.now }
        ensures went { Went D.goes (calls_of self.old (due_of self.old held.now now) region.old)
            (worked result) disk.old disk.new }
        ensures answer { result
            ≡ answer_of self.old (due_of self.old held.now now) (worked result) }
        ensures ring { self.new.ring ≡ ring_after self.old.ring result }
        ensures pace { self.new.pace ≡ pace_after self.old.pace (due_of self.old held.now now) now }
        ensures bound { self.new.bound ≡ self.old.bound }
        ensures frames { region.new.taken ≡ region.old.taken }
        ensures region { Leaves self.old (due_of self.old held.now now) (worked result)
            (D.told disk.new).history region.old region.new }
    {
        match self.due(held, now) {
            Due::Nothing => Moved::Idle,
            Due::Waits => Moved::Held,
            Due::Ends(outcome) => self.end(outcome),
            Due::Sync => {
                let ok = disk.sync().is_ok();
                self.end(outcome_of(ok))
            }
            Due::Block(n) => {
                let ok = self.try_next(n, region, disk);
                self.pass(now);
                self.count(ok)
            }
        }
    }
}
