ghost use Rattle.std.specs.Prelude.{◌≡◌, ◌≤◌, ◌+◌, min, IfOk};

use std::alloc::{AllocError, Global};

/// A call that is to fail.
#[derive(Clone, Copy, Debug, PartialEq, Eq)]
pub struct Fail {
    /// Its number; calls count from 0.
    pub call: u32,
    /// Whether it takes effect nevertheless, if it is a write.
    pub took: bool,
    /// How many bytes it lets out, if it is a put.
    pub part: u32,
}

/// What becomes of a call.
#[derive(Clone, Copy, Debug, PartialEq, Eq)]
pub enum Turn {
    /// It works.
    Works,
    /// It fails: a write takes effect if it took, a put lets out a part.
    Fails { took: bool, part: u32 },
    /// It fails and does nothing, as all calls after it.
    Over,
}

impl Turn {
    ghost use Rattle.ark_memory.specs.Turns.{works, takes, is_over, let_out};

    /// Whether the call works.
    pub fn works(self) -> bool
        ensures { result ≡ works self }
    {
        match self {
            Turn::Works => true,
            Turn::Fails { .. } => false,
            Turn::Over => false,
        }
    }

    /// Whether a write takes effect.
    pub fn takes(self) -> bool
        ensures { result ≡ takes self }
    {
        match self {
            Turn::Works => true,
            Turn::Fails { took, .. } => took,
            Turn::Over => false,
        }
    }

    /// Whether it comes after the last call that is noted.
    pub fn is_over(self) -> bool
        ensures { result ≡ is_over self }
    {
        match self {
            Turn::Works => false,
            Turn::Fails { .. } => false,
            Turn::Over => true,
        }
    }

    /// How many of so many bytes a put lets out, where so many have room.
    pub fn lets_out(self, bytes: usize, room: usize) -> usize
        ensures part { result ≡ let_out self bytes room }
        ensures within { result ≤ bytes }
        ensures fits { result ≤ room }
    {
        match self {
            Turn::Works => room.min(bytes),
            Turn::Fails { part, .. } => room.min(bytes).min(part as usize),
            Turn::Over => 0,
        }
    }
}

/// The calls so far, and those that are to fail.
#[derive(Drop)]
pub struct Schedule {
    fails: Vec<Fail>,
    calls: u32,
    made: u32,
}

impl Schedule {
    ghost use Rattle.ark_memory.specs.Plan.{turn_of, IsTurn};

    /// No call was made. Of two failures of one call the first counts.
    pub fn new(alloc: Global, plan: &[Fail], calls: u32) -> Result<Schedule, AllocError>
        ensures plan { IfOk result (λ s. s.fails.items ≡ plan.now) }
        ensures calls { IfOk result (λ s. s.calls ≡ calls) }
        ensures made { IfOk result (λ s. s.made ≡ 0) }
    {
        Ok(Schedule {
            fails: Vec::from_slice(alloc, plan)?,
            calls,
            made: 0,
        })
    }

    /// What becomes of the next call. The calls are counted up to their end.
    pub fn next(&mut self) -> Turn
        requires { self.old.made ≤ self.old.calls }
        ensures turn { result ≡ turn_of self.old.fails.items self.old.calls self.old.made }
        ensures due { IsTurn result self.old.made self.old.calls }
        ensures made { self.new.made ≡ min (self.old.made + 1) self.old.calls }
        ensures calls { self.new.calls ≡ self.old.calls }
        ensures plan { self.new.fails.items ≡ self.old.fails.items }
    {
        if self.made >= self.calls {
            return Turn::Over;
        }
        let call = self.made;
        self.made += 1;
        planned(&self.fails, call)
    }
}

ghost use Rattle.ark_memory.specs.Plan.{planned_for};

// What the plan says of a call.
fn planned(fails: &[Fail], call: u32) -> Turn
    ensures { result ≡ planned_for fails.now call }
{
    for fail in fails {
        if fail.call == call {
            return Turn::Fails {
                took: fail.took,
                part: fail.part,
            };
        }
    }
    Turn::Works
}
