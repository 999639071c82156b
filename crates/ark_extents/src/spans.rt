ghost use Rattle.std.specs.Prelude.{◌≡◌, ◌≤◌, ◌<◌, ◌-◌, ◌^◌, ◌++◌, ◌↔◌, true, All, Contains, length, slice_get, IsTrue, IsSome, IfSome};
ghost use Rattle.ark_extents.specs.Blocks.{blocks_of, runs_of, AreDistinct, ShareNoBlock};
ghost use Rattle.ark_extents.specs.Runs as spec;

use crate::builder::RunBuilder;
use crate::runs::{are_spans, block_at, count_of, hold};
use ark_base::Span;
use std::marker::Model;

/// The blocks of an area in their order, as their 1 to 16 longest runs. Contracts see the list of blocks.
#[derive(Clone, Copy, Debug)]
pub struct Spans {
    count: usize,
    runs: [Span; 16],
}

impl Model for Spans {
    ghost use Rattle.std.specs.Prelude.{◌≡◌, List, ℕ, length, take, true};
    ghost use Rattle.std.proofs.Common.{sym, ap, ◌∙◌};
    ghost use Rattle.ark_extents.specs.Blocks.{blocks_of, runs_of};
    ghost use Rattle.ark_extents.specs.Runs.{are_spans, padded};

    ghost Value = { List ℕ };

    ghost view = { λ s. blocks_of (take s.count s.runs) };

    ghost invariant = { λ s. (s.count ≡ length (take s.count s.runs))
        × (s.runs ≡ padded (take s.count s.runs)) × (are_spans (take s.count s.runs) ≡ true)
        × (runs_of (blocks_of (take s.count s.runs)) ≡ take s.count s.runs) };

    ghost inverse = { λ bs. record { count = length (runs_of bs); runs = padded (runs_of bs) } };

    ghost inverse_ok = { λ a h i. record {
      count = (ap length h.3 ∙ sym h.0) i;
      runs =
          (ap padded h.3 ∙ sym h.1) i;
    } };
}

impl Spans {
    /// The spans with these runs, in their order. `None` where there are fewer than 1 or more than 16, a run is empty or
    /// passes block 2^32 - 2, two share a block, or a run begins where the one before it ends.
    pub fn of(runs: &[Span]) -> Option<Spans>
        ensures blocks { IfSome result (λ s. s ≡ blocks_of runs.now) }
        ensures runs { IfSome result (λ s. runs_of s ≡ runs.now) }
        ensures found { IsSome result ↔ (spec.are_spans runs.now ≡ true) }
    {
        if !are_spans(runs) {
            return None;
        }
        let count = runs.len();
        if count > 16 {
            return None;
        }
        let mut all = [Span { start: 0, len: 0 }; 16];
        all[..count].copy_from_slice(runs);
        Some(Spans { count, runs: all })
    }

    /// The runs, in their order.
    pub fn as_slice(&self) -> &[Span]
        ensures runs { result.now ≡ runs_of self.now }
        ensures blocks { blocks_of result.now ≡ self.now }
        ensures spans { spec.are_spans result.now ≡ true }
        ensures few { length result.now ≤ 16 }
    {
        &self.runs[..self.count]
    }

    /// The number of runs, 1 to 16.
    pub fn runs(&self) -> usize
        ensures runs { result ≡ length (runs_of self.now) }
        ensures some { 1 ≤ result }
        ensures few { result ≤ 16 }
    {
        self.count
    }

    /// Run `i`; `None` where `i` is at least `runs()`.
    pub fn run(&self, i: usize) -> Option<Span>
        ensures run { result ≡ slice_get (runs_of self.now) i }
    {
        self.runs[..self.count].get(i).copied()
    }

    /// The block at place `off`; `None` where `off` is at least `blocks()`.
    pub fn translate(&self, off: u32) -> Option<u32>
        ensures block { result ≡ slice_get self.now off }
    {
        block_at(&self.runs[..self.count], off)
    }

    /// The number of blocks.
    pub fn blocks(&self) -> u32
        ensures blocks { result ≡ length self.now }
        ensures some { 1 ≤ result }
        ensures distinct { AreDistinct self.now }
        ensures within { All (λ n. n < 2 ^ 32 - 1) self.now }
    {
        count_of(&self.runs[..self.count])
    }

    /// Whether block `n` is among them.
    pub fn holds(&self, n: u32) -> bool
        ensures held { IsTrue result ↔ Contains self.now n }
    {
        hold(&self.runs[..self.count], n)
    }

    /// These blocks and then those of `more`; `None` where they share one, or form more than 16 runs.
    pub fn join(&self, more: &Spans) -> Option<Spans>
        ensures blocks { IfSome result (λ s. s ≡ self.now ++ more.now) }
        ensures found { IsSome result
            ↔ (ShareNoBlock self.now more.now × (length (runs_of (self.now ++ more.now)) ≤ 16)) }
    {
        let mut joined = RunBuilder::new();
        joined.add_all(&self.runs[..self.count]);
        joined.add_all(&more.runs[..more.count]);
        Spans::of(joined.runs())
    }
}

#[cfg(test)]
mod tests;
