ghost use Rattle.std.specs.Prelude.{◌≡◌, ◌≤◌, ◌<◌, ◌+◌, ◌-◌, ◌^◌, ◌↔◌, true, false, All, length, take, drop, Err, IsTrue, IfOk, OnOk, OnErr};
ghost use Rattle.std.specs.List.Sorted.{IsStrictlyIncreasing};
ghost use Rattle.ark_extents.specs.Blocks.{runs_of, AreAmong, ShareNoBlock};
ghost use Rattle.ark_extents.specs.Runs as spec;
ghost use Rattle.ark_extents.specs.Free.{free_at_first, Loses, Gains};

use crate::lowest::{drop_lowest, lowest};
use crate::rising::{add_all, cut_all, has_all};
use crate::runs::count_of;
use crate::spans::Spans;
use ark_base::{Memory, Span};
use std::alloc::Global;
use std::marker::Model;

/// The first block that an area may have.
const FIRST: u32 = 129;

/// The most runs of free blocks.
pub const RUNS: usize = 4096;

/// Why no blocks were taken.
#[derive(Clone, Copy, Debug, PartialEq, Eq)]
pub enum TakeFault {
    /// Fewer blocks are free.
    NoSpace,
    /// The lowest free blocks form more than 16 runs.
    Scattered,
}

/// The free blocks of a disk, kept as their runs. Contracts see the ascending list of the blocks.
#[derive(Drop)]
pub struct FreeMap {
    runs: Vec<Span>,
}

impl Model for FreeMap {
    ghost use Rattle.std.specs.Prelude.{◌≤◌, List, ℕ, length, vec_capacity};
    ghost use Rattle.ark_extents.specs.Blocks.{blocks_of};
    ghost use Rattle.ark_extents.specs.Free.{AreRising};

    ghost Value = { List ℕ };

    ghost view = { λ f. blocks_of f.runs.items };

    ghost invariant = { λ f. AreRising 0 f.runs.items × (length f.runs.items ≤ 4096)
        × (4096 ≤ vec_capacity f.runs) };
}

impl FreeMap {
    /// The free blocks of a fresh disk of `blocks` blocks: all from block 129 on. It has room for 4,096 runs. `Memory` comes
    /// only for want of memory.
    pub fn new(alloc: Global, blocks: u32) -> Result<FreeMap, Memory>
        ensures free { IfOk result (λ f. f ≡ free_at_first blocks) }
    {
        let Ok(mut runs) = Vec::with_capacity(alloc, RUNS) else {
            return Err(Memory);
        };
        if blocks <= FIRST {
            return Ok(FreeMap { runs });
        }
        let all = Span {
            start: FIRST,
            len: blocks - FIRST,
        };
        match runs.push(all) {
            Ok(()) => Ok(FreeMap { runs }),
            Err(_) => unreachable!(),
        }
    }

    /// The number of free blocks.
    pub fn free(&self) -> u32
        ensures free { result ≡ length self.now }
        ensures ascending { IsStrictlyIncreasing self.now }
        ensures within { All (λ n. n < 2 ^ 32 - 1) self.now }
    {
        count_of(&self.runs)
    }

    /// The number of runs that the free blocks form.
    pub fn runs(&self) -> u32
        ensures runs { result ≡ length (runs_of self.now) }
        ensures few { result ≤ 4096 }
    {
        self.runs.as_slice().len() as u32
    }

    /// The `n` lowest free blocks, `n` at least 1. `NoSpace` comes exactly where fewer are free, else `Scattered` exactly where
    /// they form more than 16 runs.
    pub fn lowest(&self, n: u32) -> Result<Spans, TakeFault>
        requires some { 1 ≤ n }
        ensures lowest { IfOk result (λ s. s ≡ take n self.now) }
        ensures enough { IfOk result (λ s. n ≤ length self.now) }
        ensures no_space { (result ≡ Err TakeFault.NoSpace) ↔ (length self.now < n) }
        ensures scattered { (result ≡ Err TakeFault.Scattered)
            ↔ ((n ≤ length self.now) × (16 < length (runs_of (take n self.now)))) }
    {
        if self.free() < n {
            return Err(TakeFault::NoSpace);
        }
        match lowest(&self.runs, n) {
            Some(spans) => Ok(spans),
            None => Err(TakeFault::Scattered),
        }
    }

    /// Takes the `n` lowest free blocks, at least 1 and no more than are free, whatever runs they form.
    pub fn take_lowest(&mut self, n: u32)
        requires some { 1 ≤ n }
        requires enough { n ≤ length self.old }
        ensures rest { self.new ≡ drop n self.old }
    {
        drop_lowest(&mut self.runs, n);
    }

    /// Takes the `n` lowest free blocks, `n` at least 1. `NoSpace` comes exactly where fewer are free, else `Scattered`
    /// exactly where they form more than 16 runs; nothing is taken then.
    pub fn take(&mut self, n: u32) -> Result<Spans, TakeFault>
        requires some { 1 ≤ n }
        ensures taken { IfOk result (λ s. s ≡ take n self.old) }
        ensures rest { OnOk result (self.new ≡ drop n self.old) }
        ensures kept { OnErr result (self.new ≡ self.old) }
        ensures no_space { (result ≡ Err TakeFault.NoSpace) ↔ (length self.old < n) }
        ensures scattered { (result ≡ Err TakeFault.Scattered)
            ↔ ((n ≤ length self.old) × (16 < length (runs_of (take n self.old)))) }
    {
        let spans = self.lowest(n)?;
        self.take_lowest(n);
        Ok(spans)
    }

    /// Takes these blocks, and is true; or is false exactly where one of them is not free, and nothing is taken.
    pub fn take_exact(&mut self, spans: &Spans) -> bool
        requires room { length (runs_of self.old) + 16 ≤ 4096 }
        ensures free { IsTrue result ↔ AreAmong spans.now self.old }
        ensures taken { result ≡ true → Loses self.old self.new spans.now }
        ensures kept { result ≡ false → self.new ≡ self.old }
    {
        let pieces = spans.as_slice();
        if !has_all(&self.runs, pieces) {
            return false;
        }
        cut_all(&mut self.runs, pieces);
        true
    }

    /// Gives these blocks back, none of which is free.
    pub fn give(&mut self, spans: &Spans)
        requires room { length (runs_of self.old) + 16 ≤ 4096 }
        requires taken { ShareNoBlock spans.now self.old }
        ensures given { Gains self.old self.new spans.now }
    {
        add_all(&mut self.runs, spans.as_slice());
    }
}

#[cfg(test)]
mod tests;
