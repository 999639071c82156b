ghost use Rattle.std.specs.Prelude.{◌≡◌, ◌≤◌, ◌<◌, ◌+◌, ◌^◌, [], ◌++◌, true, length};
ghost use Rattle.std.specs.List.{list_all, range_with_len};
ghost use Rattle.ark_extents.specs.Blocks.{blocks_of, runs_of};
ghost use Rattle.ark_extents.specs.Runs as spec;

use crate::runs::end;
use ark_base::Span;
use std::marker::Model;

/// A list of blocks that grows by runs, kept as its longest runs, at most 32. Contracts see the list of blocks.
#[derive(Drop)]
pub struct RunBuilder {
    count: usize,
    runs: [Span; 32],
}

impl Model for RunBuilder {
    ghost use Rattle.std.specs.Prelude.{◌≡◌, ◌≤◌, List, ℕ, length, take};
    ghost use Rattle.ark_extents.specs.Blocks.{blocks_of, runs_of};

    ghost Value = { List ℕ };

    ghost view = { λ b. blocks_of (take b.count b.runs) };

    ghost invariant = { λ b. (b.count ≡ length (take b.count b.runs)) × (b.count ≤ 32)
        × (runs_of (blocks_of (take b.count b.runs)) ≡ take b.count b.runs) };
}

impl RunBuilder {
    /// No blocks.
    pub fn new() -> RunBuilder
        ensures empty { result ≡ [] }
    {
        RunBuilder {
            count: 0,
            runs: [Span { start: 0, len: 0 }; 32],
        }
    }

    /// Puts the blocks of the run behind the others.
    pub fn add(&mut self, run: Span)
        requires room { length (runs_of self.old) < 32 }
        requires some { 1 ≤ run.len }
        requires within { run.start + run.len < 2 ^ 32 }
        ensures blocks { self.new ≡ self.old ++ range_with_len run.start run.len }
        ensures room { length (runs_of self.new) ≤ length (runs_of self.old) + 1 }
    {
        if self.count > 0 {
            let last = self.runs[self.count - 1];
            if end(last) == u64::from(run.start) {
                self.runs[self.count - 1] = Span {
                    start: last.start,
                    len: last.len + run.len,
                };
                return;
            }
        }
        self.runs[self.count] = run;
        self.count += 1;
    }

    /// Puts the blocks of these runs behind the others, in their order.
    pub fn add_all(&mut self, runs: &[Span])
        requires room { length (runs_of self.old) + length runs.now ≤ 32 }
        requires fit { list_all spec.fits runs.now ≡ true }
        ensures blocks { self.new ≡ self.old ++ blocks_of runs.now }
        ensures room { length (runs_of self.new) ≤ length (runs_of self.old) + length runs.now }
    {
        for run in runs {
            self.add(*run);
        }
    }

    /// The longest runs of the blocks.
    pub fn runs(&self) -> &[Span]
        ensures runs { result.now ≡ runs_of self.now }
    {
        &self.runs[..self.count]
    }
}
