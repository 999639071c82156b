ghost use Rattle.std.specs.Prelude.{◌≡◌, ◌≤◌, ◌+◌, ◌↔◌, length, take, drop, vec_len, vec_capacity, IsSome, IfSome};
ghost use Rattle.ark_extents.specs.Blocks.{blocks_of, runs_of};
ghost use Rattle.ark_extents.specs.Free.{AreRising, IsFront};

use crate::builder::RunBuilder;
use crate::rising::put;
use crate::spans::Spans;
use ark_base::Span;

/// Where the first `n` blocks end: how many runs stand before the run of the last one, and how many blocks of it are among
/// them.
fn front_of(runs: &[Span], n: u32) -> (usize, u32)
    requires some { 1 ≤ n }
    requires enough { n ≤ length (blocks_of runs.now) }
    ensures front { IsFront runs.now n result.0 result.1 }
{
    let mut left = n;
    for i in 0..runs.len() {
        let len = runs[i].len;
        if left <= len {
            return (i, left);
        }
        left -= len;
    }
    unreachable!()
}

/// The `n` lowest blocks of these runs, if they form at most 16 runs.
pub fn lowest(runs: &[Span], n: u32) -> Option<Spans>
    requires rising { AreRising 0 runs.now }
    requires some { 1 ≤ n }
    requires enough { n ≤ length (blocks_of runs.now) }
    ensures blocks { IfSome result (λ s. s ≡ take n (blocks_of runs.now)) }
    ensures found { IsSome result ↔ (length (runs_of (take n (blocks_of runs.now))) ≤ 16) }
{
    let (whole, rest) = front_of(runs, n);
    if whole >= 16 {
        return None;
    }
    let mut taken = RunBuilder::new();
    taken.add_all(&runs[..whole]);
    taken.add(Span {
        start: runs[whole].start,
        len: rest,
    });
    Spans::of(taken.runs())
}

/// Takes out the first `count` runs.
fn drop_front(runs: &mut Vec<Span>, count: usize)
    requires within { count ≤ vec_len runs.old }
    ensures items { runs.new.items ≡ drop count runs.old.items }
    ensures len { vec_len runs.new + count ≡ vec_len runs.old }
    ensures capacity { vec_capacity runs.new ≡ vec_capacity runs.old }
{
    for _ in 0..count {
        runs.remove(0);
    }
}

/// Takes the `n` lowest blocks out of the runs.
pub fn drop_lowest(runs: &mut Vec<Span>, n: u32)
    requires rising { AreRising 0 runs.old.items }
    requires some { 1 ≤ n }
    requires enough { n ≤ length (blocks_of runs.old.items) }
    requires room { length runs.old.items ≤ vec_capacity runs.old }
    ensures blocks { blocks_of runs.new.items ≡ drop n (blocks_of runs.old.items) }
    ensures rising { AreRising 0 runs.new.items }
    ensures len { length runs.new.items ≤ length runs.old.items }
    ensures capacity { vec_capacity runs.old ≤ vec_capacity runs.new }
{
    let (whole, rest) = front_of(runs, n);
    drop_front(runs, whole);
    let run = runs.remove(0);
    let left = Span {
        start: run.start + rest,
        len: run.len - rest,
    };
    put(runs, 0, left);
}
