ghost use Rattle.std.specs.Prelude.{◌≡◌, ◌≤◌, true};
ghost use Rattle.ark_extents.specs.Blocks.{AreAmong};
ghost use Rattle.ark_extents.specs.Free.{Loses};

use super::{FreeMap, TakeFault};
use crate::spans::Spans;
use ark_base::Span;
use std::alloc::Global;

/// How many of the `blocks` blocks of a fresh disk stay free where `n` are taken.
fn left_after(alloc: Global, blocks: u32, n: u32) -> Option<Result<u32, TakeFault>>
    requires { 1 ≤ n }
{
    let mut map = FreeMap::new(alloc, blocks).ok()?;
    match map.take(n) {
        Ok(_) => Some(Ok(map.free())),
        Err(fault) => Some(Err(fault)),
    }
}

/// The work grows with the runs: four billion blocks are taken at once.
#[test]
fn takes_four_billion_blocks(rt: HostRuntime) {
    let left = left_after(rt.alloc(), 4_294_967_295, 4_000_000_000);
    assert_eq!(rt; left, Some(Ok(294_967_166)));
}

/// Takes these blocks, and is true, if there is room for more runs and each of them is free.
fn take(map: &mut FreeMap, spans: &Spans) -> bool
    ensures { result ≡ true → Loses map.old map.new spans.now × AreAmong spans.now map.old }
{
    map.runs() <= 4_080 && map.take_exact(spans)
}

/// These blocks taken from a fresh disk of `blocks` blocks, and given back: how many runs there are before, between and after.
fn runs_around(alloc: Global, blocks: u32, spans: &Spans) -> Option<[u32; 3]> {
    let mut map = FreeMap::new(alloc, blocks).ok()?;
    let before = map.runs();
    if !take(&mut map, spans) {
        return None;
    }
    let between = map.runs();
    if between > 4_080 {
        return None;
    }
    map.give(spans);
    Some([before, between, map.runs()])
}

/// What is taken leaves its neighbours as runs of their own, and is one run with them again when it is given back.
#[test]
fn gives_back_what_it_took(rt: HostRuntime) {
    let runs = [Span { start: 150, len: 2 }, Span { start: 140, len: 1 }];
    let spans = Spans::of(&runs).expect(&rt, "spans");
    assert_eq!(rt; runs_around(rt.alloc(), 200, &spans), Some([1, 3, 1]));
    assert_eq!(rt; runs_around(rt.alloc(), 151, &spans), None);
}

/// How many runs both spans form, one behind the other, where all of their blocks are free on a fresh disk of `blocks` blocks.
fn runs_joined(alloc: Global, blocks: u32, first: &Spans, second: &Spans) -> Option<usize> {
    let mut map = FreeMap::new(alloc, blocks).ok()?;
    if !take(&mut map, first) {
        return None;
    }
    if !take(&mut map, second) {
        return None;
    }
    Some(first.join(second)?.runs())
}

/// Spans that are taken one after the other share no block, and a run that begins where one ends is joined with it.
#[test]
fn joins_what_it_took(rt: HostRuntime) {
    let first = Spans::of(&[Span { start: 150, len: 2 }]).expect(&rt, "spans");
    let runs = [Span { start: 152, len: 3 }, Span { start: 140, len: 1 }];
    let second = Spans::of(&runs).expect(&rt, "spans");
    assert_eq!(rt; runs_joined(rt.alloc(), 200, &first, &second), Some(2));
    assert_eq!(rt; runs_joined(rt.alloc(), 200, &first, &first), None);
}
