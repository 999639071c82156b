ghost use Rattle.std.specs.Prelude.{◌≡◌, ◌≤◌, ◌<◌, ◌+◌, ◌-◌, ◌^◌, ◌⊎◌, ◌↔◌, ◌++◌, ℕ, true, IsTrue, length, take, drop, vec_len, vec_capacity};
ghost use Rattle.ark_extents.specs.Runs.{are_spans};
ghost use Rattle.ark_extents.specs.Free.{AreRising, EndBy, IsRunPlace, HasBlock, AnyHas, with_run};

use crate::runs::end;
use ark_base::Span;

/// The place of the first run that ends behind block `n`, or the number of runs where none does.
fn place_of(runs: &[Span], n: u32) -> usize
    ensures place { IsRunPlace runs.now n result }
{
    for i in 0..runs.len() {
        if u64::from(n) < end(runs[i]) {
            return i;
        }
    }
    runs.len()
}

/// Puts the run at place `i`, unless it is empty.
pub fn put(runs: &mut Vec<Span>, i: usize, run: Span)
    requires place { i ≤ vec_len runs.old }
    requires room { vec_len runs.old < vec_capacity runs.old }
    ensures items { runs.new.items ≡ take i runs.old.items ++ with_run run (drop i runs.old.items) }
    ensures len { vec_len runs.new ≤ vec_len runs.old + 1 }
    ensures capacity { vec_capacity runs.old ≤ vec_capacity runs.new }
{
    if run.len == 0 {
        return;
    }
    match runs.insert(i, run) {
        Ok(()) => {}
        Err(_) => unreachable!(),
    }
}

/// Takes the blocks of `piece`, all of which the runs have, out of them.
fn cut(runs: &mut Vec<Span>, piece: Span)
    requires rising { AreRising 0 runs.old.items }
    requires some { 1 ≤ piece.len }
    requires had { (n : ℕ) → HasBlock piece n → AnyHas runs.old.items n }
    requires room { length runs.old.items < vec_capacity runs.old }
    ensures rising { AreRising 0 runs.new.items }
    ensures lost { (n : ℕ) → AnyHas runs.new.items n
        ↔ (AnyHas runs.old.items n × (HasBlock piece n → ⊥)) }
    ensures len { length runs.new.items ≤ length runs.old.items + 1 }
    ensures capacity { vec_capacity runs.old ≤ vec_capacity runs.new }
{
    let i = place_of(runs, piece.start);
    let run = runs.remove(i);
    let after = piece.start + piece.len;
    let behind = Span {
        start: after,
        len: run.start + run.len - after,
    };
    let before = Span {
        start: run.start,
        len: piece.start - run.start,
    };
    put(runs, i, behind);
    put(runs, i, before);
}

/// Takes out the run at place `i` if it begins where `run` ends, and gives both as one run, else `run`.
fn with_next(runs: &mut Vec<Span>, i: usize, run: Span) -> Span
    requires place { i ≤ vec_len runs.old }
    requires some { 1 ≤ run.len }
    requires fits { run.start + run.len ≤ 2 ^ 32 - 1 }
    requires rising { AreRising (run.start + run.len) (drop i runs.old.items) }
    ensures front { take i runs.new.items ≡ take i runs.old.items }
    ensures start { result.start ≡ run.start }
    ensures some { 1 ≤ result.len }
    ensures fits { result.start + result.len ≤ 2 ^ 32 - 1 }
    ensures rising { AreRising (result.start + result.len + 1) (drop i runs.new.items) }
    ensures blocks { (n : ℕ)
        → (HasBlock result n ⊎ AnyHas (drop i runs.new.items) n)
        ↔ (HasBlock run n ⊎ AnyHas (drop i runs.old.items) n) }
    ensures place { i ≤ vec_len runs.new }
    ensures len { vec_len runs.new ≤ vec_len runs.old }
    ensures size { length runs.new.items ≤ length runs.old.items }
    ensures capacity { vec_capacity runs.new ≡ vec_capacity runs.old }
{
    if i >= runs.len() {
        return run;
    }
    let next = runs[i];
    if end(run) != u64::from(next.start) {
        return run;
    }
    runs.remove(i);
    Span {
        start: run.start,
        len: run.len + next.len,
    }
}

/// Puts the run at place `i`, in one with the run before if that ends where this begins.
fn put_behind(runs: &mut Vec<Span>, i: usize, run: Span)
    requires place { i ≤ vec_len runs.old }
    requires within { i ≤ length runs.old.items }
    requires some { 1 ≤ run.len }
    requires fits { run.start + run.len ≤ 2 ^ 32 - 1 }
    requires front { AreRising 0 (take i runs.old.items) }
    requires before { EndBy (take i runs.old.items) run.start }
    requires rising { AreRising (run.start + run.len + 1) (drop i runs.old.items) }
    requires room { vec_len runs.old < vec_capacity runs.old }
    ensures rising { AreRising 0 runs.new.items }
    ensures blocks { (n : ℕ)
        → AnyHas runs.new.items n
        ↔ (AnyHas (take i runs.old.items) n ⊎ (HasBlock run n ⊎ AnyHas (drop i runs.old.items) n)) }
    ensures len { length runs.new.items ≤ length runs.old.items + 1 }
    ensures capacity { vec_capacity runs.old ≤ vec_capacity runs.new }
{
    if i > 0 {
        let last = runs[i - 1];
        if end(last) == u64::from(run.start) {
            runs[i - 1] = Span {
                start: last.start,
                len: last.len + run.len,
            };
            return;
        }
    }
    put(runs, i, run);
}

/// Puts the blocks of `run`, none of which the runs have, into them.
fn add(runs: &mut Vec<Span>, run: Span)
    requires rising { AreRising 0 runs.old.items }
    requires some { 1 ≤ run.len }
    requires fits { run.start + run.len ≤ 2 ^ 32 - 1 }
    requires apart { (n : ℕ) → HasBlock run n → AnyHas runs.old.items n → ⊥ }
    requires room { length runs.old.items < vec_capacity runs.old }
    ensures rising { AreRising 0 runs.new.items }
    ensures gained { (n : ℕ) → AnyHas runs.new.items n ↔ (AnyHas runs.old.items n ⊎ HasBlock run n) }
    ensures len { length runs.new.items ≤ length runs.old.items + 1 }
    ensures capacity { vec_capacity runs.old ≤ vec_capacity runs.new }
{
    let i = place_of(runs, run.start);
    let whole = with_next(runs, i, run);
    put_behind(runs, i, whole);
}

/// Whether the runs have all blocks of `piece`.
fn has_piece(runs: &[Span], piece: Span) -> bool
    requires rising { AreRising 0 runs.now }
    requires some { 1 ≤ piece.len }
    ensures had { IsTrue result ↔ ((n : ℕ) → HasBlock piece n → AnyHas runs.now n) }
{
    let i = place_of(runs, piece.start);
    if i >= runs.len() {
        return false;
    }
    let run = runs[i];
    if piece.start < run.start {
        return false;
    }
    end(piece) <= end(run)
}

/// Whether the runs have all blocks of these pieces.
pub fn has_all(runs: &[Span], pieces: &[Span]) -> bool
    requires rising { AreRising 0 runs.now }
    requires spans { are_spans pieces.now ≡ true }
    ensures had { IsTrue result ↔ ((n : ℕ) → AnyHas pieces.now n → AnyHas runs.now n) }
{
    for piece in pieces {
        if !has_piece(runs, *piece) {
            return false;
        }
    }
    true
}

/// Takes the blocks of these pieces, all of which the runs have, out of them.
pub fn cut_all(runs: &mut Vec<Span>, pieces: &[Span])
    requires rising { AreRising 0 runs.old.items }
    requires spans { are_spans pieces.now ≡ true }
    requires had { (n : ℕ) → AnyHas pieces.now n → AnyHas runs.old.items n }
    requires room { length runs.old.items + length pieces.now ≤ vec_capacity runs.old }
    ensures rising { AreRising 0 runs.new.items }
    ensures lost { (n : ℕ) → AnyHas runs.new.items n
        ↔ (AnyHas runs.old.items n × (AnyHas pieces.now n → ⊥)) }
    ensures len { length runs.new.items ≤ length runs.old.items + length pieces.now }
    ensures capacity { vec_capacity runs.old ≤ vec_capacity runs.new }
{
    for piece in pieces {
        cut(runs, *piece);
    }
}

/// Puts the blocks of these pieces, none of which the runs have, into them.
pub fn add_all(runs: &mut Vec<Span>, pieces: &[Span])
    requires rising { AreRising 0 runs.old.items }
    requires spans { are_spans pieces.now ≡ true }
    requires apart { (n : ℕ) → AnyHas pieces.now n → AnyHas runs.old.items n → ⊥ }
    requires room { length runs.old.items + length pieces.now ≤ vec_capacity runs.old }
    ensures rising { AreRising 0 runs.new.items }
    ensures gained { (n : ℕ)
        → AnyHas runs.new.items n ↔ (AnyHas runs.old.items n ⊎ AnyHas pieces.now n) }
    ensures len { length runs.new.items ≤ length runs.old.items + length pieces.now }
    ensures capacity { vec_capacity runs.old ≤ vec_capacity runs.new }
{
    for piece in pieces {
        add(runs, *piece);
    }
}
