ghost use Rattle.std.specs.Prelude.{◌≡◌, ◌<◌, ◌+◌, ◌^◌, true, length, slice_get};
ghost use Rattle.std.specs.List.{list_all, list_any};
ghost use Rattle.ark_extents.specs.Blocks.{blocks_of};
ghost use Rattle.ark_extents.specs.Runs as spec;

use ark_base::Span;

/// The first block behind the run.
pub fn end(run: Span) -> u64
    ensures { result ≡ run.start + run.len }
{
    u64::from(run.start) + u64::from(run.len)
}

/// Whether these runs may be the spans of an area.
pub fn are_spans(runs: &[Span]) -> bool
    ensures { result ≡ spec.are_spans runs.now }
{
    is_count(runs.len()) && all_fit(runs) && share_none(runs) && are_longest(runs)
}

fn is_count(n: usize) -> bool
    ensures { result ≡ spec.is_count n }
{
    1 <= n && n <= 16
}

fn fits(run: Span) -> bool
    ensures { result ≡ spec.fits run }
{
    run.len >= 1 && end(run) <= 0xffff_ffff
}

fn all_fit(runs: &[Span]) -> bool
    ensures { result ≡ list_all spec.fits runs.now }
{
    runs.iter().all(|run| fits(*run))
}

fn are_apart(r: Span, s: Span) -> bool
    ensures { result ≡ spec.are_apart r s }
{
    end(r) <= u64::from(s.start) || end(s) <= u64::from(r.start)
}

/// Whether the run shares no block with any of the others.
pub fn is_apart_from_all(run: Span, others: &[Span]) -> bool
    ensures { result ≡ list_all (λ s. spec.are_apart run s) others.now }
{
    others.iter().all(|s| are_apart(run, *s))
}

fn share_none(runs: &[Span]) -> bool
    ensures { result ≡ spec.share_none runs.now }
{
    match runs.split_first() {
        None => true,
        Some((first, others)) => is_apart_from_all(*first, others) && share_none(others),
    }
}

fn ends_before(run: Span, others: &[Span]) -> bool
    ensures { result ≡ spec.ends_before run others.now }
{
    match others.split_first() {
        None => true,
        Some((next, _)) => end(run) != u64::from(next.start),
    }
}

fn are_longest(runs: &[Span]) -> bool
    ensures { result ≡ spec.are_longest runs.now }
{
    match runs.split_first() {
        None => true,
        Some((first, others)) => ends_before(*first, others) && are_longest(others),
    }
}

/// The block at a place of these runs.
pub fn block_at(runs: &[Span], off: u32) -> Option<u32>
    requires { list_all spec.fits runs.now ≡ true }
    ensures { result ≡ slice_get (blocks_of runs.now) off }
{
    let (run, others) = runs.split_first()?;
    if off < run.len {
        Some(run.start + off)
    } else {
        block_at(others, off - run.len)
    }
}

fn has(run: Span, n: u32) -> bool
    ensures { result ≡ spec.has run n }
{
    run.start <= n && u64::from(n) < end(run)
}

/// Whether one of the runs has the block.
pub fn hold(runs: &[Span], n: u32) -> bool
    ensures { result ≡ list_any (λ run. spec.has run n) runs.now }
{
    runs.iter().any(|run| has(*run, n))
}

/// The number of blocks of these runs.
pub fn count_of(runs: &[Span]) -> u32
    requires { length (blocks_of runs.now) < 2 ^ 32 }
    ensures { result ≡ length (blocks_of runs.now) }
{
    let mut count = 0;
    for run in runs {
        count += run.len;
    }
    count
}
