ghost use Rattle.std.specs.Prelude.{◌≡◌, ◌≤◌, ◌<◌, ℕ, not, length, ◌↔◌, IsTrue, IfSome, IfNone};
ghost use Rattle.std.specs.List.{list_all};
ghost use Rattle.ark_region.specs.Frames.{IsTaken, IsFreeRun, IsLeastPlace};

fn are_free(taken: &[bool]) -> bool
    ensures { result ≡ list_all not taken.now }
{
    taken.iter().all(|t| !*t)
}

// Whether the `count` frames from `start` on are in the region and free.
fn is_free(taken: &[bool], start: usize, count: usize) -> bool
    requires { start < length taken.now }
    ensures { IsTrue result ↔ IsFreeRun (IsTaken taken.now) (length taken.now) count start }
{
    count <= taken.len() - start && are_free(&taken[start..start + count])
}

// The least place of `count` neighbouring free frames.
pub(crate) fn place(taken: &[bool], count: usize) -> Option<usize>
    requires { 0 < count }
    ensures some { IfSome result (λ s. IsLeastPlace (IsTaken taken.now)
        (length taken.now) count s) }
    ensures none { IfNone result ((s : ℕ) → ¬ IsFreeRun (IsTaken taken.now) (length taken.now) count s) }
{
    for start in 0..taken.len() {
        if is_free(taken, start, count) {
            return Some(start);
        }
    }
    None
}
