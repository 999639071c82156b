// The law of places in an application's memory.
ghost use Rattle.std.specs.Prelude.{◌≡◌, ◌↔◌, ◌≤◌, ℕ, List, Some, None};
ghost use Rattle.ark_region.specs.Frames.{IsFreeRun, IsLeastPlace};
ghost use Rattle.ark_machine.specs.Bytes.{Frames, place};
ghost use Rattle.ark_machine.specs.Places.{IsLiveFrame, AreSized};

/// A new buffer of a frame or more gets the least start from which its frames lie inside the memory and meet none of a live
/// buffer, and it gets none exactly where there is no such start.
pub fn place_laws()
    ensures least { (live : List Frames) (k frames s : ℕ) →
        1 ≤ k → AreSized live →
        (place live k frames ≡ Some s) ↔ IsLeastPlace (IsLiveFrame live) frames k s }
    ensures none { (live : List Frames) (k frames : ℕ) →
        1 ≤ k → AreSized live →
        (place live k frames ≡ None) ↔ ((s : ℕ) → IsFreeRun (IsLiveFrame live) frames k s → ⊥) }
{}
