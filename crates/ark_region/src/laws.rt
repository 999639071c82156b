// Laws of the definitions, each the contract of a function that does nothing.
ghost use Rattle.std.specs.Prelude.{◌≤◌, ◌<◌, ◌+◌, ◌*◌, ◌⊎◌};
ghost use Rattle.ark_region.specs.Frames.{Piece, Apart};

/// Buffers that share no frame share no byte: one ends before the other begins. Frames have 512 bytes.
pub fn region_laws()
    ensures no_byte_shared { (a b : Piece) → 0 < a.len → 0 < b.len → Apart a b
        → (512 * a.start + a.len ≤ 512 * b.start) ⊎ (512 * b.start + b.len ≤ 512 * a.start) }
{}
