ghost use Rattle.std.specs.Prelude.{◌≡◌, ◌≤◌, ◌+◌, ◌⊎◌, length, slice_range};
ghost use Rattle.std.specs.Borrow.{sem};
ghost use Rattle.ark_region.specs.Two.{LendsTwo};

use crate::buf::Place;
use std::slice::from_raw_parts_mut;

// Two parts of a slice: `n` bytes from byte `i` on, and `m` bytes from byte `j` on.
fn two_parts(s: &mut [u8], i: usize, n: usize, j: usize, m: usize) -> (&mut [u8], &mut [u8])
    requires apart { (i + n ≤ j) ⊎ (j + m ≤ i) }
    requires first { i + n ≤ length s.old }
    requires second { j + m ≤ length s.old }
    ensures* writes_back { sem 𝓛 (LendsTwo s.entry i j result) }
    ensures value { (result.0.now ≡ slice_range s.old i (i + n))
        × (result.1.now ≡ slice_range s.old j (j + m)) }
{
    let start = s.as_mut_ptr();
    unsafe {
        (
            from_raw_parts_mut(start.add(i), n),
            from_raw_parts_mut(start.add(j), m),
        )
    }
}

/// The bytes of two different buffers at once, both to be written. `all` is what `Region::whole_mut` lends. All bytes
/// beside the two buffers stay as they are.
pub fn two_of(all: &mut [u8], a: Place, b: Place) -> (&mut [u8], &mut [u8])
    requires apart { (a.at + a.len ≤ b.at) ⊎ (b.at + b.len ≤ a.at) }
    requires first { a.at + a.len ≤ length all.old }
    requires second { b.at + b.len ≤ length all.old }
    ensures* writes_back { sem 𝓛 (LendsTwo all.entry a.at b.at result) }
    ensures first { result.0.now ≡ slice_range all.old a.at (a.at + a.len) }
    ensures first_len { length result.0.now ≡ a.len }
    ensures second { result.1.now ≡ slice_range all.old b.at (b.at + b.len) }
    ensures second_len { length result.1.now ≡ b.len }
{
    two_parts(all, a.at, a.len, b.at, b.len)
}
