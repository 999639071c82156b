ghost use Rattle.std.specs.Prelude.{◌≡◌, ◌<◌, ◌==◌, Option, length, option_map, slice_get};
ghost use Rattle.std.specs.Option.{option_copied};
ghost use Rattle.std.specs.List.{find};
ghost use Rattle.ark_vsic.specs.Places as spec;

use ark_extents::Spans;

// The place of block `k` of a descriptor in an area of `n` blocks.
fn place_of(n: u32, wrap: u32, first: u32, k: u32) -> u64
    ensures { result ≡ spec.place_of n wrap first k }
{
    let (n, wrap, first) = (u64::from(n), u64::from(wrap), u64::from(first));
    let place = first + u64::from(k);
    if first >= n || place < n || wrap == 0 {
        place
    } else if wrap >= n {
        wrap + (place - n)
    } else {
        wrap + (place - n) % (n - wrap)
    }
}

// Block `k` of a descriptor: its block of the device. `None` exactly where it is not in the area.
pub(crate) fn block_of(spans: &Spans, wrap: u32, first: u32, k: u32) -> Option<u32>
    ensures { result ≡ slice_get spans.now (spec.place_of (length spans.now) wrap first k) }
{
    let place = place_of(spans.blocks(), wrap, first, k);
    if place >= u64::from(spans.blocks()) {
        return None;
    }
    spans.translate(place as u32)
}

// The blocks of the area of a grant.
pub(crate) fn spans_of(held: &[(u64, Spans)], grant: u64) -> Option<&Spans>
    ensures { option_copied result ≡ option_map (λ a. a.1) (find (λ a. a.0 == grant) held.now) }
{
    for area in held {
        if area.0 == grant {
            return Some(&area.1);
        }
    }
    None
}
