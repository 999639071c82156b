ghost use Rattle.std.specs.Prelude.{◌≡◌, ◌≤◌, ◌<◌, ◌*◌, ◌^◌, length, replicate, IfSome, IfNone};
ghost use Rattle.ark_entry.specs.Entry as spec;
ghost use Rattle.ark_log.specs.Buffers.{HasNoPlace, IsNewBuffer};

use ark_entry::{entry_blocks, write_entry};
use ark_region::{Buf, Region};

/// A new buffer of zeros for so many blocks; `None` exactly where there is no place for it.
pub(crate) fn new_buffer(region: &mut Region, blocks: u32) -> Option<Buf>
    requires some { 0 < blocks }
    requires short { 512 * blocks < 2 ^ 32 }
    ensures made { IfSome result (IsNewBuffer region.old region.new (replicate (512 * blocks) 0)) }
    ensures len { IfSome result (λ b. b.len ≡ 512 * blocks) }
    ensures none { IfNone result (HasNoPlace region.old.taken (512 * blocks)) }
    ensures same { IfNone result (region.new ≡ region.old) }
    ensures frames { length region.new.taken ≡ length region.old.taken }
{
    region.take(512 * blocks)
}

/// A new buffer that has an entry, without its marker; `None` exactly where there is no place for it.
pub(crate) fn new_entry(region: &mut Region, number: u64, next: u32, payload: &[u8]) -> Option<Buf>
    requires short { length payload.now ≤ 32768 }
    ensures made { IfSome result (IsNewBuffer region.old region.new
        (spec.entry_bytes number next payload.now)) }
    ensures len { IfSome result (λ b. b.len ≡ 512 * spec.entry_blocks (length payload.now)) }
    ensures none { IfNone result (HasNoPlace region.old.taken
        (512 * spec.entry_blocks (length payload.now))) }
    ensures same { IfNone result (region.new ≡ region.old) }
    ensures frames { length region.new.taken ≡ length region.old.taken }
{
    let Some(buf) = new_buffer(region, entry_blocks(payload.len() as u32)) else {
        return None;
    };
    let bytes = region.part_mut(&buf, 0, buf.len() as usize);
    write_entry(bytes, number, next, payload);
    Some(buf)
}
