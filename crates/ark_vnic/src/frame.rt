ghost use Rattle.std.specs.Prelude.{◌≡◌, ◌≤◌, length};
ghost use Rattle.ark_region.specs.Frames.{Wrote, LiesInRegion};
ghost use Rattle.ark_vnic.specs.Arrivals as arrivals;
ghost use Rattle.ark_vnic.specs.Sending as spec;
ghost use Rattle.ark_vnic.specs.Sending.{HasFrame};

use ark_filters::Rules;
use ark_packet::{Own, read_frame};
use ark_region::{Buf, Region};
use ark_vic::Descriptor;

// The length of a descriptor's buffer.
pub(crate) fn room_of(descriptor: &Descriptor) -> u32
    ensures { result ≡ arrivals.room_of descriptor.now }
{
    match &descriptor.buf {
        Some(buf) => buf.len(),
        None => 0,
    }
}

// Writes a frame at the front of a buffer.
pub(crate) fn put_frame(buf: &Buf, frame: &[u8], region: &mut Region)
    requires lies { LiesInRegion region.old.taken buf.now }
    requires fits { length frame.now ≤ buf.now.len }
    ensures { Wrote region.old region.new buf.now 0 frame.now }
{
    region.part_mut(buf, 0, frame.len()).copy_from_slice(frame);
}

// The frame that a descriptor posts.
pub(crate) fn frame_in<'a>(descriptor: &Descriptor, region: &'a Region) -> &'a [u8]
    requires { HasFrame region.now.taken descriptor.now }
    ensures value { result.now ≡ spec.frame_in descriptor.now region.now }
    ensures len { length result.now ≡ descriptor.now.len }
{
    let Some(buf) = &descriptor.buf else {
        unreachable!();
    };
    region.part(buf, 0, descriptor.len as usize)
}

// Whether a transmit filter of the card of this grant lets a frame out.
pub(crate) fn is_let_out(grant: u64, rules: &Rules, own: &Own, frame: &[u8]) -> bool
    requires at_least { 14 ≤ length frame.now }
    requires at_most { length frame.now ≤ 1514 }
    ensures { result ≡ spec.is_let_out grant rules.now own.now frame.now }
{
    let frame = read_frame(frame);
    rules.allows(grant, &frame, own)
}
