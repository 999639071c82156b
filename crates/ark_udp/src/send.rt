ghost use Rattle.std.specs.Prelude.{◌≡◌, ◌≤◌, ◌<◌, ◌+◌, ◌++◌, ◌∷◌, [], length, All, IfSome};
ghost use Rattle.ark_region.specs.Frames.{LiesInRegion, Wrote};
ghost use Rattle.ark_vic.specs.Queue.{members};
ghost use Rattle.ark_udp.specs.Sent as spec;
ghost use Rattle.ark_udp.specs.Sent.{LiesIn};

use crate::peer::Peer;
use ark_packet::{Own, write_udp};
use ark_region::{Buf, Region};
use ark_vic::{Descriptor, Job, Ring};

// Gives a buffer back, if there is one.
fn give_back(buf: Option<Buf>, region: &mut Region)
    requires { IfSome buf (LiesInRegion region.old.taken) }
    ensures space { region.new ≡ record region.old { taken = spec.given_back region.old.taken buf } }
    ensures frames { length region.new.taken ≡ length region.old.taken }
{
    if let Some(buf) = buf {
        region.give(buf);
    }
}

// Reaps a ring to its end, and gives the buffers back.
pub(crate) fn reap(ring: &mut Ring, region: &mut Region)
    requires { All (LiesIn region.old.taken) ring.old.unreaped }
    ensures ring { ring.new ≡ spec.reaped ring.old }
    ensures space { region.new ≡ spec.space_reaped ring.old region.old }
    ensures frames { length region.new.taken ≡ length region.old.taken }
{
    while let Some(done) = ring.reap() {
        give_back(done.buf, region);
    }
}

// Writes the frame of a datagram into a buffer of its length.
pub(crate) fn write_frame(
    buf: &Buf,
    region: &mut Region,
    own: &Own,
    from_port: u16,
    to: Peer,
    payload: &[u8],
) -> usize
    requires lies { LiesInRegion region.old.taken buf.now }
    requires short { length payload.now ≤ 1472 }
    requires whole { buf.now.len ≡ 42 + length payload.now }
    ensures len { result ≡ buf.now.len }
    ensures frame { length (spec.frame_from own.now from_port to payload.now) ≡ buf.now.len }
    ensures wrote { Wrote region.old region.new buf.now 0
        (spec.frame_from own.now from_port to payload.now) }
{
    let room = region.part_mut(buf, 0, buf.len() as usize);
    write_udp(room, own, from_port, to.ip, to.port, payload)
}

// Posts a buffer that is full with a frame to be sent.
pub(crate) fn post(ring: &mut Ring, buf: Buf)
    requires { members ring.old < ring.old.size }
    ensures { ring.new ≡ record ring.old { posted = ring.old.posted ++ spec.sending buf ∷ [] } }
{
    let sending = Descriptor {
        job: Job::Send,
        grant: 0,
        first: 0,
        count: 0,
        wrap: 0,
        from: 0,
        len: buf.len(),
        tag: 0,
        buf: Some(buf),
    };
    let Ok(()) = ring.post(sending) else {
        unreachable!();
    };
}
