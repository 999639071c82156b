ghost use Rattle.std.specs.Prelude.{◌≡◌, ◌≤◌, ◌<◌, ◌+◌, ◌++◌, ◌∷◌, [], None, length};
ghost use Rattle.ark_region.specs.Frames.{LiesInRegion, Wrote, bytes_of};
ghost use Rattle.ark_vic.specs.Queue.{members};
ghost use Rattle.ark_entry.specs.Header as head;
ghost use Rattle.ark_entry.specs.Stated.{stated};
ghost use Rattle.ark_entry.specs.Entry as spec;
ghost use Rattle.ark_chain.specs.Survey.{block_at};
ghost use Rattle.ark_log.specs.Stages.{described, entry_with, first_with, header_with, oldest, oldest_in};

use crate::chain::Chain;
use crate::command::Waiting;
use ark_entry::{ChainHead, mark, write_header};
use ark_region::{Buf, Region};
use ark_vic::{Descriptor, Job, Ring};
use circular_buffer::HeapCircularBuffer;

// Posts a descriptor on the area of a grant, whose block 1 follows its last.
pub(crate) fn post(
    ring: &mut Ring,
    grant: u64,
    job: Job,
    first: u32,
    count: u32,
    from: u32,
    buf: Option<Buf>,
)
    requires { members ring.old < ring.old.size }
    ensures { ring.new ≡ record ring.old {
      posted = ring.old.posted ++ described grant job first count from buf ∷ [];
    } }
{
    let Ok(()) = ring.post(Descriptor {
        job,
        grant,
        first,
        count,
        wrap: 1,
        from,
        len: 0,
        tag: 0,
        buf,
    }) else {
        unreachable!();
    };
}

// Writes the marker at the end of the entry in a buffer.
pub(crate) fn mark_buffer(buf: &Buf, region: &mut Region)
    requires lies { LiesInRegion region.old.taken buf.now }
    requires some { 8 ≤ buf.now.len }
    ensures { Wrote region.old region.new buf.now 0 (spec.marked (bytes_of region.old buf.now)) }
{
    let bytes = region.part_mut(buf, 0, buf.len() as usize);
    mark(bytes);
}

// Writes a header into its buffer.
pub(crate) fn write_head(buf: &Buf, region: &mut Region, to: &ChainHead)
    requires lies { LiesInRegion region.old.taken buf.now }
    requires whole { buf.now.len ≡ 512 }
    ensures { Wrote region.old region.new buf.now 0 (head.bytes_of to.now.kind (stated to.now)) }
{
    let bytes = region.part_mut(buf, 0, buf.len() as usize);
    write_header(bytes, to);
}

// Gives the oldest command another buffer, or none, and takes the one that it had.
pub(crate) fn replace_first(
    waiting: &mut HeapCircularBuffer<Waiting>,
    buf: Option<Buf>,
) -> Option<Buf>
    requires some { 0 < length waiting.old.items }
    requires fits { length waiting.old.items ≤ waiting.old.capacity }
    ensures waiting { waiting.new ≡ record waiting.old {
      items = first_with buf waiting.old.items;
    } }
    ensures buf { result ≡ (oldest_in waiting.old.items).buf }
{
    let Some(first) = waiting.pop_front() else {
        unreachable!();
    };
    let was = first.buf;
    waiting.push_front(Waiting {
        command: first.command,
        len: first.len,
        start: first.start,
        buf,
    });
    was
}
