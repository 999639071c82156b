ghost use Rattle.std.specs.Prelude.{◌≡◌, ◌≢◌, ◌<◌, ◌+◌, ◌*◌, [], ◌∷◌};
ghost use Rattle.ark_media.specs.Calls.{Went};
ghost use Rattle.ark_vic.specs.declared.descriptor.Job.TheVariants as job;
ghost use Rattle.ark_vsic.specs.Moves.{CanMove, LeavesBlock, block_call};

use ark_media::Disk;
use ark_region::Region;
use ark_vic::{Descriptor, Job};

const BLOCK: usize = 512;

// Reads block `n` into the buffer of a descriptor, where its block `k` stands.
fn read_block<D: Disk>(head: &Descriptor, k: u32, n: u32, region: &mut Region, disk: &mut D) -> bool
    requires reads { head.now.job ≡ job.Read }
    requires sound { CanMove region.old.taken k head.now }
    requires inside { n < (D.told disk.old).blocks }
    ensures went { Went D.goes (block_call head.now k n region.old ∷ []) result disk.old disk.new }
    ensures region { LeavesBlock head.now.job result head.now.buf (head.now.from + 512 * k)
        (D.told disk.new).history n region.old region.new }
{
    let Some(buf) = &head.buf else {
        unreachable!();
    };
    let at = head.from as usize + BLOCK * k as usize;
    let part = region.part_mut(buf, at, at + BLOCK);
    disk.read(n, part).is_ok()
}

// Writes block `n` from the buffer of a descriptor, where its block `k` stands.
fn write_block<D: Disk>(head: &Descriptor, k: u32, n: u32, region: &Region, disk: &mut D) -> bool
    requires writes { head.now.job ≡ job.Write }
    requires sound { CanMove region.now.taken k head.now }
    requires inside { n < (D.told disk.old).blocks }
    ensures went { Went D.goes (block_call head.now k n region.now ∷ []) result disk.old disk.new }
{
    let Some(buf) = &head.buf else {
        unreachable!();
    };
    let at = head.from as usize + BLOCK * k as usize;
    disk.write(n, region.part(buf, at, at + BLOCK)).is_ok()
}

// Tries block `k` of a descriptor, which is block `n` of the device; whether that succeeded.
pub(crate) fn try_block<D: Disk>(
    head: &Descriptor,
    k: u32,
    n: u32,
    region: &mut Region,
    disk: &mut D,
) -> bool
    requires blocks { head.now.job ≢ job.Sync }
    requires sound { CanMove region.old.taken k head.now }
    requires inside { n < (D.told disk.old).blocks }
    ensures went { Went D.goes (block_call head.now k n region.old ∷ []) result disk.old disk.new }
    ensures region { LeavesBlock head.now.job result head.now.buf (head.now.from + 512 * k)
        (D.told disk.new).history n region.old region.new }
{
    match head.job {
        Job::Read => read_block(head, k, n, region, disk),
        Job::Write => write_block(head, k, n, region, disk),
        Job::Zero => disk.write(n, &[0; BLOCK]).is_ok(),
        _ => unreachable!(),
    }
}
