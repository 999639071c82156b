ghost use Rattle.std.specs.Prelude.{◌≡◌, ◌≤◌, ◌<◌, ◌+◌, ◌-◌, ◌^◌, [], ◌∷◌, ◌++◌, length, take, drop, is_ok, OnOk};
ghost use Rattle.ark_media.specs.Calls.{Went, OnTold};
ghost use Rattle.ark_entry.specs.Entry as spec;
ghost use Rattle.ark_chain.specs.Survey.{reads_at};
ghost use Rattle.ark_chain.specs.Single.{AddsPart, HasReadBlocks, IsPayload, head_in, payload_in};

use crate::reading::Reading;
use ark_entry::entry_blocks;
use ark_media::{Disk, DiskFailed};

// How many bytes of a payload of this length the first blocks of its entry have.
fn payload_in(len: u32, blocks: u32) -> usize
    requires few { blocks ≤ 65 }
    ensures { result ≡ payload_in len blocks }
{
    len.min((512 * blocks).saturating_sub(20)) as usize
}

// Puts the part of the entry's block `k` that is its payload's to its place.
fn put_part(block: &[u8; 512], k: u32, len: u32, out: &mut [u8])
    requires few { k < 65 }
    requires room { len ≤ length out.old }
    ensures put { take (payload_in len (k + 1)) out.new ≡ take (payload_in len k) out.old
        ++ take (payload_in len (k + 1) - payload_in len k) (drop (head_in k) block.now) }
{
    let begin = if k == 0 { 20 } else { 0 };
    let at = payload_in(len, k);
    let end = payload_in(len, k + 1);
    out[at..end].copy_from_slice(&block[begin..begin + end - at]);
}

// Reads the block of the ring that is `k` behind the start, and puts what is the payload's to its place.
fn read_part<D: Disk>(
    disk: &mut D,
    from: &Reading,
    k: u32,
    len: u32,
    out: &mut [u8],
) -> Result<(), DiskFailed>
    requires inside { from.now.room + 1 ≡ (D.told disk.old).blocks }
    requires small { from.now.room + 1 < 2 ^ 32 }
    requires some { 0 < from.now.room }
    requires few { k < 65 }
    requires room { len ≤ length out.old }
    ensures went { Went D.goes (reads_at from.now.room from.now.start (k ∷ [])) (is_ok result)
        disk.old disk.new }
    ensures part { OnOk result (OnTold (D.told disk.new)
        (AddsPart from.now.room from.now.start len k out.old out.new)) }
{
    let mut block = [0; 512];
    disk.read(from.place(k), &mut block)?;
    put_part(&block, k, len, out);
    Ok(())
}

/// Reads the blocks of an entry of so long a payload, from the start on and each once, and puts the payload to the front of
/// `out`. Where a read fails, `out` may hold any bytes.
pub fn read_payload<D: Disk>(
    disk: &mut D,
    from: &Reading,
    len: u32,
    out: &mut [u8],
) -> Result<(), DiskFailed>
    requires inside { from.now.room + 1 ≡ (D.told disk.old).blocks }
    requires small { from.now.room + 1 < 2 ^ 32 }
    requires some { 0 < from.now.room }
    requires short { len ≤ 32768 }
    requires room { len ≤ length out.old }
    ensures went { HasReadBlocks D.goes from.now.room from.now.start (spec.entry_blocks len) result
        disk.old disk.new }
    ensures payload { OnOk result (OnTold (D.told disk.new)
        (IsPayload from.now.room from.now.start len out.new)) }
{
    read_part(disk, from, 0, len, out)?;
    for k in 1..entry_blocks(len) {
        read_part(disk, from, k, len, out)?;
    }
    Ok(())
}
