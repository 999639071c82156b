ghost use Rattle.std.specs.Prelude.{◌≡◌, ◌≤◌, ◌<◌, ◌+◌, ◌*◌, ◌^◌, [], ◌∷◌, length, take, drop, is_ok, IfOk, OnOk};
ghost use Rattle.ark_media.specs.Calls.{Went, OnTold};
ghost use Rattle.ark_entry.specs.Entry as spec;
ghost use Rattle.ark_chain.specs.Survey.{reads_at};
ghost use Rattle.ark_chain.specs.Single.{HasReadEntry, HasReadOn, AddsBlock, AreRead, IsEntryOf};

use crate::next::head_len;
use crate::reading::Reading;
use ark_entry::{entry_blocks, marked};
use ark_media::{Disk, DiskFailed};

// Block `k` of these bytes.
fn block_in(bytes: &[u8], k: u32) -> &[u8; 512]
    requires { 512 * k + 512 ≤ length bytes.now }
    ensures { result.now ≡ take 512 (drop (512 * k) bytes.now) }
{
    let at = 512 * k as usize;
    let part = &bytes[at..at + 512];
    let Some(block) = part.as_array() else {
        unreachable!()
    };
    block
}

// Reads the block of the ring that is `k` behind the start to its place in these bytes.
fn read_block<D: Disk>(
    disk: &mut D,
    from: &Reading,
    k: u32,
    out: &mut [u8],
) -> Result<(), DiskFailed>
    requires inside { from.now.room + 1 ≡ (D.told disk.old).blocks }
    requires small { from.now.room + 1 < 2 ^ 32 }
    requires some { 0 < from.now.room }
    requires room { 512 * k + 512 ≤ length out.old }
    ensures went { Went D.goes (reads_at from.now.room from.now.start (k ∷ [])) (is_ok result)
        disk.old disk.new }
    ensures block { OnOk result (OnTold (D.told disk.new)
        (AddsBlock from.now.room from.now.start k out.old out.new)) }
{
    let at = 512 * k as usize;
    disk.read(from.place(k), &mut out[at..at + 512])?;
    Ok(())
}

// Reads the blocks behind the first one, up to so many in all, each to its place.
fn read_on<D: Disk>(
    disk: &mut D,
    from: &Reading,
    blocks: u32,
    out: &mut [u8],
) -> Result<(), DiskFailed>
    requires inside { from.now.room + 1 ≡ (D.told disk.old).blocks }
    requires small { from.now.room + 1 < 2 ^ 32 }
    requires fits { blocks ≤ from.now.room }
    requires some { 1 ≤ blocks }
    requires room { 512 * blocks ≤ length out.old }
    ensures went { HasReadOn D.goes from.now.room from.now.start blocks result disk.old disk.new }
    ensures bytes { OnOk result (OnTold (D.told disk.new) (λ image.
        AreRead from.now.room from.now.start 1 out.old image
        → AreRead from.now.room from.now.start blocks out.new image)) }
{
    for k in 1..blocks {
        read_block(disk, from, k, out)?;
    }
    Ok(())
}

/// Reads the entry of this number at block `p` of the ring to the front of `out`, block after block: its payload stands behind
/// the first 20 bytes. The answer is the payload's length and the block of the ring behind the entry; `None` exactly where no
/// such entry stands there.
pub fn entry_of<D: Disk>(
    disk: &mut D,
    p: u32,
    number: u64,
    out: &mut [u8],
) -> Result<Option<(u32, u32)>, DiskFailed>
    requires two { 2 ≤ (D.told disk.old).blocks }
    requires place { p + 1 < (D.told disk.old).blocks }
    requires room { 33280 ≤ length out.old }
    ensures went { HasReadEntry D.goes D.told p result disk.old disk.new }
    ensures entry { IfOk result (λ found. OnTold (D.told disk.new)
        (IsEntryOf p number found out.new)) }
{
    let from = Reading {
        start: p,
        room: disk.blocks() - 1,
    };
    read_block(disk, &from, 0, out)?;
    let Some(len) = head_len(&from, block_in(out, 0), 0, number) else {
        return Ok(None);
    };
    let blocks = entry_blocks(len);
    read_on(disk, &from, blocks, out)?;
    if marked(block_in(out, blocks - 1)) {
        Ok(Some((len, from.index(blocks))))
    } else {
        Ok(None)
    }
}
