use crate::example::Example;
use anyhow::anyhow;
use ark_cli::arrakis;
use ark_memory::MemoryWorld;
use std::alloc::Global;

/// The most device calls that an example may make.
const CALLS: u32 = 1_000;

/// The most bytes that it may put out.
const TEXT: u32 = 10_000;

/// The words of a run on a new device of 200 blocks, and what comes before all replies.
const NEW: (&str, &[u8]) = ("run --new 200 device", b"ready 200 0\n");

/// The same on the device that an example with two areas left.
const AGAIN: (&str, &[u8]) = ("run device", b"ready 200 2\n");

/// What came of an example.
#[derive(Drop)]
struct Played {
    is_as_written: bool,
    world: MemoryWorld,
}

// Plays an example on a device that is there, if any: by these words, with this line before all replies.
fn play(
    alloc: Global,
    device: &[u8],
    (words, ready): (&str, &[u8]),
    example: &Example,
) -> anyhow::Result<Played> {
    let mut list = Vec::new(alloc);
    for word in words.split(' ') {
        list.push(String::from_str(alloc, word)?)?;
    }
    let script = example.script.as_bytes();
    let made = MemoryWorld::new(alloc, device, 200, script, &[], CALLS, TEXT);
    let mut world = made.map_err(|_| anyhow!("no memory for a device"))?;
    arrakis(alloc, &list, &mut world);
    let replies = world.out().strip_prefix(ready);
    let is_as_written = replies == Some(example.replies.as_bytes());
    Ok(Played {
        is_as_written,
        world,
    })
}

/// Plays an example on a new device: whether each line has the reply that stands beside it.
pub fn is_as_written(alloc: Global, example: &Example) -> anyhow::Result<bool> {
    let played = play(alloc, b"", NEW, example)?;
    Ok(played.is_as_written)
}

/// The same of an example on the device that another one left, which has two areas.
pub fn is_as_written_after(
    alloc: Global,
    first: &Example,
    example: &Example,
) -> anyhow::Result<bool> {
    let before = play(alloc, b"", NEW, first)?;
    let played = play(alloc, before.world.image(), AGAIN, example)?;
    Ok(played.is_as_written)
}
