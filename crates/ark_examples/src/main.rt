//! Runs the examples over a device in memory, and tells of each whether its lines have the replies that stand beside them.
#![tactic(auto)]

mod example;
mod play;

use example::Example;
use std::fs;

/// The files of the folder `data` that are played on a new device.
const NAMES: [&str; 5] = [
    "afresh.txt",
    "blocks.txt",
    "buffers.txt",
    "cards.txt",
    "refused.txt",
];

/// The one that is played on the device that another one left.
const AGAIN: (&str, &str) = ("blocks.txt", "again.txt");

fn tell(rt: HostRuntime, name: &str, lines: u64, is_as_written: bool) -> anyhow::Result<()> {
    let how = if is_as_written {
        "as written"
    } else {
        "other replies"
    };
    println!(rt; "{name}: {lines} lines, {how}")?;
    Ok(())
}

fn main(rt: HostRuntime) -> anyhow::Result<()> {
    let alloc = rt.alloc();
    for name in NAMES {
        let text = fs::read_to_string(&rt, name)?;
        let example = Example::read(alloc, &text)?;
        tell(
            rt,
            name,
            example.lines,
            play::is_as_written(alloc, &example)?,
        )?;
    }
    let (before, name) = AGAIN;
    let text = fs::read_to_string(&rt, before)?;
    let first = Example::read(alloc, &text)?;
    let text = fs::read_to_string(&rt, name)?;
    let example = Example::read(alloc, &text)?;
    let is_as_written = play::is_as_written_after(alloc, &first, &example)?;
    tell(rt, name, example.lines, is_as_written)
}
