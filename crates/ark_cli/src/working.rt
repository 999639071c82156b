ghost use Rattle.std.specs.Prelude.{◌≡◌, ◌≤◌, None, length, replicate};
ghost use Rattle.ark_media.specs.Journal.{History};
ghost use Rattle.ark_table.specs.Standing.{IsTableOf};
ghost use Rattle.ark_machine.specs.System.{fresh_system};
ghost use Rattle.ark_host.specs.Stands.{Stands};
ghost use Rattle.ark_host.specs.Inside.{IsInside};
ghost use Rattle.ark_host.specs.Time.{IsSound};
ghost use Rattle.ark_report.specs.Work.{work_blocks};
ghost use Rattle.ark_cli.specs.Ending.{Works, IsCause};

use crate::opening::make_new;
use ark_answer::ReplyBuffer;
use ark_base::Status;
use ark_host::Host;
use ark_media::Outside;
use ark_report::{count_replies, put_summary};
use ark_work::Lines;
use std::alloc::Global;

// The device of `work` has so many blocks.
const BLOCKS: u32 = 4096;

// Makes the device, runs the generated script on it, and puts the line that tells of the replies.
fn work_made<W: Outside>(
    seed: u64,
    lines: u32,
    device: &str,
    host: &mut Host,
    out: &mut ReplyBuffer,
    world: &mut W,
) -> Status
    requires few { lines ≤ 1000000 }
    requires host { (h : History) → length h.base ≡ work_blocks →
        IsTableOf h (replicate 128 None) → Stands host.old work_blocks h
        (fresh_system work_blocks) }
    requires sound { IsSound host.old }
    requires inside { IsInside work_blocks host.old }
    requires none { host.old.lines ≡ 0 }
    ensures works { Works seed lines device.now (W.told world.old) (W.told world.new)
        (W.beside world.old) (W.beside world.new) result }
    ensures cause { IsCause (W.told world.old) (W.told world.new)
        (W.beside world.old) (W.beside world.new) result }
{
    if let Err(status) = make_new(BLOCKS, device, world) {
        return status;
    }
    let mut script = Lines::new(seed, lines);
    let tally = count_replies(host, &mut script, out, world);
    match put_summary(&tally, lines, world) {
        Ok(()) => Status::Done,
        Err(_) => Status::Sink,
    }
}

/// Makes a device, and runs the script of a seed on it, with so many lines behind its prelude. One line is put, at its end, and
/// tells how the replies began. The answer is the status with which the program ends: `Done`; `Device` where the device could
/// not be made or formatted, `Memory`, or `Sink` where the line could not be put.
pub fn work_device<W: Outside>(
    alloc: Global,
    seed: u64,
    lines: u32,
    device: &str,
    world: &mut W,
) -> Status
    requires few { lines ≤ 1000000 }
    ensures works { Works seed lines device.now (W.told world.old) (W.told world.new)
        (W.beside world.old) (W.beside world.new) result }
    ensures cause { IsCause (W.told world.old) (W.told world.new)
        (W.beside world.old) (W.beside world.new) result }
{
    let Ok(mut out) = ReplyBuffer::new(alloc) else {
        return Status::Memory;
    };
    let Ok(mut host) = Host::new(alloc, BLOCKS) else {
        return Status::Memory;
    };
    work_made(seed, lines, device, &mut host, &mut out, world)
}
