ghost use Rattle.std.specs.Prelude.{◌≡◌, ◌≤◌, ◌+◌, ◌∷◌, ◌++◌, [], length};
ghost use Rattle.ark_table.specs.Loading.{AreRight};
ghost use Rattle.ark_table.specs.Standing.{slot_in};
ghost use Rattle.ark_check.specs.Report.{device_line};
ghost use Rattle.ark_check.specs.Putting.{PutsText, report_text, slot_text};

use crate::contents::read_contents;
use crate::line::{LINE_ROOM, print_device, print_slot};
use ark_base::Status;
use ark_media::{DiskFailed, Outside};
use ark_table::GrantTable;
use circular_buffer::HeapCircularBuffer;

fn put_line<W: Outside>(line: &[u8], world: &mut W) -> Result<(), Status>
    ensures puts { PutsText (W.told world.old) (W.told world.new) (W.beside world.old)
        (W.beside world.new) (λ _. line.now) result }
{
    match world.put(line) {
        Ok(()) => Ok(()),
        Err(_) => Err(Status::Sink),
    }
}

// Puts the line of a device's size and of the number of its slots in use.
fn put_device<W: Outside>(used: u16, world: &mut W) -> Result<(), Status>
    ensures puts { PutsText (W.told world.old) (W.told world.new) (W.beside world.old)
        (W.beside world.new) (λ image. device_line (length image) used ++ 10 ∷ []) result }
{
    let mut line = [0; LINE_ROOM];
    let end = print_device(&mut line, world.blocks(), used);
    put_line(&line[..end], world)
}

// Puts the line of slot `i`, if it is in use.
fn put_slot<W: Outside>(
    table: &GrantTable,
    i: u16,
    lengths: &mut HeapCircularBuffer<u32>,
    world: &mut W,
) -> Result<(), Status>
    requires low { 1 ≤ i }
    requires right { AreRight (W.told world.old).blocks table.now }
    requires room { (W.told world.old).blocks ≤ lengths.old.capacity + 1 }
    ensures puts { PutsText (W.told world.old) (W.told world.new) (W.beside world.old)
        (W.beside world.new) (slot_text i (slot_in table.now i)) result }
    ensures kept { lengths.new.capacity ≡ lengths.old.capacity }
{
    let Some(slot) = table.slot(i) else {
        return Ok(());
    };
    let contents = match read_contents(world, slot, lengths) {
        Ok(contents) => contents,
        Err(DiskFailed) => return Err(Status::Device),
    };
    let mut line = [0; LINE_ROOM];
    let end = print_slot(&mut line, i, slot, contents);
    put_line(&line[..end], world)
}

/// Puts the report of a device with this table: a line of its size, and one for each slot in use, in rising order. The device
/// is read, and nothing else is done to it. `lengths` has room for as many entries as the device has blocks. The error is the
/// status with which the command ends: `Device` where a read failed, `Sink` where a line could not be put.
pub fn put_report<W: Outside>(
    table: &GrantTable,
    lengths: &mut HeapCircularBuffer<u32>,
    world: &mut W,
) -> Result<(), Status>
    requires right { AreRight (W.told world.old).blocks table.now }
    requires room { (W.told world.old).blocks ≤ lengths.old.capacity + 1 }
    ensures puts { PutsText (W.told world.old) (W.told world.new) (W.beside world.old)
        (W.beside world.new) (report_text table.now) result }
{
    if let Err(status) = put_device(table.used(), world) {
        return Err(status);
    }
    for i in 1..129 {
        if let Err(status) = put_slot(table, i, lengths, world) {
            return Err(status);
        }
    }
    Ok(())
}
