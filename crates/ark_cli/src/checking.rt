ghost use Rattle.ark_cli.specs.Ending.{Checks, IsCause};

use crate::opening::status_of;
use ark_base::Status;
use ark_check::put_report;
use ark_media::Outside;
use ark_table::GrantTable;
use circular_buffer::HeapCircularBuffer;
use std::alloc::Global;

/// Attaches a device, reads its table, and puts the report of what is in it. Nothing is written. The answer is the status with
/// which the program ends: `Done`; `Device` where the device could not be attached or a read failed, `Damaged` with the first
/// block of the table that breaks a rule, `Memory`, or `Sink` where a line could not be put.
pub fn check_device<W: Outside>(alloc: Global, device: &str, world: &mut W) -> Status
    ensures checks { Checks device.now (W.told world.old) (W.told world.new)
        (W.beside world.old) (W.beside world.new) result }
    ensures cause { IsCause (W.told world.old) (W.told world.new)
        (W.beside world.old) (W.beside world.new) result }
{
    let Ok(()) = world.attach(device) else {
        return Status::Device;
    };
    let table = match GrantTable::load(alloc, world) {
        Ok(table) => table,
        Err(fault) => return status_of(fault),
    };
    let Ok(mut lengths) = HeapCircularBuffer::with_capacity(alloc, world.blocks() as usize) else {
        return Status::Memory;
    };
    match put_report(&table, &mut lengths, world) {
        Ok(()) => Status::Done,
        Err(status) => status,
    }
}
