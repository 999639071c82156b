ghost use Rattle.std.specs.Prelude.{◌≡◌, ◌≤◌, ◌<◌, ◌∷◌, [], Some, true, false, is_ok, length, Err, IfOk, OnOk, ℕ, Option, ◌++◌};
ghost use Rattle.ark_media.specs.Journal.{block};
ghost use Rattle.ark_media.specs.Calls.{Went, Reads, OnTold};
ghost use Rattle.ark_table.specs.Slots.{is_device};
ghost use Rattle.ark_table.specs.Table.{HasTable};
ghost use Rattle.ark_table.specs.Stated.{areas};
ghost use Rattle.ark_table.specs.Loading.{HasRead, IsFirstDamaged, IsNext, IsMore, IsDamagedAt, AreRight, SaysRight, is_read};

use crate::fault::LoadFault;
use crate::going::goes_into;
use crate::reading::{Content, read_slot};
use crate::slot::Slot;
use crate::superblock::superblock_of;
use ark_media::{Disk, DiskFailed};
use std::alloc::Global;

// What a block says as that of the slot behind these.
fn next_of(slots: &[Option<Slot>], block: &[u8; 512], size: u32) -> Content
    ensures { IsNext size (areas slots.now) block.now result }
{
    match read_slot(block, size) {
        Content::Used(slot) => {
            if goes_into(&slot, slots) {
                Content::Used(slot)
            } else {
                Content::Broken
            }
        }
        other => other,
    }
}

// Reads the block of slot `i`, which is behind these.
fn read_next<D: Disk>(slots: &[Option<Slot>], disk: &mut D, i: u32) -> Result<Content, DiskFailed>
    requires inside { i < (D.told disk.old).blocks }
    ensures went { Went D.goes (Reads i ∷ []) (is_ok result) disk.old disk.new }
    ensures next { IfOk result (λ content. OnTold (D.told disk.new)
        (λ image. IsNext (D.told disk.old).blocks (areas slots.now) (block image i) content)) }
    ensures right { IfOk result (λ content. SaysRight (D.told disk.old).blocks content) }
{
    let mut block = [0; 512];
    let size = disk.blocks();
    disk.read(i, &mut block)?;
    Ok(next_of(slots, &block, size))
}

// Reads block 0, and tells whether it is the superblock of this device.
fn read_superblock<D: Disk>(disk: &mut D) -> Result<bool, DiskFailed>
    requires low { 130 ≤ (D.told disk.old).blocks }
    requires high { (D.told disk.old).blocks ≤ 1048576 }
    ensures went { Went D.goes (Reads 0 ∷ []) (is_ok result) disk.old disk.new }
    ensures device { IfOk result
        (λ right. OnTold (D.told disk.new) (λ image. right ≡ is_device image)) }
{
    let mut block = [0; 512];
    let size = disk.blocks();
    disk.read(0, &mut block)?;
    Ok(block == superblock_of(size))
}

// Reads the block of slot `i`, which is behind these, and puts what it says behind them.
fn load_next<D: Disk>(slots: &mut Vec<Option<Slot>>, disk: &mut D, i: u32) -> Result<(), LoadFault>
    requires inside { i < (D.told disk.old).blocks }
    ensures went { Went D.goes (Reads i ∷ []) (is_read result) disk.old disk.new }
    ensures more { OnOk result
        (IsMore (D.told disk.new) (D.told disk.old).blocks i slots.old.items slots.new.items) }
    ensures damaged { IsDamagedAt (D.told disk.new) (D.told disk.old).blocks i slots.old.items
        result }
{
    let slot = match read_next(slots, disk, i) {
        Err(DiskFailed) => return Err(LoadFault::DeviceFault),
        Ok(Content::Broken) => return Err(LoadFault::Damaged(i)),
        Ok(Content::Free) => None,
        Ok(Content::Used(slot)) => Some(slot),
    };
    slots.push(slot).map_err(|_| LoadFault::Memory)
}

/// Reads the slots of a device, up to the first block that breaks a rule.
pub fn load_slots<D: Disk>(alloc: Global, disk: &mut D) -> Result<Vec<Option<Slot>>, LoadFault>
    ensures went { HasRead D.goes result disk.old disk.new }
    ensures size { IfOk result (λ slots. length slots.items ≡ 128) }
    ensures table { IfOk result (λ slots. OnTold (D.told disk.new) (HasTable (areas slots.items))) }
    ensures right { IfOk result
        (λ slots. AreRight (D.told disk.old).blocks (areas slots.items)) }
    ensures damaged { IsFirstDamaged (D.told disk.new) result }
{
    let size = disk.blocks();
    if size < 130 || size > 1048576 {
        return Err(LoadFault::Damaged(0));
    }
    match read_superblock(disk) {
        Err(DiskFailed) => return Err(LoadFault::DeviceFault),
        Ok(false) => return Err(LoadFault::Damaged(0)),
        Ok(true) => {}
    }
    let Ok(mut slots) = Vec::with_capacity(alloc, 128) else {
        return Err(LoadFault::Memory);
    };
    for i in 1..129 {
        if let Err(fault) = load_next(&mut slots, disk, i) {
            return Err(fault);
        }
    }
    Ok(slots)
}
