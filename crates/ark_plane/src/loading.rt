ghost use Rattle.std.specs.Prelude.{◌≡◌, ◌≤◌, false, None, IfOk, IfErr, OnOk};
ghost use Rattle.std.specs.List.Sorted.{IsStrictlyIncreasing};
ghost use Rattle.ark_media.specs.Calls.{OnTold};
ghost use Rattle.ark_table.specs.Loading.{IsFirstDamaged};
ghost use Rattle.ark_table.specs.Standing.{slot_in};
ghost use Rattle.ark_table.specs.Table.{HasTable};
ghost use Rattle.ark_plane.specs.Loading.{FailsEntry, IsMisfit, IsUnused, ReadsTable, SpellsEntry, TakesEntry};
ghost use Rattle.ark_plane.specs.Shared.{IsShared};

use crate::plane::Plane;
use ark_extents::FreeMap;
use ark_media::Disk;
use ark_table::{GrantTable, LoadFault};
use std::alloc::Global;

// With more runs of free blocks there may be no room to take those of a slot. So many never come: 128 slots leave at most 2,049.
const MOST_RUNS: u32 = 4080;

// So many slots has a device's table.
const SLOTS: u16 = 128;

// Takes the blocks of slot `i`, if it is in use, from the free ones.
fn take_entry(free: &mut FreeMap, i: u16, table: &GrantTable) -> Result<(), LoadFault>
    requires low { 1 ≤ i }
    ensures taken { OnOk result (TakesEntry (slot_in table.now i) free.old free.new) }
    ensures spelled { OnOk result (SpellsEntry (slot_in table.now i)) }
    ensures fault { IfErr result (λ e. FailsEntry i (slot_in table.now i) free.old e) }
{
    let Some(slot) = table.slot(i) else {
        return Ok(());
    };
    // that its runs are few, and no block is in it twice, is what their numbers say
    let _ = slot.spans.runs();
    let _ = slot.spans.blocks();
    if free.runs() > MOST_RUNS {
        return Err(LoadFault::Memory);
    }
    if free.take_exact(&slot.spans) {
        Ok(())
    } else {
        Err(LoadFault::Damaged(u32::from(i)))
    }
}

// The blocks of a device that no slot of its table has.
fn unused(alloc: Global, blocks: u32, table: &GrantTable) -> Result<FreeMap, LoadFault>
    requires low { 130 ≤ blocks }
    ensures free { IfOk result (λ free. IsUnused blocks table.now free) }
    ensures rising { IfOk result (λ free. IsStrictlyIncreasing free) }
    ensures shared { IfOk result (λ free. IsShared blocks table.now free false) }
    ensures fault { IfErr result (λ e. IsMisfit blocks table.now e) }
{
    // that it has 128 slots is what the number of those in use says
    let _ = table.used();
    let Ok(mut free) = FreeMap::new(alloc, blocks) else {
        return Err(LoadFault::Memory);
    };
    for place in 0..SLOTS {
        if let Err(fault) = take_entry(&mut free, place + 1, table) {
            return Err(fault);
        }
    }
    // that they rise is what their number says
    let _ = free.free();
    Ok(free)
}

impl Plane {
    // The plane of a device of so many blocks with this table. An error other than `Memory` says that it is the table of none.
    fn with_table(alloc: Global, blocks: u32, table: GrantTable) -> Result<Plane, LoadFault>
        requires low { 130 ≤ blocks }
        ensures table { IfOk result (λ p. p.table ≡ table) }
        ensures free { IfOk result (λ p. IsUnused blocks p.table p.free) }
        ensures rising { IfOk result (λ p. IsStrictlyIncreasing p.free) }
        ensures settled { IfOk result (λ p. p.failed ≡ false) }
        ensures own { IfOk result (λ p. p.own ≡ None) }
        ensures shared { IfOk result (λ p. IsShared blocks p.table p.free p.failed) }
        ensures fault { IfErr result (λ e. IsMisfit blocks table e) }
    {
        match unused(alloc, blocks, &table) {
            Err(fault) => Err(fault),
            Ok(free) => Ok(Plane {
                free,
                table,
                failed: false,
                own: None,
            }),
        }
    }

    /// The plane of a device that was there, by its blocks 0 to 128. `DeviceFault` comes exactly where a read failed, `Damaged`
    /// with the first block that breaks a rule, and `Memory` only for want of memory.
    pub fn load<D: Disk>(alloc: Global, disk: &mut D) -> Result<Plane, LoadFault>
        ensures went { ReadsTable D.goes result disk.old disk.new }
        ensures low { OnOk result (130 ≤ (D.told disk.new).blocks) }
        ensures high { OnOk result ((D.told disk.new).blocks ≤ 1048576) }
        ensures table { IfOk result (λ p. OnTold (D.told disk.new) (HasTable p.table)) }
        ensures free { IfOk result (λ p. IsUnused (D.told disk.new).blocks p.table p.free) }
        ensures rising { IfOk result (λ p. IsStrictlyIncreasing p.free) }
        ensures settled { IfOk result (λ p. p.failed ≡ false) }
        ensures own { IfOk result (λ p. p.own ≡ None) }
        ensures shared { IfOk result (λ p.
            IsShared (D.told disk.new).blocks p.table p.free p.failed) }
        ensures damaged { IsFirstDamaged (D.told disk.new) result }
    {
        let blocks = disk.blocks();
        if blocks < 130 || blocks > 1048576 {
            return Err(LoadFault::Damaged(0));
        }
        match GrantTable::load(alloc, disk) {
            Ok(table) => Plane::with_table(alloc, blocks, table),
            Err(fault) => Err(fault),
        }
    }
}
