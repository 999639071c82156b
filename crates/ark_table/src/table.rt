ghost use Rattle.std.specs.Prelude.{◌≡◌, ◌≤◌, ◌<◌, Err, All, ◌⊎◌, ◌↔◌, ℕ, Some, None, length, replicate, is_ok, IfOk, IfSome, OnOk, OnErr, MatchOption, not, is_some, count_by};
ghost use Rattle.std.specs.List.{position};
ghost use Rattle.ark_media.specs.Calls.{Went, OnTold};
ghost use Rattle.ark_table.specs.Area.{Area};
ghost use Rattle.ark_table.specs.Table.{HasTable, slots_in};
ghost use Rattle.ark_table.specs.Loading.{HasRead, IsFirstDamaged, AreRight};
ghost use Rattle.ark_table.specs.Plans.{create_calls, remove_calls};
ghost use Rattle.ark_table.specs.Standing.{slot_in, with_slot, grown_area, grow_calls};
ghost use Rattle.ark_table.specs.Stated.{stated};
ghost use Rattle.ark_table.specs.Using.{IsLeastFree, IsFull, MayJoin};

use crate::fault::LoadFault;
use crate::granting::grant;
use crate::loading::load_slots;
use crate::slot::Slot;
use ark_base::Memory;
use ark_extents::Spans;
use ark_media::{Disk, DiskFailed};
use std::alloc::Global;
use std::marker::Model;

const SLOTS: usize = 128;

/// The 128 slots of a device. Contracts see the area of each, if it is in use; slot 1 stands first.
///
/// Each call that is given a disk asks for that of the table. After a call that failed the table says what it said before, but for
/// `remove`; what the device says is decided by a stop, so none of `create`, `grow` and `remove` is made any more.
#[derive(Drop)]
pub struct GrantTable {
    slots: Vec<Option<Slot>>,
}

impl Model for GrantTable {
    ghost use Rattle.std.specs.Prelude.{◌≡◌, List, Option, length};
    ghost use Rattle.ark_table.specs.Area.{Area};
    ghost use Rattle.ark_table.specs.Stated.{areas};

    ghost Value = { List (Option Area) };

    ghost view = { λ t. areas t.slots.items };

    ghost invariant = { λ t. length t.slots.items ≡ 128 };
}

fn count_used(slots: &[Option<Slot>]) -> usize
    ensures { result ≡ count_by is_some slots.now }
{
    slots.iter().filter(|slot| slot.is_some()).count()
}

fn first_free(slots: &[Option<Slot>]) -> Option<usize>
    ensures { result ≡ position (λ o. not (is_some o)) slots.now }
{
    slots.iter().position(|slot| slot.is_none())
}

impl GrantTable {
    /// The table of a device that was just formatted: no slot is in use. `Memory` comes only for want of memory.
    pub fn empty(alloc: Global) -> Result<GrantTable, Memory>
        ensures empty { IfOk result (λ t. t ≡ replicate 128 None) }
    {
        match Vec::from_array(alloc, [None; SLOTS]) {
            Ok(slots) => Ok(GrantTable { slots }),
            Err(_) => Err(Memory),
        }
    }

    /// The table of a device, by its blocks 0 to 128. `DeviceFault` comes exactly where a read failed, `Damaged` with the first block that
    /// breaks a rule, behind which none is read, and `Memory` only for want of memory.
    pub fn load<D: Disk>(alloc: Global, disk: &mut D) -> Result<GrantTable, LoadFault>
        ensures went { HasRead D.goes result disk.old disk.new }
        ensures table { IfOk result (λ t. OnTold (D.told disk.new) (HasTable t)) }
        ensures right { IfOk result (λ t. AreRight (D.told disk.old).blocks t) }
        ensures damaged { IsFirstDamaged (D.told disk.new) result }
    {
        match load_slots(alloc, disk) {
            Ok(slots) => Ok(GrantTable { slots }),
            Err(fault) => Err(fault),
        }
    }

    /// Slot `i`; `None` where it is not in use, or `i` is not 1 to 128.
    pub fn slot(&self, i: u16) -> Option<&Slot>
        ensures slot { MatchOption result ((i ≡ 0) ⊎ (slot_in self.now i ≡ None))
            (λ s. (1 ≤ i) × (slot_in self.now i ≡ Some (stated s.now)) × (i ≤ 128)) }
    {
        let place = usize::from(i).checked_sub(1)?;
        self.slots.get(place)?.as_ref()
    }

    /// The number of slots in use.
    pub fn used(&self) -> u16
        ensures used { result ≡ length (slots_in 1 self.now) }
        ensures few { result ≤ 128 }
        ensures size { length self.now ≡ 128 }
    {
        count_used(&self.slots) as u16
    }

    /// The least free slot; `None` where all are in use.
    pub fn free_slot(&self) -> Option<u16>
        ensures least { IfSome result (λ i. IsLeastFree self.now i) }
        ensures full { result ≡ None → IsFull self.now }
    {
        let place = first_free(&self.slots)?;
        Some(place as u16 + 1)
    }

    /// Grants slot `i`, which is free: writes zeros to the blocks, syncs, writes the slot, and syncs. It fails only where one of these
    /// calls fails, and makes none after it.
    pub fn create<D: Disk>(&mut self, disk: &mut D, i: u16, slot: Slot) -> Result<(), DiskFailed>
        requires low { 1 ≤ i }
        requires high { i ≤ 128 }
        requires inside { All (λ n. n < (D.told disk.old).blocks) slot.spans }
        requires table { 129 ≤ (D.told disk.old).blocks }
        ensures went { Went D.goes (create_calls i (stated slot)) (is_ok result) disk.old disk.new }
        ensures granted { OnOk result (self.new ≡ with_slot self.old i (Some (stated slot))) }
        ensures kept { OnErr result (self.new ≡ self.old) }
    {
        grant(disk, i, &slot, &slot.spans)?;
        self.slots[usize::from(i) - 1] = Some(slot);
        Ok(())
    }

    /// Gives slot `i`, which is in use, more blocks behind its own: writes zeros to these, syncs, writes the slot, and syncs. It fails
    /// only where one of these calls fails, and makes none after it.
    pub fn grow<D: Disk>(&mut self, disk: &mut D, i: u16, more: &Spans) -> Result<(), DiskFailed>
        requires joins { MayJoin self.old i more.now }
        requires inside { All (λ n. n < (D.told disk.old).blocks) more.now }
        requires table { 129 ≤ (D.told disk.old).blocks }
        ensures went { (a : Area) → slot_in self.old i ≡ Some a →
            Went D.goes (grow_calls i a more.now) (is_ok result) disk.old disk.new }
        ensures granted { OnOk result ((a : Area) → slot_in self.old i ≡ Some a →
            self.new ≡ with_slot self.old i (Some (grown_area a more.now))) }
        ensures kept { OnErr result (self.new ≡ self.old) }
    {
        let place = usize::from(i) - 1;
        let Some(slot) = self.slots[place] else {
            unreachable!()
        };
        let Some(spans) = slot.spans.join(more) else {
            unreachable!()
        };
        let slot = Slot { spans, ..slot };
        grant(disk, i, &slot, more)?;
        self.slots[place] = Some(slot);
        Ok(())
    }

    /// Takes slot `i` out, also where it fails: writes a zero block for it, and syncs. It fails only where one of these calls fails, and
    /// makes none after it.
    pub fn remove<D: Disk>(&mut self, disk: &mut D, i: u16) -> Result<(), DiskFailed>
        requires low { 1 ≤ i }
        requires high { i ≤ 128 }
        requires inside { 129 ≤ (D.told disk.old).blocks }
        ensures went { Went D.goes (remove_calls i) (is_ok result) disk.old disk.new }
        ensures freed { self.new ≡ with_slot self.old i None }
    {
        self.slots[usize::from(i) - 1] = None;
        disk.write(u32::from(i), &[0; 512])?;
        disk.sync()
    }
}
