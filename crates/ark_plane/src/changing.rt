ghost use Rattle.std.specs.Prelude.{◌≡◌, ◌≤◌, ◌<◌, true, false, Some, None, OnOk, OnErr, All, drop, is_ok, length, take};
ghost use Rattle.std.specs.List.Sorted.{IsStrictlyIncreasing};
ghost use Rattle.ark_extents.specs.Free.{Gains};
ghost use Rattle.ark_media.specs.Calls.{Went};
ghost use Rattle.ark_table.specs.Area.{Area};
ghost use Rattle.ark_table.specs.Plans.{create_calls, remove_calls};
ghost use Rattle.ark_table.specs.Standing.{grow_calls, grown_area, slot_in, with_slot};
ghost use Rattle.ark_table.specs.Stated.{stated};
ghost use Rattle.ark_table.specs.Using.{IsLeastFree, MayJoin};
ghost use Rattle.ark_plane.specs.Shared.{HasBlocks, IsShared};

use crate::plane::Plane;
use ark_extents::Spans;
use ark_media::{Disk, DiskFailed};
use ark_table::Slot;

impl Plane {
    /// Grants slot `index`, the least that is free, with the lowest free blocks. It makes the calls of the table; where one fails,
    /// which alone is an error, the table has failed and the blocks stay taken.
    pub fn create<D: Disk>(
        &mut self,
        disk: &mut D,
        index: u16,
        slot: Slot,
    ) -> Result<(), DiskFailed>
        requires settled { self.old.failed ≡ false }
        requires least { IsLeastFree self.old.table index }
        requires lowest { slot.spans ≡ take (length slot.spans) self.old.free }
        requires inside { All (λ n. n < (D.told disk.old).blocks) self.old.free }
        requires table { 129 ≤ (D.told disk.old).blocks }
        requires shared { IsShared (D.told disk.old).blocks self.old.table self.old.free
            self.old.failed }
        ensures went { Went D.goes (create_calls index (stated slot)) (is_ok result)
            disk.old disk.new }
        ensures rest { self.new.free ≡ drop (length slot.spans) self.old.free }
        ensures granted { OnOk result (self.new.table
            ≡ with_slot self.old.table index (Some (stated slot))) }
        ensures kept { OnErr result (self.new.table ≡ self.old.table) }
        ensures settled { OnOk result (self.new.failed ≡ false) }
        ensures failed { OnErr result (self.new.failed ≡ true) }
        ensures own { self.new.own ≡ self.old.own }
        ensures shared { IsShared (D.told disk.old).blocks self.new.table self.new.free
            self.new.failed }
    {
        // that its runs are few is what their number says
        let _ = slot.spans.runs();
        self.free.take_lowest(slot.spans.blocks());
        match self.table.create(disk, index, slot) {
            Ok(()) => Ok(()),
            Err(fault) => {
                self.failed = true;
                Err(fault)
            }
        }
    }

    /// Gives slot `index` the lowest free blocks behind its own. Where a call of the table fails, which alone is an error, the
    /// table has failed and the blocks stay taken.
    pub fn grow<D: Disk>(
        &mut self,
        disk: &mut D,
        index: u16,
        more: &Spans,
    ) -> Result<(), DiskFailed>
        requires settled { self.old.failed ≡ false }
        requires joins { MayJoin self.old.table index more.now }
        requires lowest { more.now ≡ take (length more.now) self.old.free }
        requires inside { All (λ n. n < (D.told disk.old).blocks) self.old.free }
        requires table { 129 ≤ (D.told disk.old).blocks }
        requires shared { IsShared (D.told disk.old).blocks self.old.table self.old.free
            self.old.failed }
        ensures went { (a : Area) → slot_in self.old.table index ≡ Some a →
            Went D.goes (grow_calls index a more.now) (is_ok result) disk.old disk.new }
        ensures rest { self.new.free ≡ drop (length more.now) self.old.free }
        ensures granted { OnOk result ((a : Area) → slot_in self.old.table index ≡ Some a →
            self.new.table ≡ with_slot self.old.table index (Some (grown_area a more.now))) }
        ensures kept { OnErr result (self.new.table ≡ self.old.table) }
        ensures settled { OnOk result (self.new.failed ≡ false) }
        ensures failed { OnErr result (self.new.failed ≡ true) }
        ensures own { self.new.own ≡ self.old.own }
        ensures shared { IsShared (D.told disk.old).blocks self.new.table self.new.free
            self.new.failed }
    {
        self.free.take_lowest(more.blocks());
        match self.table.grow(disk, index, more) {
            Ok(()) => Ok(()),
            Err(fault) => {
                self.failed = true;
                Err(fault)
            }
        }
    }

    /// Takes slot `index` out, which is in use and has these blocks; they are free from then on. Where a call of the table fails,
    /// which alone is an error, the slot is out all the same, the table has failed, and the blocks stay taken.
    pub fn remove<D: Disk>(
        &mut self,
        disk: &mut D,
        index: u16,
        spans: &Spans,
    ) -> Result<(), DiskFailed>
        requires settled { self.old.failed ≡ false }
        requires low { 1 ≤ index }
        requires used { HasBlocks (slot_in self.old.table index) spans.now }
        requires table { 129 ≤ (D.told disk.old).blocks }
        requires shared { IsShared (D.told disk.old).blocks self.old.table self.old.free
            self.old.failed }
        ensures went { Went D.goes (remove_calls index) (is_ok result) disk.old disk.new }
        ensures freed { self.new.table ≡ with_slot self.old.table index None }
        ensures given { OnOk result (Gains self.old.free self.new.free spans.now) }
        ensures ascending { OnOk result (IsStrictlyIncreasing self.new.free) }
        ensures kept { OnErr result (self.new.free ≡ self.old.free) }
        ensures settled { OnOk result (self.new.failed ≡ false) }
        ensures failed { OnErr result (self.new.failed ≡ true) }
        ensures own { self.new.own ≡ self.old.own }
        ensures shared { IsShared (D.told disk.old).blocks self.new.table self.new.free
            self.new.failed }
    {
        match self.table.remove(disk, index) {
            Ok(()) => {
                self.free.give(spans);
                // that the free blocks rise is what their count says
                let _ = self.free.free();
                Ok(())
            }
            Err(fault) => {
                self.failed = true;
                Err(fault)
            }
        }
    }
}
