ghost use Rattle.std.specs.Prelude.{◌≡◌, ◌≤◌, true, false, Some, None, IfOk, IfErr, OnOk, OnErr, is_some, length, replicate};
ghost use Rattle.ark_base.specs.declared.refusal.Refusal.TheVariants as refusal;
ghost use Rattle.ark_extents.specs.Free.{free_at_first};
ghost use Rattle.ark_table.specs.Table.{slots_in};
ghost use Rattle.ark_plane.specs.Shared.{IsShared};

use ark_base::{Memory, Refusal};
use ark_extents::FreeMap;
use ark_packet::Own;
use ark_table::GrantTable;
use std::alloc::Global;

/// The control plane of a device, as far as no application alone knows of it.
#[derive(Drop)]
pub struct Plane {
    /// The blocks that no slot has. Once a change of the table has failed it has fewer, and none is granted any more.
    pub free: FreeMap,
    /// The slots of the device's table.
    pub table: GrantTable,
    /// Whether a change of the table has failed.
    pub failed: bool,
    /// The addresses of this end, once they are given.
    pub own: Option<Own>,
}

impl Plane {
    /// The plane of a device of so many blocks that was just formatted: nothing is granted. `Memory` comes only for want of
    /// memory; no other call but `load` takes any.
    pub fn new(alloc: Global, blocks: u32) -> Result<Plane, Memory>
        requires low { 130 ≤ blocks }
        ensures free { IfOk result (λ p. p.free ≡ free_at_first blocks) }
        ensures table { IfOk result (λ p. p.table ≡ replicate 128 None) }
        ensures settled { IfOk result (λ p. p.failed ≡ false) }
        ensures own { IfOk result (λ p. p.own ≡ None) }
        ensures shared { IfOk result (λ p. IsShared blocks p.table p.free p.failed) }
    {
        let Ok(free) = FreeMap::new(alloc, blocks) else {
            return Err(Memory);
        };
        Ok(Plane {
            free,
            table: GrantTable::empty(alloc)?,
            failed: false,
            own: None,
        })
    }

    /// How many slots of the device's table are in use.
    pub fn slots(&self) -> u16
        ensures { result ≡ length (slots_in 1 self.now.table) }
    {
        self.table.used()
    }

    /// Gives this end its addresses. `NameTaken` comes exactly where it has some, and they stay.
    pub fn set_nic(&mut self, own: Own) -> Result<(), Refusal>
        ensures given { OnOk result (self.new ≡ record self.old { own = Some own }) }
        ensures first { OnOk result (is_some self.old.own ≡ false) }
        ensures kept { OnErr result (self.new ≡ self.old) }
        ensures taken { OnErr result (is_some self.old.own ≡ true) }
        ensures named { IfErr result (λ e. e ≡ refusal.NameTaken) }
    {
        if self.own.is_some() {
            return Err(Refusal::NameTaken);
        }
        self.own = Some(own);
        Ok(())
    }
}
