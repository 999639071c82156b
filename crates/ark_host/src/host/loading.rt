ghost use Rattle.std.specs.Prelude.{◌≡◌, IfOk};
ghost use Rattle.ark_table.specs.Loading.{IsFirstDamaged};
ghost use Rattle.ark_plane.specs.Loading.{ReadsTable};
ghost use Rattle.ark_host.specs.Inside.{IsInside};
ghost use Rattle.ark_host.specs.Loaded.{IsLoaded};
ghost use Rattle.ark_host.specs.Time.{IsSound};

use super::Host;
use ark_media::Disk;
use ark_plane::Plane;
use ark_table::LoadFault;
use std::alloc::Global;

// Grants of a run begin behind the indices of the slots.
const FIRST_GRANT: u64 = 129;

impl Host {
    /// The host of a device that was there, by its blocks 0 to 128: no application is made, and each will hold what is stored for
    /// it. `DeviceFault` comes exactly where a read failed, `Damaged` with the first block that breaks a rule, and `Memory` only
    /// for want of memory.
    pub fn load<D: Disk>(alloc: Global, disk: &mut D) -> Result<Host, LoadFault>
        ensures went { ReadsTable D.goes result disk.old disk.new }
        ensures loaded { IfOk result (λ host. IsLoaded (D.told disk.new) host) }
        ensures damaged { IsFirstDamaged (D.told disk.new) result }
        ensures sound { IfOk result (λ host. IsSound host) }
        ensures inside { IfOk result (λ host. IsInside (D.told disk.new).blocks host) }
        ensures none { IfOk result (λ host. host.lines ≡ 0) }
    {
        match Plane::load(alloc, disk) {
            Ok(plane) => Ok(Host {
                apps: Vec::new(alloc),
                plane,
                grants: FIRST_GRANT,
                clock: 0,
                lines: 0,
                alloc,
            }),
            Err(fault) => Err(fault),
        }
    }
}
