ghost use Rattle.std.specs.Prelude.{◌≡◌, ◌≤◌, ◌<◌, ◌+◌, ◌^◌, [], Ok, IfOk, IfErr};
ghost use Rattle.ark_media.specs.Calls.{GoesBy};
ghost use Rattle.ark_script.specs.Line as w;
ghost use Rattle.ark_script.specs.Text.{IsNamed, IsSaid};
ghost use Rattle.ark_host.specs.Inside.{IsInside};
ghost use Rattle.ark_host.specs.Time.{Counts};

use super::Host;
use super::apps::place_of;
use ark_base::{AppName, Label, Refusal};
use ark_media::Disk;
use ark_own::{drop_device, drop_net};
use ark_script::Said;

// What is held under a label, by the place of its application: an area with its grant and its slot, a network card, or what else that
// application alone knows of.
enum HeldAs {
    Area(usize, u64, u16),
    Net(usize),
    Device(usize),
}

impl Host {
    ghost use Rattle.ark_host.specs.Stands.{Steps, IsHeldAs, IsHeldBack, IsEarly, IsItsOwn, MayGo};

    // What is to be given up under a label, or why nothing is.
    fn find_held(&self, name: &AppName, label: &Label) -> Result<HeldAs, Refusal>
        ensures refused { IfErr result (λ e. IsHeldBack self.now name.now label.now e) }
        ensures named { IfErr result (λ e. IsNamed e) }
        ensures early { IfErr result (λ e. IsEarly e) }
        ensures found { IfOk result (λ x. IsHeldAs self.now name.now label.now x) }
    {
        let Some(place) = place_of(&self.apps, name) else {
            return Err(Refusal::NoApplication);
        };
        let app = &self.apps[place];
        if app.has_net(label) {
            return Ok(HeldAs::Net(place));
        }
        if !app.shares(label) {
            return Ok(HeldAs::Device(place));
        }
        let (grant, slot) = match app.area_slot(label) {
            Ok(area) => area,
            Err(refusal) => return Err(refusal),
        };
        if self.plane.failed {
            return Err(Refusal::TableFailed);
        }
        if app.open_on(grant).is_some() {
            return Err(Refusal::Busy);
        }
        Ok(HeldAs::Area(place, grant, slot))
    }

    // An area is given up, with its slot. The label goes in any case; where the table can't be written it has failed, and the
    // area's blocks stay taken.
    fn drop_area<D: Disk>(
        &mut self,
        name: &AppName,
        label: &Label,
        place: usize,
        grant: u64,
        index: u16,
        disk: &mut D,
    ) -> Said
        requires found { MayGo self.old name.now label.now place grant index }
        requires inside { IsInside (D.told disk.old).blocks self.old }
        ensures answers { GoesBy D.goes disk.old disk.new
            (λ es. Steps self.old self.new (D.told disk.new)
            (Ok (w.drop name.now label.now)) es result []) }
        ensures said { IsSaid result }
        ensures counts { Counts self.old self.new 0 0 }
        ensures inside { IsInside (D.told disk.old).blocks self.new }
    {
        // An area has its slot.
        let Some(slot) = self.plane.table.slot(index) else {
            return Said::Refused(Refusal::WrongKind);
        };
        let spans = slot.spans;
        self.apps[place].remove_area(label, grant);
        match self.plane.remove(disk, index, &spans) {
            Ok(()) => Said::Ok,
            Err(_) => Said::Refused(Refusal::DeviceFault),
        }
    }

    // The word `drop`.
    pub(super) fn drop_object<D: Disk>(
        &mut self,
        name: &AppName,
        label: &Label,
        disk: &mut D,
    ) -> Said
        requires few { self.old.grants < 2 ^ 32 }
        requires inside { IsInside (D.told disk.old).blocks self.old }
        ensures answers { GoesBy D.goes disk.old disk.new
            (λ es. Steps self.old self.new (D.told disk.new)
            (Ok (w.drop name.now label.now)) es result []) }
        ensures said { IsSaid result }
        ensures counts { Counts self.old self.new 0 1 }
        ensures inside { IsInside (D.told disk.old).blocks self.new }
    {
        match self.find_held(name, label) {
            Err(refusal) => Said::Refused(refusal),
            Ok(HeldAs::Area(place, grant, index)) => {
                self.drop_area(name, label, place, grant, index, disk)
            }
            Ok(HeldAs::Net(place)) => {
                let said = drop_net(&mut self.apps[place], label);
                self.grants += 1;
                said
            }
            Ok(HeldAs::Device(place)) => {
                let said = drop_device(&mut self.apps[place], label);
                self.grants += 1;
                said
            }
        }
    }
}
