ghost use Rattle.std.specs.Prelude.{◌≤◌, ◌<◌, ◌^◌, [], Ok, IfOk, IfErr};
ghost use Rattle.ark_media.specs.Calls.{GoesBy};
ghost use Rattle.ark_script.specs.Line as w;
ghost use Rattle.ark_script.specs.Text.{IsNamed, IsSaid};
ghost use Rattle.ark_host.specs.Inside.{IsInside};
ghost use Rattle.ark_host.specs.Time.{Counts};

use super::Host;
use super::apps::place_of;
use ark_base::{AppName, Label, Refusal};
use ark_extents::Spans;
use ark_held::Area;
use ark_media::Disk;
use ark_script::Said;

// What an area may get: the place of its application, the number of its grant, and the blocks to be added, by themselves and
// behind its own.
#[derive(Clone, Copy)]
struct Growth {
    place: usize,
    grant: u64,
    area: Area,
    more: Spans,
    spans: Spans,
}

impl Host {
    ghost use Rattle.ark_host.specs.Stands.{Steps, IsEarly};
    ghost use Rattle.ark_host.specs.Growing.{IsGrowRefused, MayGrow};

    // So many blocks more for the raw area under a label, or why it can't have them.
    fn growth(&self, name: &AppName, label: &Label, blocks: u64) -> Result<Growth, Refusal>
        requires some { 1 ≤ blocks }
        ensures refused { IfErr result (λ e. IsGrowRefused self.now name.now label.now blocks e) }
        ensures named { IfErr result (λ e. IsNamed e) }
        ensures early { IfErr result (λ e. IsEarly e) }
        ensures may { IfOk result (λ x. MayGrow self.now name.now label.now blocks x) }
    {
        let Some(place) = place_of(&self.apps, name) else {
            return Err(Refusal::NoApplication);
        };
        let (grant, area) = match self.apps[place].raw_area(label) {
            Ok((grant, area)) => (grant, *area),
            Err(refusal) => return Err(refusal),
        };
        let more = match self.plane.room(blocks) {
            Ok(more) => more,
            Err(refusal) => return Err(refusal),
        };
        // An area has its slot, with the same blocks.
        let Some(slot) = self.plane.table.slot(area.slot) else {
            return Err(Refusal::WrongKind);
        };
        if slot.spans.join(&more).is_none() {
            return Err(Refusal::Scattered);
        }
        let Some(spans) = area.spans.join(&more) else {
            return Err(Refusal::Scattered);
        };
        Ok(Growth {
            place,
            grant,
            area,
            more,
            spans,
        })
    }

    // The word `grow`. Where the table can't be written it has failed, and the blocks that were to be added stay taken.
    pub(super) fn grow<D: Disk>(
        &mut self,
        name: &AppName,
        label: &Label,
        blocks: u64,
        disk: &mut D,
    ) -> Said
        requires some { 1 ≤ blocks }
        requires inside { IsInside (D.told disk.old).blocks self.old }
        ensures answers { GoesBy D.goes disk.old disk.new
            (λ es. Steps self.old self.new (D.told disk.new) (Ok (w.grow name.now label.now blocks))
            es result []) }
        ensures said { IsSaid result }
        ensures counts { Counts self.old self.new 0 0 }
        ensures inside { IsInside (D.told disk.old).blocks self.new }
    {
        let growth = match self.growth(name, label, blocks) {
            Ok(growth) => growth,
            Err(refusal) => return Said::Refused(refusal),
        };
        match self.plane.grow(disk, growth.area.slot, &growth.more) {
            Ok(()) => {
                self.apps[growth.place].set_spans(growth.grant, growth.spans);
                Said::Ok
            }
            Err(_) => Said::Refused(Refusal::DeviceFault),
        }
    }
}
