// Moves of the storage cards that an application holds.
ghost use Rattle.std.specs.Prelude.{◌≡◌, ℕ, Some, IfSome, IsSome, length};
ghost use Rattle.ark_objects.specs.Held.{Changes, at, held};
ghost use Rattle.ark_extents.specs.Blocks.{AreDistinct};
ghost use Rattle.ark_media.specs.Calls.{Went};
ghost use Rattle.ark_vsic.specs.Card.{head_of};
ghost use Rattle.ark_vsic.specs.Moves.{CanMove, Leaves, answer_of, calls_of, due_of, pace_after, ring_after, worked};
ghost use Rattle.ark_held.specs.Inside.{AreasInside};
ghost use Rattle.ark_held.specs.Moving.{area_named, blocks_held, vsic_moved};
ghost use Rattle.ark_held.specs.Ringing.{IsWatching, RingsAt, RingsBell};
ghost use Rattle.ark_held.specs.declared.card.StorageCard.{StorageCard};

use crate::areas::Areas;
use crate::devices::Devices;
use ark_extents::Spans;
use ark_media::Disk;
use ark_region::Region;
use ark_vic::Bell;
use ark_vsic::{Moved, Vsic};

// The area that the oldest descriptor of a card names, if it is held.
fn named(vsic: &Vsic, areas: &Areas) -> Option<(u64, Spans)>
    ensures area { result ≡ area_named (head_of vsic.now.ring) areas.now }
    ensures distinct { IfSome result (λ a. AreDistinct a.1) }
{
    let head = vsic.ring().head()?;
    let area = areas.get(head.grant)?;
    let blocks = area.spans.blocks();
    prove!(blocks >= 1);
    Some((head.grant, area.spans))
}

// Makes one move of a card, for an application that holds these areas.
fn move_vsic<D: Disk>(
    vsic: &mut Vsic,
    areas: &Areas,
    region: &mut Region,
    disk: &mut D,
    now: u64,
) -> Moved
    requires sound { IfSome (head_of vsic.old.ring) (λ d.
        CanMove region.old.taken vsic.old.ring.moved d) }
    requires inside { AreasInside (D.told disk.old).blocks areas.now }
    ensures went { Went D.goes
        (calls_of vsic.old (due_of vsic.old (blocks_held areas.now) now) region.old)
        (worked result) disk.old disk.new }
    ensures answer { result
        ≡ answer_of vsic.old (due_of vsic.old (blocks_held areas.now) now) (worked result) }
    ensures ring { vsic.new.ring ≡ ring_after vsic.old.ring result }
    ensures pace { vsic.new.pace
        ≡ pace_after vsic.old.pace (due_of vsic.old (blocks_held areas.now) now) now }
    ensures bound { vsic.new.bound ≡ vsic.old.bound }
    ensures distinct { IfSome (area_named (head_of vsic.old.ring) areas.now)
        (λ a. AreDistinct a.1) }
    ensures frames { region.new.taken ≡ region.old.taken }
    ensures region { Leaves vsic.old (due_of vsic.old (blocks_held areas.now) now) (worked result)
        (D.told disk.new).history region.old region.new }
{
    match named(vsic, areas) {
        None => vsic.move_one(&[], region, disk, now),
        Some(area) => vsic.move_one(&[area], region, disk, now),
    }
}

impl Devices {
    // A bell rings at the door that watches.
    pub(crate) fn ring(&mut self, door: Option<u32>, bell: Bell)
        ensures rings { IsWatching door (at self.old.doors) →
            RingsBell bell door (at self.old.doors) (at self.new.doors) }
        ensures held { held self.new.doors ≡ held self.old.doors }
        ensures cards { self.new.cards ≡ self.old.cards }
        ensures rates { self.new.rates ≡ self.old.rates }
        ensures nets { self.new.nets ≡ self.old.nets }
        ensures frames { self.new.frames ≡ self.old.frames }
    {
        let Some(key) = door else {
            return;
        };
        // A card is watched by a door that is there.
        if self.doors.at(key).is_some() {
            self.doors.at_mut(key).ring(bell);
        }
    }

    /// Makes one move of the card of a key at tick `now`, for an application that holds these
    /// areas. A descriptor that has ended rings at the door that watches the card.
    pub fn move_card<D: Disk>(
        &mut self,
        key: u32,
        areas: &Areas,
        region: &mut Region,
        disk: &mut D,
        now: u64,
    ) -> Moved
        requires there { IsSome (at self.old.cards key) }
        requires frames { self.old.frames ≡ length region.old.taken }
        requires inside { AreasInside (D.told disk.old).blocks areas.now }
        ensures went { (one : StorageCard) → at self.old.cards key ≡ Some one → Went D.goes
            (calls_of one.vsic (due_of one.vsic (blocks_held areas.now) now) region.old)
            (worked result) disk.old disk.new }
        ensures answer { (one : StorageCard) → at self.old.cards key ≡ Some one → result
            ≡ answer_of one.vsic (due_of one.vsic (blocks_held areas.now) now) (worked result) }
        ensures region { (one : StorageCard) → at self.old.cards key ≡ Some one →
            Leaves one.vsic (due_of one.vsic (blocks_held areas.now) now) (worked result)
            (D.told disk.new).history region.old region.new }
        ensures cards { (one : StorageCard) → at self.old.cards key ≡ Some one →
            Changes self.old.cards self.new.cards key (Some (record one {
              vsic = vsic_moved one.vsic (blocks_held areas.now) now result;
            })) }
        ensures doors { (one : StorageCard) → at self.old.cards key ≡ Some one →
            IsWatching one.door (at self.old.doors) →
            RingsAt result one.door (at self.old.doors) (at self.new.doors) }
        ensures distinct { (one : StorageCard) → at self.old.cards key ≡ Some one →
            IfSome (area_named (head_of one.vsic.ring) areas.now) (λ a. AreDistinct a.1) }
        ensures sound { (one : StorageCard) → at self.old.cards key ≡ Some one →
            IfSome (head_of one.vsic.ring) (λ d.
            CanMove region.old.taken one.vsic.ring.moved d) }
        ensures held_cards { held self.new.cards ≡ held self.old.cards }
        ensures held_doors { held self.new.doors ≡ held self.old.doors }
        ensures rates { self.new.rates ≡ self.old.rates }
        ensures nets { self.new.nets ≡ self.old.nets }
        ensures frames { self.new.frames ≡ self.old.frames }
        ensures taken { region.new.taken ≡ region.old.taken }
    {
        let card = self.cards.at_mut(key);
        let door = card.door;
        let moved = move_vsic(&mut card.vsic, areas, region, disk, now);
        if let Moved::Done(_) = moved {
            self.ring(door, Bell::Io);
        }
        moved
    }
}
