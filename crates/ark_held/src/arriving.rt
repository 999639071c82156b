// Frames that arrive at the network cards of an application.
ghost use Rattle.std.specs.Prelude.{◌≡◌, ◌≤◌, Some, IsSome, length};
ghost use Rattle.ark_objects.specs.Held.{at, held};
ghost use Rattle.ark_vnic.specs.Arrivals.{HoldsFrame, arrived_of};
ghost use Rattle.ark_held.specs.Nets.{ChangesNet, with_arrival};
ghost use Rattle.ark_held.specs.Ringing.{IsWatching, RingsFor};
ghost use Rattle.ark_held.specs.declared.network_card.NetworkCard.{NetworkCard};

use crate::app::App;
use crate::devices::Devices;
use ark_region::Region;
use ark_vic::Bell;
use ark_vnic::Arrived;

impl Devices {
    /// A frame of at most 1,514 bytes arrives at the network card of a key at tick `now`, as `Vnic::arrive`
    /// says. One that is delivered rings at the door that watches the receiving side of the card.
    pub fn arrive(&mut self, key: u32, frame: &[u8], region: &mut Region, now: u64) -> Arrived
        requires there { IsSome (at self.old.nets.cards key) }
        requires size { self.old.nets.frames ≡ length region.old.taken }
        requires at_most { length frame.now ≤ 1514 }
        ensures answer { (one : NetworkCard) → at self.old.nets.cards key ≡ Some one →
            result ≡ arrived_of one.vnic (length frame.now) now }
        ensures nets { ChangesNet self.old.nets.cards self.new.nets.cards key
            (with_arrival result (length frame.now) now) }
        ensures region { (one : NetworkCard) → at self.old.nets.cards key ≡ Some one →
            HoldsFrame one.vnic result frame.now region.old region.new }
        ensures doors { (one : NetworkCard) → at self.old.nets.cards key ≡ Some one →
            IsWatching one.rx.door (at self.old.doors) →
            RingsFor result one.rx.door (at self.old.doors) (at self.new.doors) }
        ensures taken { region.new.taken ≡ region.old.taken }
        ensures held_nets { held self.new.nets.cards ≡ held self.old.nets.cards }
        ensures held_doors { held self.new.doors ≡ held self.old.doors }
        ensures net_frames { self.new.nets.frames ≡ self.old.nets.frames }
        ensures cards { self.new.cards ≡ self.old.cards }
        ensures rates { self.new.rates ≡ self.old.rates }
        ensures frames { self.new.frames ≡ self.old.frames }
    {
        let Some(card) = self.nets.cards.at(key) else {
            unreachable!();
        };
        let door = card.rx.door;
        let arrived = self.nets.arrive(key, frame, region, now);
        if let Arrived::Into = arrived {
            self.ring(door, Bell::Rx);
        }
        arrived
    }
}

impl App {
    /// A frame of at most 1,514 bytes arrives at the network card of a key at tick `now`, as `Vnic::arrive`
    /// says. One that is delivered rings at the door that watches the receiving side of the card.
    pub fn arrive(&mut self, key: u32, frame: &[u8], now: u64) -> Arrived
        requires there { IsSome (at self.old.devices.nets.cards key) }
        requires at_most { length frame.now ≤ 1514 }
        ensures answer { (one : NetworkCard) → at self.old.devices.nets.cards key ≡ Some one →
            result ≡ arrived_of one.vnic (length frame.now) now }
        ensures nets { ChangesNet self.old.devices.nets.cards self.new.devices.nets.cards key
            (with_arrival result (length frame.now) now) }
        ensures region { (one : NetworkCard) → at self.old.devices.nets.cards key ≡ Some one →
            HoldsFrame one.vnic result frame.now self.old.store.region self.new.store.region }
        ensures doors { (one : NetworkCard) → at self.old.devices.nets.cards key ≡ Some one →
            IsWatching one.rx.door (at self.old.devices.doors) →
            RingsFor result one.rx.door (at self.old.devices.doors) (at self.new.devices.doors) }
        ensures buffers { self.new.store.buffers ≡ self.old.store.buffers }
        ensures labels { self.new.labels ≡ self.old.labels }
        ensures areas { self.new.areas ≡ self.old.areas }
        ensures cards { self.new.devices.cards ≡ self.old.devices.cards }
        ensures rates { self.new.devices.rates ≡ self.old.devices.rates }
        ensures name { self.new.name ≡ self.old.name }
    {
        self.devices.arrive(key, frame, &mut self.store.region, now)
    }
}
