// Open logs and queues that are polled.
ghost use Rattle.std.specs.Prelude.{◌≡◌, ◌≤◌, length};
ghost use Rattle.ark_objects.specs.Held.{held};
ghost use Rattle.ark_held.specs.Closing.{IsOpenAt, OfLogAt};
ghost use Rattle.ark_held.specs.Polling.{HasPolledOn, IsShortIfAcked};

use crate::app::App;
use crate::devices::Devices;
use ark_log::Polled;
use ark_region::Region;

impl Devices {
    /// Brings the oldest command of the log or queue that is open on the card of a key one step on, as
    /// `Chain::poll` says. Of a pop that is acknowledged the payload stands at the front of `out`.
    pub fn poll(&mut self, key: u32, region: &mut Region, out: &mut [u8]) -> Polled
        requires there { IsOpenAt self.old.cards key }
        requires size { self.old.frames ≡ length region.old.taken }
        requires room { 32768 ≤ length out.old }
        ensures polled { OfLogAt self.old.cards key (λ one v. HasPolledOn self.old.cards
            self.new.cards key one v region.old region.new out.old out.new result) }
        ensures short { IsShortIfAcked result }
        ensures length { length region.new.taken ≡ length region.old.taken }
        ensures held { held self.new.cards ≡ held self.old.cards }
        ensures doors { self.new.doors ≡ self.old.doors }
        ensures rates { self.new.rates ≡ self.old.rates }
        ensures nets { self.new.nets ≡ self.old.nets }
        ensures frames { self.new.frames ≡ self.old.frames }
    {
        let card = self.cards.at_mut(key);
        let Some(chain) = &mut card.log else {
            unreachable!();
        };
        chain.is_right();
        let polled = chain.poll(card.vsic.ring_mut(), region, out);
        chain.is_right();
        polled
    }
}

impl App {
    /// Brings the oldest command of the log or queue that is open on the card of a key one step on, as
    /// `Chain::poll` says. Of a pop that is acknowledged the payload stands at the front of `out`.
    pub fn poll(&mut self, key: u32, out: &mut [u8]) -> Polled
        requires there { IsOpenAt self.old.devices.cards key }
        requires room { 32768 ≤ length out.old }
        ensures polled { OfLogAt self.old.devices.cards key (λ one v. HasPolledOn
            self.old.devices.cards self.new.devices.cards key one v self.old.store.region
            self.new.store.region out.old out.new result) }
        ensures short { IsShortIfAcked result }
        ensures length { length self.new.store.region.taken ≡ length self.old.store.region.taken }
        ensures buffers { self.new.store.buffers ≡ self.old.store.buffers }
        ensures labels { self.new.labels ≡ self.old.labels }
        ensures areas { self.new.areas ≡ self.old.areas }
        ensures doors { self.new.devices.doors ≡ self.old.devices.doors }
        ensures rates { self.new.devices.rates ≡ self.old.devices.rates }
        ensures nets { self.new.devices.nets ≡ self.old.devices.nets }
        ensures name { self.new.name ≡ self.old.name }
    {
        self.devices.poll(key, &mut self.store.region, out)
    }
}
