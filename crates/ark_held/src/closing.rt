// Open logs and queues that are closed.
ghost use Rattle.std.specs.Prelude.{◌≡◌, IfErr, OnErr, OnOk, length};
ghost use Rattle.ark_objects.specs.Held.{held};
ghost use Rattle.ark_base.specs.declared.refusal.Refusal.TheVariants as refusal;
ghost use Rattle.ark_held.specs.Closing.{HasClosed, IsOpenAt, IsWaiting, OfLogAt};

use crate::app::App;
use crate::devices::Devices;
use ark_base::Refusal;
use ark_region::Region;

impl Devices {
    /// Closes the log or queue that is open on the card of a key. Its buffers are given back, and its area
    /// is bound there no more. `Busy` comes, and nothing changes, exactly where it has not failed and a
    /// command waits.
    pub fn close(&mut self, key: u32, region: &mut Region) -> Result<(), Refusal>
        requires there { IsOpenAt self.old.cards key }
        requires size { self.old.frames ≡ length region.old.taken }
        ensures closed { OnOk result (OfLogAt self.old.cards key (λ one chain.
            HasClosed self.old.cards self.new.cards key one chain region.old region.new)) }
        ensures busy { IfErr result (λ e. e ≡ refusal.Busy) }
        ensures waits { OnErr result (OfLogAt self.old.cards key (λ one chain. IsWaiting chain)) }
        ensures cards { OnErr result (self.new.cards ≡ self.old.cards) }
        ensures region { OnErr result (region.new ≡ region.old) }
        ensures length { length region.new.taken ≡ length region.old.taken }
        ensures held { held self.new.cards ≡ held self.old.cards }
        ensures doors { self.new.doors ≡ self.old.doors }
        ensures rates { self.new.rates ≡ self.old.rates }
        ensures nets { self.new.nets ≡ self.old.nets }
        ensures frames { self.new.frames ≡ self.old.frames }
    {
        let card = self.cards.at_mut(key);
        let Some(chain) = card.log.take() else {
            unreachable!();
        };
        let grant = chain.grant();
        match chain.close(region) {
            Ok(()) => {
                card.vsic.unbind(grant);
                Ok(())
            }
            Err(chain) => {
                card.log = Some(chain);
                Err(Refusal::Busy)
            }
        }
    }
}

impl App {
    /// Closes the log or queue that is open on the card of a key. Its buffers are given back, and its area
    /// is bound there no more. `Busy` comes, and nothing changes, exactly where it has not failed and a
    /// command waits.
    pub fn close_log(&mut self, key: u32) -> Result<(), Refusal>
        requires there { IsOpenAt self.old.devices.cards key }
        ensures closed { OnOk result (OfLogAt self.old.devices.cards key (λ one chain.
            HasClosed self.old.devices.cards self.new.devices.cards key one chain
            self.old.store.region self.new.store.region)) }
        ensures busy { IfErr result (λ e. e ≡ refusal.Busy) }
        ensures waits { OnErr result
            (OfLogAt self.old.devices.cards key (λ one chain. IsWaiting chain)) }
        ensures same { OnErr result (self.new ≡ self.old) }
        ensures length { length self.new.store.region.taken ≡ length self.old.store.region.taken }
        ensures buffers { self.new.store.buffers ≡ self.old.store.buffers }
        ensures labels { self.new.labels ≡ self.old.labels }
        ensures areas { self.new.areas ≡ self.old.areas }
        ensures doors { self.new.devices.doors ≡ self.old.devices.doors }
        ensures rates { self.new.devices.rates ≡ self.old.devices.rates }
        ensures nets { self.new.devices.nets ≡ self.old.devices.nets }
        ensures name { self.new.name ≡ self.old.name }
    {
        self.devices.close(key, &mut self.store.region)
    }
}
