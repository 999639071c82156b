// Commands that are given to open logs and queues.
ghost use Rattle.std.specs.Prelude.{◌≡◌, ◌≤◌, IfErr, IfOk, OnErr, OnOk, length};
ghost use Rattle.ark_entry.specs.Entry.{entry_blocks};
ghost use Rattle.ark_log.specs.Refused.{IsNoEntry, IsNoPop, IsNoRoom, IsRefused};
ghost use Rattle.ark_objects.specs.Held.{held};
ghost use Rattle.ark_held.specs.Accepting.{HasAppended, HasPopped, HasTrimmed};
ghost use Rattle.ark_held.specs.Closing.{IsOpenAt, OfLogAt};

use crate::app::App;
use crate::devices::Devices;
use ark_log::ChainRefusal;
use ark_region::Region;

impl Devices {
    /// Gives the log or queue that is open on the card of a key a command to append an entry; the entry's
    /// number. It is refused as `Chain::append` says, and then nothing changes.
    pub fn append(
        &mut self,
        key: u32,
        region: &mut Region,
        payload: &[u8],
    ) -> Result<u64, ChainRefusal>
        requires there { IsOpenAt self.old.cards key }
        requires size { self.old.frames ≡ length region.old.taken }
        requires short { length payload.now ≤ 32768 }
        ensures accepted { IfOk result (λ n. OfLogAt self.old.cards key (λ one v.
            HasAppended self.old.cards self.new.cards key one v payload.now region.old region.new n)) }
        ensures refused { IfErr result (λ e. OfLogAt self.old.cards key (λ one v.
            IsRefused v (IsNoRoom v region.old (entry_blocks (length payload.now))) e)) }
        ensures cards { OnErr result (self.new.cards ≡ self.old.cards) }
        ensures region { OnErr result (region.new ≡ region.old) }
        ensures length { length region.new.taken ≡ length region.old.taken }
        ensures held { held self.new.cards ≡ held self.old.cards }
        ensures doors { self.new.doors ≡ self.old.doors }
        ensures rates { self.new.rates ≡ self.old.rates }
        ensures nets { self.new.nets ≡ self.old.nets }
        ensures frames { self.new.frames ≡ self.old.frames }
    {
        let Some(chain) = &mut self.cards.at_mut(key).log else {
            unreachable!();
        };
        chain.append(region, payload)
    }

    /// Gives the log that is open on the card of a key a command to drop the entries below a number. It is
    /// refused as `Chain::trim` says, and then nothing changes.
    pub fn trim(&mut self, key: u32, n: u64) -> Result<(), ChainRefusal>
        requires there { IsOpenAt self.old.cards key }
        ensures accepted { OnOk result (OfLogAt self.old.cards key (λ one v.
            HasTrimmed self.old.cards self.new.cards key one v n)) }
        ensures refused { IfErr result (λ e. OfLogAt self.old.cards key (λ one v.
            IsRefused v (IsNoEntry v n) e)) }
        ensures cards { OnErr result (self.new.cards ≡ self.old.cards) }
        ensures held { held self.new.cards ≡ held self.old.cards }
        ensures doors { self.new.doors ≡ self.old.doors }
        ensures rates { self.new.rates ≡ self.old.rates }
        ensures nets { self.new.nets ≡ self.old.nets }
        ensures frames { self.new.frames ≡ self.old.frames }
    {
        let Some(chain) = &mut self.cards.at_mut(key).log else {
            unreachable!();
        };
        chain.trim(n)
    }

    /// Gives the queue that is open on the card of a key a command to drop its first entry; the entry's
    /// number. It is refused as `Chain::pop` says, and then nothing changes.
    pub fn pop(&mut self, key: u32, region: &mut Region) -> Result<u64, ChainRefusal>
        requires there { IsOpenAt self.old.cards key }
        requires size { self.old.frames ≡ length region.old.taken }
        ensures accepted { IfOk result (λ n. OfLogAt self.old.cards key (λ one v.
            HasPopped self.old.cards self.new.cards key one v region.old region.new n)) }
        ensures refused { IfErr result (λ e. OfLogAt self.old.cards key (λ one v.
            IsRefused v (IsNoPop v region.old) e)) }
        ensures cards { OnErr result (self.new.cards ≡ self.old.cards) }
        ensures region { OnErr result (region.new ≡ region.old) }
        ensures length { length region.new.taken ≡ length region.old.taken }
        ensures held { held self.new.cards ≡ held self.old.cards }
        ensures doors { self.new.doors ≡ self.old.doors }
        ensures rates { self.new.rates ≡ self.old.rates }
        ensures nets { self.new.nets ≡ self.old.nets }
        ensures frames { self.new.frames ≡ self.old.frames }
    {
        let Some(chain) = &mut self.cards.at_mut(key).log else {
            unreachable!();
        };
        chain.pop(region)
    }
}

impl App {
    /// Gives the log or queue that is open on the card of a key a command to append an entry, which is
    /// written into a new buffer; its number. It is refused as `Chain::append` says, and then nothing
    /// changes.
    pub fn append(&mut self, key: u32, payload: &[u8]) -> Result<u64, ChainRefusal>
        requires there { IsOpenAt self.old.devices.cards key }
        requires short { length payload.now ≤ 32768 }
        ensures accepted { IfOk result (λ n. OfLogAt self.old.devices.cards key (λ one v.
            HasAppended self.old.devices.cards self.new.devices.cards key one v payload.now
            self.old.store.region self.new.store.region n)) }
        ensures refused { IfErr result (λ e. OfLogAt self.old.devices.cards key (λ one v. IsRefused v
            (IsNoRoom v self.old.store.region (entry_blocks (length payload.now))) e)) }
        ensures same { OnErr result (self.new ≡ self.old) }
        ensures length { length self.new.store.region.taken ≡ length self.old.store.region.taken }
        ensures buffers { self.new.store.buffers ≡ self.old.store.buffers }
        ensures labels { self.new.labels ≡ self.old.labels }
        ensures areas { self.new.areas ≡ self.old.areas }
        ensures doors { self.new.devices.doors ≡ self.old.devices.doors }
        ensures rates { self.new.devices.rates ≡ self.old.devices.rates }
        ensures nets { self.new.devices.nets ≡ self.old.devices.nets }
        ensures name { self.new.name ≡ self.old.name }
    {
        self.devices.append(key, &mut self.store.region, payload)
    }

    /// Gives the log that is open on the card of a key a command to drop the entries below a number. It is
    /// refused as `Chain::trim` says, and then nothing changes.
    pub fn trim(&mut self, key: u32, n: u64) -> Result<(), ChainRefusal>
        requires there { IsOpenAt self.old.devices.cards key }
        ensures accepted { OnOk result (OfLogAt self.old.devices.cards key (λ one v.
            HasTrimmed self.old.devices.cards self.new.devices.cards key one v n)) }
        ensures refused { IfErr result (λ e. OfLogAt self.old.devices.cards key (λ one v.
            IsRefused v (IsNoEntry v n) e)) }
        ensures same { OnErr result (self.new ≡ self.old) }
        ensures store { self.new.store ≡ self.old.store }
        ensures labels { self.new.labels ≡ self.old.labels }
        ensures areas { self.new.areas ≡ self.old.areas }
        ensures doors { self.new.devices.doors ≡ self.old.devices.doors }
        ensures rates { self.new.devices.rates ≡ self.old.devices.rates }
        ensures nets { self.new.devices.nets ≡ self.old.devices.nets }
        ensures name { self.new.name ≡ self.old.name }
    {
        self.devices.trim(key, n)
    }

    /// Gives the queue that is open on the card of a key a command to drop its first entry, for whose blocks
    /// a new buffer is taken; its number. It is refused as `Chain::pop` says, and then nothing changes.
    pub fn pop(&mut self, key: u32) -> Result<u64, ChainRefusal>
        requires there { IsOpenAt self.old.devices.cards key }
        ensures accepted { IfOk result (λ n. OfLogAt self.old.devices.cards key (λ one v.
            HasPopped self.old.devices.cards self.new.devices.cards key one v
            self.old.store.region self.new.store.region n)) }
        ensures refused { IfErr result (λ e. OfLogAt self.old.devices.cards key (λ one v. IsRefused v
            (IsNoPop v self.old.store.region) e)) }
        ensures same { OnErr result (self.new ≡ self.old) }
        ensures length { length self.new.store.region.taken ≡ length self.old.store.region.taken }
        ensures buffers { self.new.store.buffers ≡ self.old.store.buffers }
        ensures labels { self.new.labels ≡ self.old.labels }
        ensures areas { self.new.areas ≡ self.old.areas }
        ensures doors { self.new.devices.doors ≡ self.old.devices.doors }
        ensures rates { self.new.devices.rates ≡ self.old.devices.rates }
        ensures nets { self.new.devices.nets ≡ self.old.devices.nets }
        ensures name { self.new.name ≡ self.old.name }
    {
        self.devices.pop(key, &mut self.store.region)
    }
}
