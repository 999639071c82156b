// Rates of an application, and the cards that they pace.
ghost use Rattle.std.specs.Prelude.{◌≡◌, ℕ, None, IsSome, option_map};
ghost use Rattle.ark_caps.specs.Labels.{others, value_at};
ghost use Rattle.ark_objects.specs.Held.{Changes, at, held};
ghost use Rattle.ark_held.specs.Pacing.{with_pace, without_pace};
ghost use Rattle.ark_held.specs.Rings.{ChangesCard, unbound};
ghost use Rattle.ark_held.specs.Seen.{is_net_paced, is_pace_of, is_paced_by, paces_any};

use crate::app::App;
use crate::devices::Devices;
use ark_base::Label;
use ark_caps::{CapKind, Capability};
use ark_vic::Rate;

impl Devices {
    /// The rate of a key paces the card of a key from now on, and stands for no pass yet.
    pub fn pace(&mut self, key: u32, rate: u32, pace: Rate)
        requires there { IsSome (at self.old.cards key) }
        ensures changes { ChangesCard self.old.cards self.new.cards key (with_pace rate pace) }
        ensures held { held self.new.cards ≡ held self.old.cards }
        ensures doors { self.new.doors ≡ self.old.doors }
        ensures rates { self.new.rates ≡ self.old.rates }
        ensures nets { self.new.nets ≡ self.old.nets }
        ensures frames { self.new.frames ≡ self.old.frames }
    {
        let card = self.cards.at_mut(key);
        card.vsic.pace(Some(pace));
        card.rate = rate;
    }

    /// No rate paces the card of a key from now on.
    pub fn unpace(&mut self, key: u32)
        requires there { IsSome (at self.old.cards key) }
        ensures changes { ChangesCard self.old.cards self.new.cards key without_pace }
        ensures held { held self.new.cards ≡ held self.old.cards }
        ensures doors { self.new.doors ≡ self.old.doors }
        ensures rates { self.new.rates ≡ self.old.rates }
        ensures nets { self.new.nets ≡ self.old.nets }
        ensures frames { self.new.frames ≡ self.old.frames }
    {
        self.cards.at_mut(key).vsic.pace(None);
    }
}

impl App {
    /// Gives up the rate of a key, which is the one under the label, with its label. Nothing stays
    /// bound under its grant.
    pub fn remove_rate(&mut self, label: &Label, key: u32, grant: u64)
        requires labelled { IsSome (value_at self.old.labels label.now) }
        requires there { IsSome (at self.old.devices.rates key) }
        ensures labels { self.new.labels ≡ others label.now self.old.labels }
        ensures rates { Changes self.old.devices.rates self.new.devices.rates key None }
        ensures nets { self.new.devices.nets ≡ self.old.devices.nets }
        ensures doors { self.new.devices.doors ≡ self.old.devices.doors }
        ensures cards { (k : ℕ) → at self.new.devices.cards k
            ≡ option_map (unbound grant) (at self.old.devices.cards k) }
        ensures areas { self.new.areas ≡ self.old.areas }
        ensures name { self.new.name ≡ self.old.name }
        ensures store { self.new.store ≡ self.old.store }
    {
        let _ = self.devices.rates.take(key);
        self.devices.unbind_all(grant);
        self.labels.remove(label);
    }

    // Whether the rate of a key paces the storage card of a key.
    fn is_card_paced(&self, key: u32, rate: u32) -> bool
        ensures { result ≡ is_pace_of rate (at self.now.devices.cards key) }
    {
        let Some(card) = self.devices.cards.at(key) else {
            return false;
        };
        card.vsic.is_paced() && card.rate == rate
    }

    // Whether it paces a side of the network card of a key.
    fn is_net_paced(&self, key: u32, rate: u32) -> bool
        ensures { result ≡ is_net_paced rate (at self.now.devices.nets.cards key) }
    {
        let Some(card) = self.devices.nets.cards.at(key) else {
            return false;
        };
        let rx = card.vnic.is_rx_paced() && card.rx.rate == rate;
        let tx = card.vnic.is_tx_paced() && card.tx.rate == rate;
        rx || tx
    }

    // Whether it paces what a capability stands for.
    fn is_paced(&self, cap: Capability, rate: u32) -> bool
        ensures { result ≡ is_paced_by self.now.devices.cards self.now.devices.nets.cards rate
            cap.kind cap.key }
    {
        match cap.kind {
            CapKind::Vsic => self.is_card_paced(cap.key, rate),
            CapKind::Vnic => self.is_net_paced(cap.key, rate),
            _ => false,
        }
    }

    /// Whether the rate of a key paces a card.
    pub fn paces(&self, rate: u32) -> bool
        ensures { result ≡ paces_any self.now.devices.cards self.now.devices.nets.cards rate
            self.now.labels }
    {
        for place in 0..self.labels.len() {
            let Some((_, cap)) = self.labels.at(place) else {
                return false;
            };
            if self.is_paced(cap, rate) {
                return true;
            }
        }
        false
    }
}
