// What an application gives up.
ghost use Rattle.std.specs.Prelude.{◌≡◌, ℕ, None, Some, Ok, IsSome, nat_eq, option_map};
ghost use Rattle.std.specs.Map.{lookup};
ghost use Rattle.ark_caps.specs.Labels.{others, value_at};
ghost use Rattle.ark_objects.specs.Held.{Changes, at};
ghost use Rattle.ark_held.specs.Rings.{LosesCard, unbound};
ghost use Rattle.ark_held.specs.Seen as seen;
ghost use Rattle.ark_held.specs.Seen.{is_card_seen, is_net_seen, is_seen_by, sees_any};
ghost use Rattle.ark_held.specs.Words.{slot_under, without_area};

use crate::app::App;
use ark_base::Label;
use ark_caps::{CapKind, Capability};

// Whether what watches a card, if anything does, is the door of a key.
fn is_key(key: u32, door: Option<u32>) -> bool
    ensures { result ≡ seen.is_key key door }
{
    match door {
        Some(other) => other == key,
        None => false,
    }
}

impl App {
    /// Gives up the area of this grant, which is the one under the label, with its label; no card has it bound any more. It
    /// takes no memory.
    pub fn remove_area(&mut self, label: &Label, grant: u64)
        requires there { (slot : ℕ) ×
            (slot_under self.old.labels self.old.areas label.now ≡ Ok (grant, slot)) }
        ensures labels { self.new.labels ≡ others label.now self.old.labels }
        ensures areas { self.new.areas ≡ without_area self.old.areas grant }
        ensures gone { lookup (nat_eq grant) self.new.areas ≡ None }
        ensures cards { (key : ℕ) → at self.new.devices.cards key
            ≡ option_map (unbound grant) (at self.old.devices.cards key) }
        ensures doors { self.new.devices.doors ≡ self.old.devices.doors }
        ensures rates { self.new.devices.rates ≡ self.old.devices.rates }
        ensures nets { self.new.devices.nets ≡ self.old.devices.nets }
        ensures name { self.new.name ≡ self.old.name }
        ensures region { self.new.store.region ≡ self.old.store.region }
        ensures buffers { self.new.store.buffers ≡ self.old.store.buffers }
    {
        self.areas.remove(grant);
        self.devices.unbind_all(grant);
        self.labels.remove(label);
    }

    /// Gives up the storage card of a key, which is the one under the label, with its label. Nothing stays bound under its grant.
    pub fn remove_card(&mut self, label: &Label, key: u32, grant: u64)
        requires labelled { IsSome (value_at self.old.labels label.now) }
        requires there { IsSome (at self.old.devices.cards key) }
        ensures labels { self.new.labels ≡ others label.now self.old.labels }
        ensures cards { LosesCard self.old.devices.cards self.new.devices.cards key grant }
        ensures doors { self.new.devices.doors ≡ self.old.devices.doors }
        ensures rates { self.new.devices.rates ≡ self.old.devices.rates }
        ensures nets { self.new.devices.nets ≡ self.old.devices.nets }
        ensures areas { self.new.areas ≡ self.old.areas }
        ensures name { self.new.name ≡ self.old.name }
        ensures store { self.new.store ≡ self.old.store }
    {
        self.devices.remove_card(key);
        self.devices.unbind_all(grant);
        self.labels.remove(label);
    }

    /// Gives up the network card of a key, which is the one under the label, with its label. Nothing stays bound under its grant.
    pub fn remove_net(&mut self, label: &Label, key: u32, grant: u64)
        requires labelled { IsSome (value_at self.old.labels label.now) }
        requires there { IsSome (at self.old.devices.nets.cards key) }
        ensures labels { self.new.labels ≡ others label.now self.old.labels }
        ensures nets { Changes self.old.devices.nets.cards self.new.devices.nets.cards key None }
        ensures doors { self.new.devices.doors ≡ self.old.devices.doors }
        ensures rates { self.new.devices.rates ≡ self.old.devices.rates }
        ensures cards { (k : ℕ) → at self.new.devices.cards k
            ≡ option_map (unbound grant) (at self.old.devices.cards k) }
        ensures areas { self.new.areas ≡ self.old.areas }
        ensures name { self.new.name ≡ self.old.name }
        ensures store { self.new.store ≡ self.old.store }
    {
        self.devices.nets.remove(key);
        self.devices.unbind_all(grant);
        self.labels.remove(label);
    }

    /// Gives up the door of a key, which is the one under the label, with its label. Nothing stays bound under its grant.
    pub fn remove_door(&mut self, label: &Label, key: u32, grant: u64)
        requires labelled { IsSome (value_at self.old.labels label.now) }
        requires there { IsSome (at self.old.devices.doors key) }
        ensures labels { self.new.labels ≡ others label.now self.old.labels }
        ensures doors { Changes self.old.devices.doors self.new.devices.doors key None }
        ensures rates { self.new.devices.rates ≡ self.old.devices.rates }
        ensures nets { self.new.devices.nets ≡ self.old.devices.nets }
        ensures cards { (k : ℕ) → at self.new.devices.cards k
            ≡ option_map (unbound grant) (at self.old.devices.cards k) }
        ensures areas { self.new.areas ≡ self.old.areas }
        ensures name { self.new.name ≡ self.old.name }
        ensures store { self.new.store ≡ self.old.store }
    {
        let _ = self.devices.doors.take(key);
        self.devices.unbind_all(grant);
        self.labels.remove(label);
    }

    // Whether the door of a key watches the storage card of a key.
    fn is_card_seen(&self, key: u32, door: u32) -> bool
        ensures { result ≡ is_card_seen door (at self.now.devices.cards key) }
    {
        let Some(card) = self.devices.cards.at(key) else {
            return false;
        };
        is_key(door, card.door)
    }

    // Whether it watches a side of the network card of a key.
    fn is_net_seen(&self, key: u32, door: u32) -> bool
        ensures { result ≡ is_net_seen door (at self.now.devices.nets.cards key) }
    {
        let Some(card) = self.devices.nets.cards.at(key) else {
            return false;
        };
        is_key(door, card.rx.door) || is_key(door, card.tx.door)
    }

    // Whether it watches what a capability stands for.
    fn is_seen(&self, cap: Capability, door: u32) -> bool
        ensures { result ≡ is_seen_by self.now.devices.cards self.now.devices.nets.cards door
            cap.kind cap.key }
    {
        match cap.kind {
            CapKind::Vsic => self.is_card_seen(cap.key, door),
            CapKind::Vnic => self.is_net_seen(cap.key, door),
            _ => false,
        }
    }

    /// Whether the door of a key watches a card.
    pub fn watches(&self, door: u32) -> bool
        ensures { result ≡ sees_any self.now.devices.cards self.now.devices.nets.cards door
            self.now.labels }
    {
        for place in 0..self.labels.len() {
            let Some((_, cap)) = self.labels.at(place) else {
                return false;
            };
            if self.is_seen(cap, door) {
                return true;
            }
        }
        false
    }
}
