// The logs that are open on the cards of an application.
ghost use Rattle.std.specs.Prelude.{◌≡◌, Some, IsSome, option_map};
ghost use Rattle.ark_objects.specs.Held.{at, held};
ghost use Rattle.ark_log.specs.Stages.{IsWhole};
ghost use Rattle.ark_held.specs.Idle.{IsUnused};
ghost use Rattle.ark_held.specs.LogBuffers.{LiesIn};
ghost use Rattle.ark_held.specs.OpenLogs.{is_open_by, opened_on};
ghost use Rattle.ark_held.specs.Rings.{ChangesCard};

use crate::app::App;
use crate::devices::Devices;
use ark_caps::{CapKind, Capability};
use ark_log::Chain;

impl Devices {
    /// A log or queue is open on the card of a key, whose ring is empty, from now on.
    pub fn open(&mut self, key: u32, chain: Chain)
        requires there { IsSome (at self.old.cards key) }
        requires unused { IsUnused self.old.cards key }
        requires lie { LiesIn self.old.frames (Some chain) }
        requires whole { IsWhole chain }
        ensures changes { ChangesCard self.old.cards self.new.cards key
            (λ c. record c { log = Some chain }) }
        ensures held { held self.new.cards ≡ held self.old.cards }
        ensures doors { self.new.doors ≡ self.old.doors }
        ensures rates { self.new.rates ≡ self.old.rates }
        ensures nets { self.new.nets ≡ self.old.nets }
        ensures frames { self.new.frames ≡ self.old.frames }
    {
        self.cards.at_mut(key).log = Some(chain);
    }
}

impl App {
    // Whether the log or queue of the area of a grant is open on what a capability stands for.
    fn has_open(&self, cap: Capability, grant: u64) -> bool
        ensures { result ≡ is_open_by self.now.devices.cards grant cap.kind cap.key }
    {
        let CapKind::Vsic = cap.kind else {
            return false;
        };
        let Some(card) = self.devices.cards.at(cap.key) else {
            return false;
        };
        match &card.log {
            Some(chain) => chain.grant() == grant,
            None => false,
        }
    }

    /// The card on which the log or queue of the area of a grant is open; `None` exactly where it is open on none.
    pub fn open_on(&self, grant: u64) -> Option<Capability>
        ensures { result
            ≡ option_map (λ p. p.1) (opened_on self.now.devices.cards grant self.now.labels) }
    {
        for place in 0..self.labels.len() {
            let Some((_, cap)) = self.labels.at(place) else {
                return None;
            };
            if self.has_open(cap, grant) {
                return Some(cap);
            }
        }
        None
    }
}
