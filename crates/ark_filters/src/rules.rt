ghost use Rattle.std.specs.Prelude.{◌≡◌, ◌↔◌, ◌≤◌, ◌<◌, ℕ, List, [], ◌∷◌, ◌++◌, Some, None, Err, map, Contains, IfOk, IfErr, OnOk, OnErr};
ghost use Rattle.std.specs.List.{All, list_any, count_by};
ghost use Rattle.ark_packet.specs.Frame.{ReadsFrame};
ghost use Rattle.ark_packet.specs.declared.own.Own.{Own};
ghost use Rattle.ark_filters.specs.In.{is_in};
ghost use Rattle.ark_filters.specs.Rule.{IsReceive, IsRule, IsOwn};
ghost use Rattle.ark_filters.specs.Rules as spec;

use crate::among;
use crate::filter::Filter;
use crate::live::Live;
use ark_base::Memory;
use ark_packet::{Frame, Own};
use std::alloc::Global;
use std::marker::Model;

// How many filters there is room for at first: as many as one application may have.
const ROOM: usize = 16;

/// Why a filter was not added.
#[derive(Clone, Copy, Debug, PartialEq, Eq)]
pub enum AddRule {
    /// It overlaps the filter of this grant, the earliest that it overlaps.
    Overlap(u64),
    /// There was no memory.
    Memory,
}

/// The live filters of all applications. Contracts see the list of them, in order of grant. No two receive filters among them
/// overlap.
#[derive(Drop)]
pub struct Rules {
    live: Vec<Live>,
}

impl Model for Rules {
    ghost use Rattle.std.specs.Prelude.{List};
    ghost use Rattle.ark_filters.specs.declared.live.Live.{Live};
    ghost use Rattle.ark_filters.specs.Rules.{AreRules};

    ghost Value = { List Live };

    ghost view = { λ r. r.live.items };

    ghost invariant = { λ r. AreRules r.live.items };
}

impl Rules {
    /// No filters. `Memory` comes only for want of memory.
    pub fn new(alloc: Global) -> Result<Rules, Memory>
        ensures none { IfOk result (λ r. r ≡ []) }
    {
        let Ok(live) = Vec::with_capacity(alloc, ROOM) else {
            return Err(Memory);
        };
        Ok(Rules { live })
    }

    /// Adds a filter at the end, assigned to no VNIC. `Overlap` comes exactly where it is a receive filter and some frame
    /// matches it and a live one; it names the earliest such. The rules stay as they were then. Memory is taken after that.
    pub fn add(&mut self, owner: u8, grant: u64, filter: Filter) -> Result<(), AddRule>
        requires rule { IsRule filter }
        requires later { All (λ live. live.grant < grant) self.old }
        ensures added { OnOk result (self.new
            ≡ self.old ++ record { owner = owner; grant = grant; filter = filter; vnic = None } ∷
            []) }
        ensures overlap { (other : ℕ)
            → (result ≡ Err (AddRule.Overlap other))
            ↔ (spec.first_clash filter self.old ≡ Some other) }
        ensures earliest { (own : Own) (other : ℕ) → IsOwn own
            → result ≡ Err (AddRule.Overlap other) → spec.IsEarliest filter own self.old other }
        ensures apart { (own : Own) → IsOwn own → IsReceive filter
            → OnOk result (All (λ live. ¬ spec.OverlapsLive filter own live) self.old) }
        ensures err { OnErr result (self.new ≡ self.old) }
    {
        match among::first_clash(&self.live, &filter) {
            Some(other) => Err(AddRule::Overlap(other)),
            None => self.push(Live {
                owner,
                grant,
                filter,
                vnic: None,
            }),
        }
    }

    // Keeps one more, which overlaps none.
    fn push(&mut self, live: Live) -> Result<(), AddRule>
        requires rule { IsRule live.filter }
        requires later { All (λ other. other.grant < live.grant) self.old }
        requires apart { spec.first_clash live.filter self.old ≡ None }
        ensures added { OnOk result (self.new ≡ self.old ++ live ∷ []) }
        ensures err { OnErr result (self.new ≡ self.old) }
        ensures memory { IfErr result (λ e. e ≡ AddRule.Memory) }
    {
        match self.live.push(live) {
            Ok(()) => Ok(()),
            Err(_) => Err(AddRule::Memory),
        }
    }

    /// Assigns the filter of a grant to a VNIC.
    pub fn assign(&mut self, grant: u64, vnic: u64)
        requires live { Contains (map (λ live. live.grant) self.old) grant }
        ensures assigned { self.new ≡ map (spec.assigned grant vnic) self.old }
    {
        among::assign(&mut self.live, grant, vnic);
    }

    /// Assigns the filters of a VNIC to none.
    pub fn unassign(&mut self, vnic: u64)
        ensures unassigned { self.new ≡ map (spec.unassigned vnic) self.old }
    {
        among::unassign(&mut self.live, vnic);
    }

    /// Leaves out the filter of a grant.
    pub fn remove(&mut self, grant: u64)
        ensures others { self.new ≡ spec.without grant self.old }
    {
        among::remove(&mut self.live, grant);
    }

    /// Whom a frame that comes in is for: owner and VNIC of the one receive filter that is assigned and that it matches;
    /// `None` exactly where there is none.
    pub fn classify(&self, frame: &Frame<'_>, own: &Own) -> Option<(u8, u64)>
        ensures found { (bytes : List ℕ) → ReadsFrame bytes frame.now
            → result ≡ spec.classified (λ f. is_in f bytes own.now) self.now }
        ensures receiver { (bytes : List ℕ) → ReadsFrame bytes frame.now → (owner vnic : ℕ)
            → (result ≡ Some (owner, vnic))
            ↔ spec.IsFor (λ f. is_in f bytes own.now) self.now owner vnic }
        ensures one { (bytes : List ℕ)
            → count_by (spec.takes (λ f. is_in f bytes own.now)) self.now ≤ 1 }
    {
        among::classify(&self.live, frame, own)
    }

    /// Whether a VNIC may send a frame: a transmit filter that is assigned to it matches.
    pub fn allows(&self, vnic: u64, frame: &Frame<'_>, own: &Own) -> bool
        ensures any { (bytes : List ℕ) → ReadsFrame bytes frame.now
            → result ≡ list_any (spec.sends (λ f. is_in f bytes own.now) vnic) self.now }
    {
        among::allows(&self.live, vnic, frame, own)
    }
}
