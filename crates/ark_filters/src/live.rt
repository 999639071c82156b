ghost use Rattle.std.specs.Prelude.{◌≡◌};
ghost use Rattle.ark_filters.specs.Filter.{Counted};
ghost use Rattle.ark_filters.specs.In.{frame_matches};
ghost use Rattle.ark_filters.specs.Rules as spec;

use crate::filter::{Direction, Filter};
use crate::matching::matches;
use crate::overlap::overlaps;
use ark_packet::{Frame, Own};

/// A filter from its grant on.
#[derive(Clone, Copy, Debug)]
pub struct Live {
    /// Whose it is.
    pub owner: u8,
    /// The number of its grant.
    pub grant: u64,
    /// Which frames it is for.
    pub filter: Filter,
    /// The grant of the VNIC that it is assigned to, if to any.
    pub vnic: Option<u64>,
}

impl Live {
    // Whether it and a new one are receive filters that overlap.
    pub(crate) fn clashes(&self, new: &Filter) -> bool
        requires live { Counted self.now.filter }
        requires new_one { Counted new.now }
        ensures clashed { result ≡ spec.clashes new.now self.now }
    {
        new.direction == Direction::Rx
            && self.filter.direction == Direction::Rx
            && overlaps(new, &self.filter)
    }

    // Whether it is a receive filter in use that a frame passes.
    pub(crate) fn takes(&self, frame: &Frame<'_>, own: &Own) -> bool
        requires live { Counted self.now.filter }
        ensures taken { result ≡ spec.takes (λ f. frame_matches f frame.now own.now) self.now }
    {
        self.vnic.is_some()
            && self.filter.direction == Direction::Rx
            && matches(&self.filter, frame, own)
    }

    // Owner and VNIC, where it is assigned to one.
    pub(crate) fn receiver(&self) -> Option<(u8, u64)>
        ensures receiver { result ≡ spec.receiver self.now }
    {
        self.vnic.map(|vnic| (self.owner, vnic))
    }

    // Whether it is assigned to a VNIC.
    pub(crate) fn is_on(&self, vnic: u64) -> bool
        ensures on { result ≡ spec.is_on vnic self.now.vnic }
    {
        self.vnic == Some(vnic)
    }

    // Assigns it to a VNIC, where its grant is this one.
    pub(crate) fn assign(&mut self, grant: u64, vnic: u64)
        ensures assigned { self.new ≡ spec.assigned grant vnic self.old }
    {
        if self.grant == grant {
            self.vnic = Some(vnic);
        }
    }

    // Assigns it to none, where it was assigned to this VNIC.
    pub(crate) fn unassign(&mut self, vnic: u64)
        ensures unassigned { self.new ≡ spec.unassigned vnic self.old }
    {
        if self.is_on(vnic) {
            self.vnic = None;
        }
    }

    // Whether it is a transmit filter of a VNIC that a frame passes.
    pub(crate) fn sends(&self, vnic: u64, frame: &Frame<'_>, own: &Own) -> bool
        requires live { Counted self.now.filter }
        ensures sent { result ≡ spec.sends (λ f. frame_matches f frame.now own.now) vnic self.now }
    {
        self.is_on(vnic)
            && self.filter.direction == Direction::Tx
            && matches(&self.filter, frame, own)
    }
}
