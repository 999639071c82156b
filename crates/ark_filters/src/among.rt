// The work of `Rules` on its live filters as a list.
ghost use Rattle.std.specs.Prelude.{◌≡◌, map};
ghost use Rattle.std.specs.List.{All, list_any};
ghost use Rattle.ark_filters.specs.Rule.{IsRule};
ghost use Rattle.ark_filters.specs.In.{frame_matches};
ghost use Rattle.ark_filters.specs.Rules as spec;

use crate::filter::Filter;
use crate::live::Live;
use ark_packet::{Frame, Own};

// The grant of the earliest that overlaps a new one.
pub(crate) fn first_clash(rules: &[Live], new: &Filter) -> Option<u64>
    requires each { All (λ live. IsRule live.filter) rules.now }
    requires new_one { IsRule new.now }
    ensures first { result ≡ spec.first_clash new.now rules.now }
{
    for live in rules {
        if live.clashes(new) {
            return Some(live.grant);
        }
    }
    None
}

// Owner and VNIC of the first that takes a frame.
pub(crate) fn classify(rules: &[Live], frame: &Frame<'_>, own: &Own) -> Option<(u8, u64)>
    requires each { All (λ live. IsRule live.filter) rules.now }
    ensures first { result ≡ spec.classified (λ f. frame_matches f frame.now own.now) rules.now }
{
    for live in rules {
        if live.takes(frame, own) {
            return live.receiver();
        }
    }
    None
}

// Whether one lets a VNIC send a frame.
pub(crate) fn allows(rules: &[Live], vnic: u64, frame: &Frame<'_>, own: &Own) -> bool
    requires each { All (λ live. IsRule live.filter) rules.now }
    ensures any { result ≡ list_any
        (spec.sends (λ f. frame_matches f frame.now own.now) vnic) rules.now }
{
    for live in rules {
        if live.sends(vnic, frame, own) {
            return true;
        }
    }
    false
}

// Assigns the filter of a grant to a VNIC.
pub(crate) fn assign(rules: &mut [Live], grant: u64, vnic: u64)
    ensures all { rules.new ≡ map (spec.assigned grant vnic) rules.old }
{
    for live in rules {
        live.assign(grant, vnic);
    }
}

// Assigns those of a VNIC to none.
pub(crate) fn unassign(rules: &mut [Live], vnic: u64)
    ensures all { rules.new ≡ map (spec.unassigned vnic) rules.old }
{
    for live in rules {
        live.unassign(vnic);
    }
}

// Leaves out the filter of a grant.
pub(crate) fn remove(rules: &mut Vec<Live>, grant: u64)
    ensures others { rules.new.items ≡ spec.without grant rules.old.items }
{
    rules.retain(|live| live.grant != grant);
}
