// Laws of the definitions, each the contract of a function that does nothing.
ghost use Rattle.std.specs.Prelude.{◌≡◌, true};
ghost use Rattle.ark_packet.specs.declared.own.Own.{Own};
ghost use Rattle.ark_filters.specs.declared.filter.Filter.{Filter};
ghost use Rattle.ark_filters.specs.Overlap.{Overlaps, meets};
ghost use Rattle.ark_filters.specs.Rule.{IsReceiveRule, IsOwn};

/// Two receive filters overlap exactly where their lists meet, whatever the addresses of this end and whichever is first.
pub fn filter_laws()
    ensures meet_overlap { (f g : Filter) (own : Own) → IsReceiveRule f → IsReceiveRule g
        → IsOwn own → meets f g ≡ true → Overlaps f g own }
    ensures overlap_meet { (f g : Filter) (own : Own) → IsReceiveRule f → IsReceiveRule g
        → Overlaps f g own → meets f g ≡ true }
    ensures both_ways { (f g : Filter) → IsReceiveRule f → IsReceiveRule g → meets f g ≡ true
        → meets g f ≡ true }
{}
