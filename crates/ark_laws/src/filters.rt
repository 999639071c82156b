// Laws of live filters: which are refused, and what holds of them throughout a run.
ghost use Rattle.std.specs.Prelude.{◌≡◌, ◌↔◌, ℕ, Bool, false, List, []};
ghost use Rattle.ark_base.specs.declared.refusal.Refusal.TheVariants as r;
ghost use Rattle.ark_packet.specs.declared.own.Own.{Own};
ghost use Rattle.ark_filters.specs.Rule.{IsOwn};
ghost use Rattle.ark_filters.specs.declared.filter.Filter.{Filter};
ghost use Rattle.ark_table.specs.Slots.{Slot};
ghost use Rattle.ark_script.specs.Line as w;
ghost use Rattle.ark_script.specs.Line.{Line};
ghost use Rattle.ark_script.specs.Ranges.{InRange};
ghost use Rattle.ark_script.specs.declared.said.Said.TheVariants as said;
ghost use Rattle.ark_media.specs.Journal.{Event};
ghost use Rattle.ark_machine.specs.Row.{Ended};
ghost use Rattle.ark_machine.specs.Follow.{PerformsFor, ends_of};
ghost use Rattle.ark_machine.specs.System.{System, fresh_system, owner, line_turn};
ghost use Rattle.ark_machine.specs.Start.{start_system};
ghost use Rattle.ark_machine.specs.Filters.{IsFirstSharing, HasRules, without_filters, FiltersAgree};

/// A line `filter` is refused with 12 exactly where it would be accepted if no filter were live, and some frame of 14 to 1,514
/// bytes passes both its filter and a live one, two receive filters, whatever the addresses of this end. The refusal names the
/// earliest such. Each live filter of a run is one that a line can give: none is live at its start, and each line keeps it.
pub fn overlap_laws()
    ensures refused { (s : System) (own : Own) (a f b g : List ℕ) (rule : Filter)
        (ends : List Ended) (memory : Bool) →
        IsOwn own → InRange (w.filter a f rule) → HasRules s.plane →
        ((line_turn s (w.filter a f rule) ends memory).said ≡ said.Refused (r.Overlap b g)) ↔
        (((line_turn (without_filters s) (w.filter a f rule) [] false).said ≡ said.Ok) ×
        IsFirstSharing own rule s.plane.filters b g) }
    ensures fresh { (size : ℕ) → HasRules (fresh_system size).plane }
    ensures stored { (image : List (List ℕ)) (slots : List Slot) →
        HasRules (start_system image slots).plane }
    ensures kept { (s : System) (line : Line) (ends : List Ended) (memory : Bool) →
        InRange line → HasRules s.plane → HasRules (line_turn s line ends memory).after.plane }
{}

/// One list of filters: the plane lists just those that the machines hold, each once, with its rule and the card that it is
/// assigned to. It is so at the start of a run, on a fresh device or a stored one, and after each line.
pub fn list_laws()
    ensures fresh { (size : ℕ) → FiltersAgree (fresh_system size) }
    ensures stored { (image : List (List ℕ)) (slots : List Slot) →
        FiltersAgree (start_system image slots) }
    ensures kept { (s : System) (line : Line) (es : List Event) (memory : Bool) →
        FiltersAgree s →
        PerformsFor s line (line_turn s line (ends_of es) memory).calls es (owner line) →
        FiltersAgree (line_turn s line (ends_of es) memory).after }
{}
