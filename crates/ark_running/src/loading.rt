// Laws of the device events that open an area.
ghost use Rattle.std.specs.Prelude.{◌≡◌, ◌-◌, ℕ, Bool, true, List, length};
ghost use Rattle.ark_base.specs.declared.kind.Kind.{Kind};
ghost use Rattle.ark_media.specs.Journal.{Event, History, current, device_events};
ghost use Rattle.ark_media.specs.Standing.{after};
ghost use Rattle.ark_region.specs.Frames.{LiesInRegion, Piece, Space};
ghost use Rattle.ark_vic.specs.Queue.{Queue};
ghost use Rattle.ark_entry.specs.Found.{Entries, damaged, found, found_of};
ghost use Rattle.ark_caladan.specs.Chain.{Log, stored};
ghost use Rattle.ark_caladan.specs.Listed.{AreFull, IsListed, SameAt};
ghost use Rattle.ark_caladan.specs.Open.{Layout};
ghost use Rattle.ark_caladan.specs.Views.{AreApart, OnDisk, contents_at};
ghost use Rattle.ark_chain.specs.declared.surveying.Seen.{Seen};
ghost use Rattle.ark_log.specs.Loaded.{header_bytes, loaded_chain};
ghost use Rattle.ark_log.specs.Open.{IsRight};
ghost use Rattle.ark_running.specs.Opened.{IsRingEmpty, newly_opened, opened_log};
ghost use Rattle.ark_running.specs.Opening.{AtFronts, HasRepairedAt, ReadsArea, RepairsArea, StandsIn};
ghost use Rattle.ark_running.specs.Running.{IsRunning};

use crate::opening::opening_laws;

/// What reads of an area leave: at each front of them its log stands as it stood, and so does all else. What is found to be damaged
/// is damaged for its machine.
pub fn reading_laws()
    ensures listed { (kind : Kind) (h : History) (blocks : List ℕ) (g : Log) (ok : Bool)
        (es : List Event) → StandsIn kind h blocks g → ReadsArea blocks ok es
        → AtFronts (λ x. IsListed x blocks g) h es }
    ensures full { (kind : Kind) (h : History) (blocks : List ℕ) (g : Log) (ok : Bool)
        (es : List Event) → StandsIn kind h blocks g → ReadsArea blocks ok es
        → AtFronts (λ x. AreFull x blocks) h es }
    ensures beside { (h : History) (blocks other : List ℕ) (ok : Bool) (es : List Event)
        → ReadsArea blocks ok es → AtFronts (λ x. SameAt h x other) h es }
    ensures devices { (blocks : List ℕ) (ok : Bool) (es : List Event) → ReadsArea blocks ok es
        → device_events es ≡ es }
    ensures damage { (kind : Kind) (h : History) (blocks : List ℕ) (g : Log) (n : ℕ)
        → StandsIn kind h blocks g
        → found_of kind (contents_at (current h.base h.journal) blocks) ≡ damaged n
        → stored g ≡ damaged n }
{}

/// What a repair of an area leaves. What was found is what the machine knows to be stored. The events are those of an opening; at each
/// front of them the log is as listed, and its blocks are full; what stands apart from the area stays; and once it is whole, the
/// log runs on a card with nothing in its ring.
pub fn loading_laws()
    ensures found { (kind : Kind) (h : History) (blocks : List ℕ) (g : Log) (seen : Seen)
        (lengths : List ℕ) (ok : Bool) (es : List Event) → StandsIn kind h blocks g
        → HasRepairedAt kind h blocks seen lengths ok es
        → (l : Entries) × (stored g ≡ found l) × (seen.first ≡ l.first)
        × (seen.count ≡ length l.payloads) }
    ensures calls { (kind : Kind) (h : History) (blocks : List ℕ) (g : Log) (seen : Seen)
        (lengths : List ℕ) (ok : Bool) (es : List Event) → StandsIn kind h blocks g
        → HasRepairedAt kind h blocks seen lengths ok es
        → RepairsArea blocks (header_bytes kind seen) ok es }
    ensures listed { (kind : Kind) (h : History) (blocks : List ℕ) (g : Log) (seen : Seen)
        (lengths : List ℕ) (ok : Bool) (es : List Event) → StandsIn kind h blocks g
        → HasRepairedAt kind h blocks seen lengths ok es
        → AtFronts (λ x. IsListed x blocks g) h es }
    ensures full { (kind : Kind) (h : History) (blocks : List ℕ) (g : Log) (seen : Seen)
        (lengths : List ℕ) (ok : Bool) (es : List Event) → StandsIn kind h blocks g
        → HasRepairedAt kind h blocks seen lengths ok es
        → AtFronts (λ x. AreFull x blocks) h es }
    ensures beside { (h : History) (blocks header other : List ℕ) (ok : Bool) (es : List Event)
        → RepairsArea blocks header ok es → AreApart blocks other → OnDisk other h.base
        → AtFronts (λ x. SameAt h x other) h es }
    ensures devices { (blocks header : List ℕ) (ok : Bool) (es : List Event)
        → RepairsArea blocks header ok es → device_events es ≡ es }
    ensures runs { (kind : Kind) (h : History) (blocks : List ℕ) (g : Log) (seen : Seen)
        (lengths : List ℕ) (es : List Event) (card : List ℕ) (grant : ℕ) (header : Piece)
        (space : Space) (ring : Queue) → StandsIn kind h blocks g
        → HasRepairedAt kind h blocks seen lengths true es
        → LiesInRegion space.taken header → header.len ≡ 512 → IsRingEmpty ring
        → let v = loaded_chain kind grant (length blocks - 1) header seen lengths in
        IsRight v → (p : Layout) × IsRunning (after h es) blocks space ring v p
        (opened_log card v g) (newly_opened card v) }
{
    opening_laws();
}
