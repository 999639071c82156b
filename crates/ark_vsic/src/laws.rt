// Laws of the definitions, each the contract of a function that does nothing.
ghost use Rattle.std.specs.Prelude.{◌≡◌, ◌≤◌, ◌<◌, ◌+◌, ◌-◌, ◌%◌, ◌++◌, ◌∷◌, [], ℕ, suc, List, Some, length, slice_get};
ghost use Rattle.ark_vic.specs.Pace.{WithinRate, Pace, Pass, IsPaceOf, with_fill};
ghost use Rattle.ark_vsic.specs.Card.{Areas, Card};
ghost use Rattle.ark_vsic.specs.Moves.{due_of};
ghost use Rattle.ark_vic.specs.Queue.{finished};
ghost use Rattle.ark_vic.specs.declared.descriptor.Descriptor.{Descriptor};
ghost use Rattle.ark_base.specs.declared.kind.Outcome.TheVariants as outcome;
ghost use Rattle.ark_vsic.specs.Own.{IsItsOwn, IsPacedFor};
ghost use Rattle.ark_vsic.specs.Places.{place_after, place_of};
ghost use Rattle.ark_vsic.specs.Runs.{CanTransfer, after_moves, with_moved};
ghost use Rattle.ark_vsic.specs.declared.due.Due.TheVariants as due;

/// The place of a descriptor's block in closed form is what its blocks come to from one to the next, also where they wrap. A
/// descriptor that begins at `wrap` or behind it goes round in the ring of the blocks from there on.
pub fn place_laws()
    ensures stepwise { (n wrap first k : ℕ)
        → place_of n wrap first k ≡ place_after n wrap first k }
    ensures in_ring { (n wrap first k : ℕ) → 0 < wrap → wrap ≤ first → first < n
        → place_of n wrap first k ≡ wrap + (first - wrap + k) % (n - wrap) }
{}

/// A block that is due is one of an area that is bound and held, at the oldest descriptor's place, and its 512 bytes keep the
/// law of the card's rate, whatever passes that stands for; a card waits only where they would break it.
pub fn due_laws()
    ensures own { (card : Card) (held : Areas) (now n : ℕ)
        → due_of card held now ≡ due.Block n → IsItsOwn card held n }
    ensures keeps { (card : Card) (held : Areas) (now n : ℕ) (r : Pace) (p : List Pass)
        → IsPacedFor card r p now → due_of card held now ≡ due.Block n
        → WithinRate r.per_tick r.burst (p ++ (now, 512) ∷ []) }
    ensures stands { (card : Card) (held : Areas) (now n : ℕ) (r : Pace) (p : List Pass)
        → IsPacedFor card r p now → due_of card held now ≡ due.Block n
        → IsPaceOf (with_fill r 512 now) (p ++ (now, 512) ∷ []) }
    ensures waits { (card : Card) (held : Areas) (now : ℕ) (r : Pace) (p : List Pass)
        → IsPacedFor card r p now → due_of card held now ≡ due.Waits
        → ¬ WithinRate r.per_tick r.burst (p ++ (now, 512) ∷ []) }
{}

/// Where no move fails, a descriptor ends `Ok` after exactly as many moves as it has blocks left, each of them the next block
/// at the descriptor's places; before the last, all that has changed is how many have moved.
pub fn transfer_laws()
    ensures goes_on { (card : Card) (held : Areas) (now : ℕ) (d : Descriptor) (blocks : List ℕ)
        → CanTransfer card held d blocks → (j : ℕ) → card.ring.moved + j < d.count
        → after_moves j card held now ≡ with_moved card (card.ring.moved + j) }
    ensures touches { (card : Card) (held : Areas) (now : ℕ) (d : Descriptor) (blocks : List ℕ)
        → CanTransfer card held d blocks → (j n : ℕ) → card.ring.moved + j < d.count
        → slice_get blocks (place_after (length blocks) d.wrap d.first (card.ring.moved + j)) ≡ Some n
        → due_of (after_moves j card held now) held now ≡ due.Block n }
    ensures ends { (card : Card) (held : Areas) (now : ℕ) (d : Descriptor) (blocks : List ℕ)
        → CanTransfer card held d blocks → (j : ℕ) → card.ring.moved + suc j ≡ d.count
        → after_moves (suc j) card held now
        ≡ record card { ring = finished card.ring d outcome.Ok 0 } }
{}
