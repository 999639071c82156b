// Laws of moves of the card on which a log is open.
ghost use Rattle.std.specs.Prelude.{◌≡◌, ◌∷◌, ℕ, List, [], Some, IfSome, slice_get};
ghost use Rattle.std.specs.List.{AllByRecursion};
ghost use Rattle.ark_media.specs.Journal.{Event, History};
ghost use Rattle.ark_media.specs.Calls.{Call};
ghost use Rattle.ark_media.specs.Standing.{after};
ghost use Rattle.ark_region.specs.Frames.{Apart, Piece, Space, bytes_of};
ghost use Rattle.ark_vic.specs.declared.descriptor.Descriptor.{Descriptor};
ghost use Rattle.ark_vic.specs.Queue.{Queue};
ghost use Rattle.ark_vsic.specs.Card.{Areas, Card, head_of};
ghost use Rattle.ark_vsic.specs.Moves.{CanMove, area_of, calls_of, due_by, due_of, due_paced, ring_after};
ghost use Rattle.ark_vsic.specs.declared.due.Moved.{Moved};
ghost use Rattle.ark_caladan.specs.Chain.{Log, Opened};
ghost use Rattle.ark_caladan.specs.Listed.{WritesFull};
ghost use Rattle.ark_caladan.specs.Open.{Layout};
ghost use Rattle.ark_caladan.specs.Views.{AreApart, Elsewhere};
ghost use Rattle.ark_log.specs.declared.stage.Stage.{Stage};
ghost use Rattle.ark_log.specs.Open.{OpenChain};
ghost use Rattle.ark_log.specs.Polled.{stage_of};
ghost use Rattle.ark_running.specs.Accepted.{with_opened};
ghost use Rattle.ark_running.specs.Buffers.{pieces_of};
ghost use Rattle.ark_running.specs.Moving.{HasMoved, decided_by_all};
ghost use Rattle.ark_running.specs.Running.{IsRunning};

/// What is due on its card, which has its area: a sync, or a block of that area as the card's pace lets it pass. Its call goes to no
/// block of another area, and writes whole blocks.
pub fn due_laws()
    ensures sound { (h : History) (blocks : List ℕ) (space : Space) (ring : Queue) (v : OpenChain)
        (p : Layout) (g : Log) (o : Opened) → IsRunning h blocks space ring v p g o
        → IfSome (head_of ring) (λ d. CanMove space.taken ring.moved d) }
    ensures due { (h : History) (blocks : List ℕ) (space : Space) (card : Card) (v : OpenChain)
        (p : Layout) (g : Log) (o : Opened) (held : Areas) (now : ℕ) (d : Descriptor)
        → IsRunning h blocks space card.ring v p g o
        → area_of v.grant card.bound held ≡ Some blocks → slice_get card.ring.posted 0 ≡ Some d
        → (n : ℕ) × (due_of card held now ≡ due_by d.job (due_paced card.pace now n)) }
    ensures elsewhere { (h : History) (blocks : List ℕ) (space : Space) (card : Card)
        (v : OpenChain) (p : Layout) (g : Log) (o : Opened) (held : Areas) (now : ℕ)
        → IsRunning h blocks space card.ring v p g o
        → area_of v.grant card.bound held ≡ Some blocks
        → (other : List ℕ) → AreApart blocks other → (call : Call)
        → calls_of card (due_of card held now) space ≡ call ∷ [] → Elsewhere other call }
    ensures full { (h : History) (blocks : List ℕ) (space : Space) (card : Card)
        (v : OpenChain) (p : Layout) (g : Log) (o : Opened) (held : Areas) (now : ℕ)
        → IsRunning h blocks space card.ring v p g o
        → area_of v.grant card.bound held ≡ Some blocks → (call : Call)
        → calls_of card (due_of card held now) space ≡ call ∷ [] → WritesFull call }
{}

/// It runs on when its card moves, whatever comes of that: a block moves, its descriptor ends well or badly, or it is held by its
/// pace. Where the write that decides was tried, its machine's log says whether that took. Bytes apart from all its buffers stay.
pub fn moving_laws()
    ensures moves { (h : History) (blocks : List ℕ) (old new : Space) (card : Card) (v : OpenChain)
        (p : Layout) (g : Log) (o : Opened) (held : Areas) (now : ℕ) (events : List Event)
        (result : Moved) (d : Descriptor) (stage : Stage)
        → IsRunning h blocks old card.ring v p g o
        → area_of v.grant card.bound held ≡ Some blocks → slice_get card.ring.posted 0 ≡ Some d
        → stage_of v ≡ Some stage → HasMoved card held now h old new events result
        → let o2 = decided_by_all stage events o in
        IsRunning (after h events) blocks new (ring_after card.ring result) v p
        (with_opened g o2) o2 }
    ensures beside { (h : History) (blocks : List ℕ) (old new : Space) (card : Card)
        (v : OpenChain) (p : Layout) (g : Log) (o : Opened) (held : Areas) (now : ℕ)
        (events : List Event) (result : Moved) → IsRunning h blocks old card.ring v p g o
        → area_of v.grant card.bound held ≡ Some blocks
        → HasMoved card held now h old new events result → (b : Piece)
        → AllByRecursion (λ a. Apart a b) (pieces_of v) → bytes_of new b ≡ bytes_of old b }
{}
