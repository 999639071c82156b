// Laws of the definitions, each the contract of a function that does nothing.
ghost use Rattle.std.specs.Prelude.{◌≡◌, ◌≤◌, ◌++◌, ◌∷◌, [], ℕ, List, Option, IfSome};
ghost use Rattle.ark_packet.specs.declared.own.Own.{Own};
ghost use Rattle.ark_filters.specs.declared.live.Live.{Live};
ghost use Rattle.ark_region.specs.Frames.{Space};
ghost use Rattle.ark_vic.specs.Pace.{WithinRate, Pace, Pass, IsPaceOf, with_fill};
ghost use Rattle.ark_vnic.specs.Card.{NetCard, IsPacedFor, head_of};
ghost use Rattle.ark_vnic.specs.Arrivals.{arrived_of, room_of};
ghost use Rattle.ark_vnic.specs.Sending.{sent_of};
ghost use Rattle.ark_vnic.specs.LetOut.{IsLetOut};
ghost use Rattle.ark_vnic.specs.declared.arrived.Arrived.TheVariants as arrived;
ghost use Rattle.ark_vnic.specs.declared.sent.Sent.TheVariants as sent;

/// A frame that is delivered fits the oldest posted buffer, and its bytes keep the law of the receive ring's rate, whatever
/// passes that stands for; a frame is throttled only where they would break it.
pub fn arrival_laws()
    ensures fits { (card : NetCard) (len now : ℕ) → arrived_of card len now ≡ arrived.Into
        → IfSome (head_of card.rx) (λ d. len ≤ room_of d) }
    ensures keeps { (card : NetCard) (len now : ℕ) (r : Pace) (p : List Pass)
        → IsPacedFor card.rx_pace r p now → arrived_of card len now ≡ arrived.Into
        → WithinRate r.per_tick r.burst (p ++ (now, len) ∷ []) }
    ensures stands { (card : NetCard) (len now : ℕ) (r : Pace) (p : List Pass)
        → IsPacedFor card.rx_pace r p now → arrived_of card len now ≡ arrived.Into
        → IsPaceOf (with_fill r len now) (p ++ (now, len) ∷ []) }
    ensures throttled { (card : NetCard) (len now : ℕ) (r : Pace) (p : List Pass)
        → IsPacedFor card.rx_pace r p now → arrived_of card len now ≡ arrived.Throttled
        → ¬ WithinRate r.per_tick r.burst (p ++ (now, len) ∷ []) }
{}

/// A frame goes out only where it is the oldest posted one and a live transmit filter that is assigned to the card matches it,
/// and its bytes keep the law of the transmit ring's rate, whatever passes that stands for; it waits only where they would
/// break it.
pub fn sending_laws()
    ensures let_out { (card : NetCard) (rules : List Live) (own : Own) (space : Space)
        (now len : ℕ) → sent_of card rules own space now ≡ sent.Frame len
        → IsLetOut card rules own space len }
    ensures keeps { (card : NetCard) (rules : List Live) (own : Own) (space : Space)
        (now len : ℕ) (r : Pace) (p : List Pass) → IsPacedFor card.tx_pace r p now
        → sent_of card rules own space now ≡ sent.Frame len
        → WithinRate r.per_tick r.burst (p ++ (now, len) ∷ []) }
    ensures stands { (card : NetCard) (rules : List Live) (own : Own) (space : Space)
        (now len : ℕ) (r : Pace) (p : List Pass) → IsPacedFor card.tx_pace r p now
        → sent_of card rules own space now ≡ sent.Frame len
        → IsPaceOf (with_fill r len now) (p ++ (now, len) ∷ []) }
    ensures waits { (card : NetCard) (rules : List Live) (own : Own) (space : Space)
        (now : ℕ) (r : Pace) (p : List Pass) → IsPacedFor card.tx_pace r p now
        → sent_of card rules own space now ≡ sent.Held
        → IfSome (head_of card.tx) (λ d.
        ¬ WithinRate r.per_tick r.burst (p ++ (now, d.len) ∷ [])) }
{}
