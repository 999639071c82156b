// Laws of the definitions, each the contract of a function that does nothing.
ghost use Rattle.std.specs.Prelude.{◌≡◌, ◌≤◌, ◌+◌, ◌-◌, ◌*◌, ◌↔◌, ◌++◌, ◌∷◌, [], ℕ, List};
ghost use Rattle.ark_vic.specs.Pace.{Pass, WithinRate, NoneAfter, fill_of};

/// Passes and one more are kept exactly where the passes are kept and what they fill leaves room for it; and a fill falls
/// by `q` bytes a tick, down to none.
pub fn rate_laws()
    ensures kept { (q b t n : ℕ) (p : List Pass) → NoneAfter t p
        → (WithinRate q b (p ++ (t, n) ∷ []) ↔ (WithinRate q b p × (fill_of q p t + n ≤ b))) }
    ensures added { (q t n u : ℕ) (p : List Pass) → NoneAfter t p → t ≤ u
        → fill_of q (p ++ (t, n) ∷ []) u ≡ (fill_of q p t + n) - q * (u - t) }
    ensures later { (q t u : ℕ) (p : List Pass) → NoneAfter t p → t ≤ u
        → fill_of q p u ≡ fill_of q p t - q * (u - t) }
{}
