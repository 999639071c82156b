ghost use Rattle.std.specs.Prelude.{◌≡◌, ◌≤◌, ◌<◌, ◌+◌, ◌↔◌, ◌++◌, ◌∷◌, [], List, IsTrue};

use std::marker::Model;

/// A pace of `per_tick` bytes a tick with a burst of `burst` bytes: in the ticks s to t at most
/// `burst + per_tick * (t - s)` bytes pass, whatever s and t are.
///
/// In place of the passes one number is kept: `fill`, the bytes that they still take of the burst at `tick`. Contracts see
/// these four numbers, and say of every list of passes that they stand for what the answers mean.
#[derive(Drop, Debug)]
pub struct Rate {
    per_tick: u64,
    burst: u64,
    tick: u64,
    fill: u64,
}

impl Model for Rate {
    ghost use Rattle.std.specs.Prelude.{◌≤◌};
    ghost use Rattle.ark_vic.specs.Pace.{Pace};

    ghost Value = { Pace };

    ghost view = { λ r. record {
      per_tick = r.per_tick;
      burst = r.burst;
      tick = r.tick;
      fill =
          r.fill;
    } };

    ghost invariant = { λ r. r.fill ≤ r.burst };
}

impl Rate {
    ghost use Rattle.ark_vic.specs.Pace.{Pass, IsPaceOf, WithinRate, fill_at, with_fill};

    /// A pace of `q` bytes a tick and a burst of `b` bytes, assigned at tick `now`. It stands for no pass.
    pub fn new(q: u64, b: u64, now: u64) -> Rate
        ensures value { result ≡ record { per_tick = q; burst = b; tick = now; fill = 0 } }
        ensures stands { IsPaceOf result [] }
    {
        Rate {
            per_tick: q,
            burst: b,
            tick: now,
            fill: 0,
        }
    }

    // What the passes so far take of the burst at a tick, at one before the last of them as then.
    fn fill_now(&self, now: u64) -> u64
        ensures value { result ≡ fill_at self.now now }
        ensures within { result ≤ self.now.burst }
    {
        let ticks = now.saturating_sub(self.tick);
        self.fill
            .saturating_sub(self.per_tick.saturating_mul(ticks))
    }

    /// Whether a pass of `len` bytes at tick `now` keeps the law, for the passes that the rate stands
    /// for, none of them later.
    pub fn may(&self, len: u32, now: u64) -> bool
        ensures by_number { IsTrue result ↔ (fill_at self.now now + len ≤ self.now.burst) }
        ensures by_law { (p : List Pass) → IsPaceOf self.now p → self.now.tick ≤ now
            → (IsTrue result ↔ WithinRate self.now.per_tick self.now.burst (p ++ (now, len) ∷ [])) }
    {
        u64::from(len) <= self.burst - self.fill_now(now)
    }

    /// Adds a pass of `len` bytes at tick `now`, which may go.
    pub fn passed(&mut self, len: u32, now: u64)
        requires { fill_at self.old now + len ≤ self.old.burst }
        ensures value { self.new ≡ with_fill self.old len now }
        ensures stands { (p : List Pass) → IsPaceOf self.old p → self.old.tick ≤ now
            → IsPaceOf self.new (p ++ (now, len) ∷ []) }
    {
        self.fill = self.fill_now(now) + u64::from(len);
        self.tick = now;
    }

    /// Whether `len` bytes are more than the burst: such a pass never keeps the law.
    pub fn over_burst(&self, len: u32) -> bool
        ensures { IsTrue result ↔ (self.now.burst < len) }
    {
        u64::from(len) > self.burst
    }
}
