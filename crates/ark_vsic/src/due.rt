ghost use Rattle.std.specs.Prelude.{◌≡◌};
ghost use Rattle.ark_vsic.specs.Moves as spec;

use ark_base::Outcome;
use ark_vic::Rate;

/// What a block passes of a rate, in bytes.
pub(crate) const PASS: u32 = 512;

/// What a card does next.
#[derive(Clone, Copy, Debug, PartialEq, Eq)]
pub enum Due {
    /// Nothing: no descriptor is posted.
    Nothing,
    /// Nothing yet: the rate law would break.
    Waits,
    /// To end the oldest descriptor so, with no device call.
    Ends(Outcome),
    /// To sync.
    Sync,
    /// To try the oldest descriptor's next block, which is this block of the device.
    Block(u32),
}

/// What a move came to.
#[derive(Clone, Copy, Debug, PartialEq, Eq)]
pub enum Moved {
    /// No descriptor is posted.
    Idle,
    /// The rate law would break.
    Held,
    /// One block moved, and not the last of its descriptor.
    Block,
    /// The oldest descriptor has ended so.
    Done(Outcome),
}

// What is due where a block's place is in its area.
pub(crate) fn paced(pace: &Option<Rate>, now: u64, n: u32) -> Due
    ensures { result ≡ spec.due_paced pace.now now n }
{
    let Some(rate) = pace else {
        return Due::Block(n);
    };
    if rate.over_burst(PASS) {
        return Due::Ends(Outcome::OverBurst);
    }
    if rate.may(PASS, now) {
        Due::Block(n)
    } else {
        Due::Waits
    }
}

// How the one device call of a descriptor ended.
pub(crate) fn outcome_of(ok: bool) -> Outcome
    ensures { result ≡ spec.outcome_of ok }
{
    if ok {
        Outcome::Ok
    } else {
        Outcome::DeviceFault
    }
}
