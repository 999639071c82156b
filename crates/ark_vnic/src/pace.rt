ghost use Rattle.std.specs.Prelude.{◌≡◌, true};
ghost use Rattle.ark_vnic.specs.Card as spec;
ghost use Rattle.ark_vnic.specs.Sending as sending;

use crate::sent::Sent;
use ark_vic::Rate;

// Whether so many bytes may pass now.
pub(crate) fn may_pass(pace: &Option<Rate>, len: u32, now: u64) -> bool
    ensures { result ≡ spec.may_pass pace.now len now }
{
    let Some(rate) = pace else {
        return true;
    };
    rate.may(len, now)
}

// So many bytes pass now.
pub(crate) fn pass(pace: &mut Option<Rate>, len: u32, now: u64)
    requires { spec.may_pass pace.old len now ≡ true }
    ensures { pace.new ≡ spec.passed pace.old len now }
{
    if let Some(rate) = pace {
        rate.passed(len, now);
    }
}

// What becomes of a frame of so many bytes, which a filter lets out.
pub(crate) fn sent_paced(pace: &Option<Rate>, len: u32, now: u64) -> Sent
    ensures { result ≡ sending.sent_paced pace.now len now }
{
    let Some(rate) = pace else {
        return Sent::Frame(len);
    };
    if rate.over_burst(len) {
        return Sent::OverBurst;
    }
    if rate.may(len, now) {
        Sent::Frame(len)
    } else {
        Sent::Held
    }
}
