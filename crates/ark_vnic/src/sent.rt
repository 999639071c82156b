/// What becomes of the oldest frame that is posted to be sent.
#[derive(Clone, Copy, Debug, PartialEq, Eq)]
pub enum Sent {
    /// No frame is posted.
    Idle,
    /// It waits: the rate law would break.
    Held,
    /// It goes out; so many bytes.
    Frame(u32),
    /// It ends: no transmit filter of the card lets it out.
    NoFilter,
    /// It ends: it is longer than the burst.
    OverBurst,
}
