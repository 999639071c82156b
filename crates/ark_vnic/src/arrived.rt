/// What becomes of a frame that arrives.
#[derive(Clone, Copy, Debug, PartialEq, Eq)]
pub enum Arrived {
    /// It stands in the oldest posted buffer, whose descriptor has ended.
    Into,
    /// It is dropped: nothing is posted to receive.
    NoBuffer,
    /// It is dropped: it is longer than the oldest posted buffer.
    TooLong,
    /// It is dropped: the rate law would break.
    Throttled,
}
