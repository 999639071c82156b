/// What a rate allows each queue that it paces.
#[derive(Clone, Copy, Debug, PartialEq, Eq)]
pub struct Allowance {
    /// Bytes a tick.
    pub per_tick: u64,
    /// Bytes of a burst.
    pub burst: u64,
}
