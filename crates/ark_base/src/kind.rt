/// What a storage area holds.
#[derive(Clone, Copy, Debug, PartialEq, Eq)]
pub enum Kind {
    /// Blocks that the application reads and writes itself.
    Raw,
    /// A persistent log.
    Log,
    /// A persistent queue.
    Queue,
}

/// How a descriptor of a card's queue ended.
#[derive(Clone, Copy, Debug, PartialEq, Eq)]
pub enum Outcome {
    Ok,
    /// The area is not granted to the card any more.
    NoGrant,
    /// The place is not in the area.
    OutOfRange,
    /// More bytes than the queue's burst.
    OverBurst,
    /// The device failed.
    DeviceFault,
    /// No transmit filter of the card lets the frame out.
    NoFilter,
}
