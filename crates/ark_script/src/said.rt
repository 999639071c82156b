use ark_base::{AppName, Label, Outcome, Refusal};

/// What a line is answered. Where it shows bytes, they stand beside it.
#[derive(Clone, Copy, Debug, PartialEq, Eq)]
pub enum Said {
    /// The device is open: its number of blocks, and of slots in use.
    Ready(u32, u16),
    /// The line was accepted.
    Ok,
    /// It was accepted, with a number: of an entry, or the tick.
    Num(u64),
    /// A log or queue was opened: its first number, and how many entries it has.
    Pair(u64, u64),
    /// How often each bell of a doorbell rang: receive, transmit, storage.
    Rings(u64, u64, u64),
    /// The bytes that were asked for.
    Bytes,
    /// There is nothing to take.
    Nothing,
    /// A command's next phase was posted.
    Posted,
    /// The log's card is held by its rate.
    OkHeld,
    /// A read of blocks into this buffer has ended.
    Got(Label, Outcome),
    /// A write of blocks from this buffer has ended.
    Put(Label, Outcome),
    /// A sync has ended.
    Flushed(Outcome),
    /// A frame of so many bytes stands in this buffer.
    TakenRx(Label, u32),
    /// Sending a frame from this buffer has ended.
    TakenTx(Label, Outcome),
    /// A datagram from this address and port, with its bytes.
    Datagram([u8; 4], u16),
    /// Nothing is posted.
    Idle,
    /// The move would break the queue's rate.
    Held,
    /// One block was moved, and others are due.
    Moved,
    /// The descriptor has ended.
    Done(Outcome),
    /// A frame went out, with its bytes.
    Sent,
    /// The frame stands in a buffer of this application's card.
    Delivered(AppName, Label),
    /// No assigned filter takes the frame.
    DroppedNoFilter,
    /// The card has no buffer posted.
    DroppedNoBuffer(AppName, Label),
    /// The frame is longer than the card's next buffer.
    DroppedTooLong(AppName, Label),
    /// The frame would break the rate of the card's receive queue.
    DroppedThrottled(AppName, Label),
    /// The log's entry of this number is persistent.
    AckedAppend(u64),
    /// The queue's entry of this number is persistent.
    AckedPush(u64),
    /// The log begins at this number.
    AckedTrim(u64),
    /// The queue's entry of this number is dropped, with its bytes.
    AckedPop(u64),
    /// The log has failed.
    Failed(Outcome),
    /// The line was refused.
    Refused(Refusal),
}
