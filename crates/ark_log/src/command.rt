use ark_region::Buf;

/// A command of a log or queue, with a number.
#[derive(Clone, Copy, Debug, PartialEq, Eq)]
pub enum Command {
    /// To add an entry, of this number.
    Append(u64),
    /// To drop the entries below this number.
    Trim(u64),
    /// To drop the first entry, of this number.
    Pop(u64),
}

/// Why a command was not accepted.
#[derive(Clone, Copy, Debug, PartialEq, Eq)]
pub enum ChainRefusal {
    /// A descriptor of the log has failed since it was opened.
    Failed,
    /// 8 commands wait.
    Busy,
    /// There is no room for the entry, or no number.
    LogFull,
    /// There is no such entry.
    NoEntry,
    /// The region has no place for the buffer.
    NoBuffer,
}

/// A command that waits. `len` is the length of its entry, and 0 for a trim, which has no buffer; `start` is the frame of the
/// region where its buffer begins. A descriptor that is posted has the buffer.
#[derive(Drop, Debug)]
pub struct Waiting {
    pub command: Command,
    pub len: u32,
    pub start: u32,
    pub buf: Option<Buf>,
}
