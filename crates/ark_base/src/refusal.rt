ghost use Rattle.std.specs.Prelude.{◌≡◌};

use crate::name::{AppName, Label};

/// Why a line of a script was refused. The variants stand in the order of their numbers, 1 to 24.
#[derive(Clone, Copy, Debug, PartialEq, Eq)]
pub enum Refusal {
    /// The line is not of its word's form.
    Syntax,
    /// The line begins with none of the words.
    UnknownWord,
    /// The named application was not made in this run.
    NoApplication,
    /// The name is in use.
    NameTaken,
    /// The application does not hold this label.
    NoGrant(Label),
    /// A label's object is of another kind than the word asks.
    WrongKind,
    /// A count stands at its limit.
    Limit,
    /// No network side was set.
    NoNic,
    /// The place passes the end of an area or a buffer.
    OutOfRange,
    /// Fewer blocks are free than were asked for.
    NoSpace,
    /// The free blocks form too many runs.
    Scattered,
    /// Some frame would match this application's live filter too.
    Overlap(AppName, Label),
    /// The ring has no place.
    RingFull,
    /// The application's memory has no place for a buffer.
    NoBuffer,
    /// The buffer is in a descriptor.
    Lent,
    /// The object is in use.
    Busy,
    /// The log failed and has to be opened again.
    LogFailed,
    /// The log has no room for the entry.
    LogFull,
    /// There is no such entry.
    NoEntry,
    /// Want of memory.
    NoMemory,
    /// A device call failed.
    DeviceFault,
    /// The table of grants on the device failed earlier in this run.
    TableFailed,
    /// The log or queue is damaged from this entry on.
    Damaged(u64),
    /// The line has more than 66,000 bytes.
    TooLong,
}

impl Refusal {
    ghost use Rattle.ark_base.specs.Refusal.{number_of};

    /// The number that a reply names, 1 to 24.
    pub fn number(&self) -> u8
        ensures { result ≡ number_of self.now }
    {
        match self {
            Refusal::Syntax => 1,
            Refusal::UnknownWord => 2,
            Refusal::NoApplication => 3,
            Refusal::NameTaken => 4,
            Refusal::NoGrant(_) => 5,
            Refusal::WrongKind => 6,
            Refusal::Limit => 7,
            Refusal::NoNic => 8,
            Refusal::OutOfRange => 9,
            Refusal::NoSpace => 10,
            Refusal::Scattered => 11,
            Refusal::Overlap(_, _) => 12,
            Refusal::RingFull => 13,
            Refusal::NoBuffer => 14,
            Refusal::Lent => 15,
            Refusal::Busy => 16,
            Refusal::LogFailed => 17,
            Refusal::LogFull => 18,
            Refusal::NoEntry => 19,
            Refusal::NoMemory => 20,
            Refusal::DeviceFault => 21,
            Refusal::TableFailed => 22,
            Refusal::Damaged(_) => 23,
            Refusal::TooLong => 24,
        }
    }
}
