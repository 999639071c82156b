ghost use Rattle.std.specs.Prelude.{◌≡◌};

/// Want of memory.
#[derive(Clone, Copy, Debug, PartialEq, Eq)]
pub struct Memory;

/// How a command of the program ended.
#[derive(Clone, Copy, Debug, PartialEq, Eq)]
pub enum Status {
    /// The script came to its end, and every reply was put out.
    Done,
    /// The words are no command.
    Usage,
    /// The script could not be read on.
    Source,
    /// A reply could not be put out.
    Sink,
    /// The device could not be made, attached or opened.
    Device,
    /// Want of memory.
    Memory,
    /// This block of the device breaks the format.
    Damaged(u32),
    /// The script has more than 2^30 bytes.
    Long,
}

impl Status {
    ghost use Rattle.ark_base.specs.Status.{code_of};

    /// The exit status of the process.
    pub fn code(&self) -> u8
        ensures { result ≡ code_of self.now }
    {
        match self {
            Status::Done => 0,
            Status::Usage => 1,
            Status::Source => 2,
            Status::Sink => 3,
            Status::Device => 4,
            Status::Memory => 5,
            Status::Damaged(_) => 6,
            Status::Long => 7,
        }
    }
}
