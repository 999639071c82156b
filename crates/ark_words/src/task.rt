use thiserror::Error;

/// What the words of the command line ask for.
#[derive(Clone, Copy, Debug)]
pub enum Task<'a> {
    /// Runs the script over a device, which is first made with so many blocks where a number is given.
    Run {
        new: Option<u32>,
        device: &'a str,
    },
    /// Reads a device, and writes nothing to it.
    Check {
        device: &'a str,
    },
    /// Makes a device, and runs a script of so many lines over it that comes from the seed.
    Work {
        seed: u64,
        lines: u32,
        device: &'a str,
    },
}

/// Why words give no task.
#[derive(Clone, Copy, Debug, Error)]
pub enum WordsFault {
    /// They are of no command.
    #[error("the words are of no command")]
    Usage,
    /// There was no memory to read them.
    #[error("no memory")]
    Memory,
}
