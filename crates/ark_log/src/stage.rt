ghost use Rattle.std.specs.Prelude.{◌≡◌, slice_get};
ghost use Rattle.ark_log.specs.Stages.{stages_of};

use crate::command::Command;

/// What a descriptor of a command is for.
#[derive(Clone, Copy, Debug, PartialEq, Eq)]
pub enum Stage {
    /// The entry's blocks are read.
    Load,
    /// The entry's blocks are written, without its marker.
    Draft,
    /// The entry's last block is written, with its marker.
    Mark,
    /// The header is written.
    Header,
    /// Zeros are written to the blocks of the entries that are dropped.
    Clear,
    /// What was written is made durable.
    Flush,
}

/// The stage of a command behind so many of its stages; `None` exactly where it has no more.
pub(crate) fn stage_of(command: Command, done: u32) -> Option<Stage>
    ensures { result ≡ slice_get (stages_of command) done }
{
    let stages: &[Stage] = match command {
        Command::Append(_) => &[Stage::Draft, Stage::Flush, Stage::Mark, Stage::Flush],
        Command::Trim(_) => &[Stage::Header, Stage::Flush, Stage::Clear, Stage::Flush],
        Command::Pop(_) => &[
            Stage::Load,
            Stage::Header,
            Stage::Flush,
            Stage::Clear,
            Stage::Flush,
        ],
    };
    stages.get(done as usize).copied()
}
