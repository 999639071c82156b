ghost use Rattle.std.specs.Prelude.{◌≡◌, ℕ, List, Option, Err, map, string_bytes, IfOk};
ghost use Rattle.ark_words.specs.Told.{told};
ghost use Rattle.ark_cli.specs.Words.{AsksFor};
ghost use Rattle.ark_cli.specs.Asked.{IsAsked, IsOf};

use ark_words::{Task, WordsFault};
use std::alloc::Global;

/// What words ask for.
#[derive(Clone, Copy, Debug)]
pub enum Asked<'a> {
    /// `run --new N DEVICE`: the blocks of the device that is to be made, and its name.
    New(u32, &'a str),
    /// `run DEVICE`: a device that was there.
    Old(&'a str),
    /// `check DEVICE`.
    Check(&'a str),
    /// `work SEED LINES DEVICE`.
    Work(u64, u32, &'a str),
}

// What a task asks for.
fn asked_by(task: Task<'_>) -> Asked<'_>
    ensures { IsOf result (told task.entry) }
{
    match task {
        Task::Run {
            new: Some(blocks),
            device,
        } => Asked::New(blocks, device),
        Task::Run { new: None, device } => Asked::Old(device),
        Task::Check { device } => Asked::Check(device),
        Task::Work {
            seed,
            lines,
            device,
        } => Asked::Work(seed, lines, device),
    }
}

/// What words ask for. `Usage` says that they are no command, and `Memory` that memory ran out.
pub fn read_words<'a>(alloc: Global, words: &'a [String]) -> Result<Asked<'a>, WordsFault>
    ensures asked { IfOk result (λ a. IsAsked (map string_bytes words.entry.now) a) }
    ensures usage { result ≡ Err WordsFault.Usage → (blocks : Option ℕ) (device : List ℕ) →
        AsksFor (map string_bytes words.entry.now) blocks device → ⊥ }
{
    match ark_words::read_words(alloc, words) {
        Err(fault) => Err(fault),
        Ok(task) => Ok(asked_by(task)),
    }
}
