//! The task that words give.
ghost use Rattle.std.specs.Prelude.{◌≡◌, ◌∷◌, IfOk, codes, map, string_bytes};
ghost use Rattle.ark_words.specs.Words.{Command, IsCommand};
ghost use Rattle.ark_words.specs.Told.{told};

use crate::number::read_number;
use crate::sorting::{check_words, run_words, work_words};
use crate::task::{Task, WordsFault};
use std::alloc::Global;

// A device that is made has at least and at most so many blocks.
const FEWEST_BLOCKS: u64 = 130;

const MOST_BLOCKS: u64 = 1_048_576;

const MOST_LINES: u64 = 1_000_000;

/// Reads the words after the program's name. `Usage` says that they are of no command, and `Memory` that memory ran out.
#[tactic(auto, using(crate::proofs::Given::only))]
pub fn read_words<'a>(alloc: Global, words: &'a [String]) -> Result<Task<'a>, WordsFault>
    ensures task { IfOk result (λ task. IsCommand (map string_bytes words.entry.now) (told task)) }
    ensures only { IfOk result (λ task. (c : Command) →
        IsCommand (map string_bytes words.entry.now) c → c ≡ told task) }
    ensures usage { result ≡ Err WordsFault.Usage
        → (c : Command) → IsCommand (map string_bytes words.entry.now) c → ⊥ }
{
    let Some((name, rest)) = words.split_first() else {
        return Err(WordsFault::Usage);
    };
    if name.as_str() == "run" {
        read_run(alloc, rest)
    } else if name.as_str() == "check" {
        read_check(alloc, rest)
    } else if name.as_str() == "work" {
        read_work(alloc, rest)
    } else {
        Err(WordsFault::Usage)
    }
}

// `run`, by the words after it.
fn read_run<'a>(alloc: Global, words: &'a [String]) -> Result<Task<'a>, WordsFault>
    ensures task { IfOk result
        (λ task. IsCommand (codes "run" ∷ map string_bytes words.entry.now) (told task)) }
    ensures usage { result ≡ Err WordsFault.Usage
        → (c : Command) → IsCommand (codes "run" ∷ map string_bytes words.entry.now) c → ⊥ }
{
    let (new, device) = run_words(alloc, words)?;
    if device.is_empty() {
        return Err(WordsFault::Usage);
    }
    let Some(text) = new else {
        return Ok(Task::Run { new: None, device });
    };
    let Some(blocks) = read_number(text, FEWEST_BLOCKS, MOST_BLOCKS) else {
        return Err(WordsFault::Usage);
    };
    Ok(Task::Run {
        new: Some(blocks as u32),
        device,
    })
}

// `check`, by the words after it.
fn read_check<'a>(alloc: Global, words: &'a [String]) -> Result<Task<'a>, WordsFault>
    ensures task { IfOk result
        (λ task. IsCommand (codes "check" ∷ map string_bytes words.entry.now) (told task)) }
    ensures usage { result ≡ Err WordsFault.Usage
        → (c : Command) → IsCommand (codes "check" ∷ map string_bytes words.entry.now) c → ⊥ }
{
    let device = check_words(alloc, words)?;
    if device.is_empty() {
        return Err(WordsFault::Usage);
    }
    Ok(Task::Check { device })
}

// `work`, by the words after it.
fn read_work<'a>(alloc: Global, words: &'a [String]) -> Result<Task<'a>, WordsFault>
    ensures task { IfOk result
        (λ task. IsCommand (codes "work" ∷ map string_bytes words.entry.now) (told task)) }
    ensures usage { result ≡ Err WordsFault.Usage
        → (c : Command) → IsCommand (codes "work" ∷ map string_bytes words.entry.now) c → ⊥ }
{
    let (seed, lines, device) = work_words(alloc, words)?;
    if device.is_empty() {
        return Err(WordsFault::Usage);
    }
    let Some(seed) = read_number(seed, 0, u64::MAX) else {
        return Err(WordsFault::Usage);
    };
    let Some(lines) = read_number(lines, 0, MOST_LINES) else {
        return Err(WordsFault::Usage);
    };
    Ok(Task::Work {
        seed,
        lines: lines as u32,
        device,
    })
}
