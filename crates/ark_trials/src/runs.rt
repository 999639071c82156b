//! How a run is made in a test.

use ark_base::Status;
use ark_cli::arrakis;
use ark_memory::{Fail, MemoryWorld};
use std::alloc::Global;
use std::test::Fail as Failure;

/// The words of a command, which stand here behind one another with a comma between two; no text has no word.
pub(crate) fn words_of(alloc: Global, text: &str) -> Result<Vec<String>, Failure> {
    let mut words = Vec::new(alloc);
    if !text.is_empty() {
        for word in text.split(',') {
            words.push(String::from_str(alloc, word)?)?;
        }
    }
    Ok(words)
}

/// What came of a run.
#[derive(Drop)]
pub(crate) struct Finished {
    pub(crate) status: Status,
    pub(crate) world: MemoryWorld,
}

/// A run of these words on a device that is there and on this script, with ample room and these failures.
pub(crate) fn run_on(
    alloc: Global,
    device: &[u8],
    words: &str,
    script: &[u8],
    plan: &[Fail],
) -> Result<Finished, Failure> {
    let words = words_of(alloc, words)?;
    let mut world = MemoryWorld::new(alloc, device, 4096, script, plan, 400, 8000)?;
    let status = arrakis(alloc, &words, &mut world);
    Ok(Finished { status, world })
}

/// The same where no device is there.
pub(crate) fn run_words(
    alloc: Global,
    words: &str,
    script: &[u8],
    plan: &[Fail],
) -> Result<Finished, Failure> {
    run_on(alloc, b"", words, script, plan)
}

/// `run --new 200 d` on this script.
pub(crate) fn run(alloc: Global, script: &[u8], plan: &[Fail]) -> Result<Finished, Failure> {
    run_words(alloc, "run,--new,200,d", script, plan)
}
