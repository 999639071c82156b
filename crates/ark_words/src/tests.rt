use crate::{Task, WordsFault, read_words};
use std::alloc::{AllocError, Global};

// What the words ask for, as text. `EMPTY` stands for a word of no bytes.
fn asked(alloc: Global, words: &str) -> Result<String, AllocError> {
    let mut all = Vec::new(alloc);
    if !words.is_empty() {
        for word in words.split(' ') {
            let word = if word == "EMPTY" { "" } else { word };
            all.push(String::from_str(alloc, word)?)?;
        }
    }
    match read_words(alloc, all.as_slice()) {
        Ok(Task::Run { new: None, device }) => format!(in alloc; "run {device}"),
        Ok(
            Task::Run {
                new: Some(blocks),
                device,
            },
        ) => format!(in alloc; "run new {blocks} {device}"),
        Ok(Task::Check { device }) => format!(in alloc; "check {device}"),
        Ok(
            Task::Work {
                seed,
                lines,
                device,
            },
        ) => format!(in alloc; "work {seed} {lines} {device}"),
        Err(WordsFault::Usage) => String::from_str(alloc, "usage"),
        Err(WordsFault::Memory) => Err(AllocError),
    }
}

#[test]
fn runs(rt: HostRuntime) -> Result<(), AllocError> {
    for (words, task) in [
        ("run d", "run d"),
        ("run -", "run -"),
        ("run help", "run help"),
        ("run version", "run version"),
        ("run d=e", "run d=e"),
        ("run new", "run new"),
        ("run run", "run run"),
        ("run --new 200 d", "run new 200 d"),
        ("run --new=200 d", "run new 200 d"),
        ("run d --new 200", "run new 200 d"),
        ("run d --new=200", "run new 200 d"),
        ("run --new 130 d", "run new 130 d"),
        ("run --new 1048576 d", "run new 1048576 d"),
        ("run -- -x", "run -x"),
        ("run -- --", "run --"),
        ("run -- --new=200", "run --new=200"),
        ("run d --", "run d"),
        ("run --new 200 -- d", "run new 200 d"),
        ("run --new=200 -- -d", "run new 200 -d"),
        ("run --new 200 d --", "run new 200 d"),
    ] {
        assert_eq!(rt; asked(rt.alloc(), words)?.as_str(), task);
    }
    Ok(())
}

#[test]
fn checks_and_works(rt: HostRuntime) -> Result<(), AllocError> {
    for (words, task) in [
        ("check d", "check d"),
        ("check -", "check -"),
        ("check help", "check help"),
        ("check -- --new", "check --new"),
        ("check -- --new=200", "check --new=200"),
        ("work 1 2 d", "work 1 2 d"),
        ("work 0 0 d", "work 0 0 d"),
        (
            "work 18446744073709551615 1000000 d",
            "work 18446744073709551615 1000000 d",
        ),
        ("work -- 1 2 -", "work 1 2 -"),
        ("work 1 -- 2 -d", "work 1 2 -d"),
        ("work 1 2 d --", "work 1 2 d"),
    ] {
        assert_eq!(rt; asked(rt.alloc(), words)?.as_str(), task);
    }
    Ok(())
}

#[test]
fn refuses_other_runs(rt: HostRuntime) -> Result<(), AllocError> {
    for words in [
        "run",
        "run EMPTY",
        "run d e",
        "run d --new",
        "run --new",
        "run --new 200",
        "run --new=200",
        "run --new=200 --new=300 d",
        "run --new 200 --new 300 d",
        "run --new 200 d --new=200",
        "run --new 129 d",
        "run --new 1048577 d",
        "run --new 0200 d",
        "run --new +200 d",
        "run --new 18446744073709551816 d",
        "run --new=0x82 d",
        "run --new= d",
        "run --new EMPTY d",
        "run --new=200=3 d",
        "run --new -- 200 d",
        "run --new -- d",
        "run --new --new d",
        "run --new --new=200 d",
        "run --new -5 d",
        "run --new - d",
        "run --ne 200 d",
        "run --news 200 d",
        "run --news=200 d",
        "run -new 200 d",
        "run -n 200 d",
        "run -n200 d",
        "run -5",
        "run -x",
        "run -- --new 200",
        "run -- d --",
        "run -h",
        "run --help",
        "run --version",
        "run -V",
        "run ---",
        "run --=x d",
    ] {
        assert_eq!(rt; asked(rt.alloc(), words)?.as_str(), "usage");
    }
    Ok(())
}

#[test]
fn refuses_other_words(rt: HostRuntime) -> Result<(), AllocError> {
    for words in [
        "",
        "EMPTY",
        "d",
        "help",
        "--help",
        "help run",
        "-- run d",
        "--new 200 run d",
        "runs d",
        "Run d",
        "check",
        "check EMPTY",
        "check d e",
        "check --new 200 d",
        "check --new=200 d",
        "check d --new",
        "check -d",
        "work",
        "work 1 2",
        "work 1 2 EMPTY",
        "work 1 2 d e",
        "work -1 2 d",
        "work 01 2 d",
        "work 1 02 d",
        "work 18446744073709551616 1 d",
        "work 0 1000001 d",
        "work 0 d 1",
        "work --new 200 1 2 d",
    ] {
        assert_eq!(rt; asked(rt.alloc(), words)?.as_str(), "usage");
    }
    Ok(())
}
