//! The command `work`, against a run of the same script.

use crate::runs::words_of;
use ark_base::Status;
use ark_cli::arrakis;
use ark_memory::{Fail, MemoryWorld};
use ark_work::{LINE_ROOM, Lines};
use std::alloc::Global;
use std::test::Fail as Failure;

// Words of `work`, with their seed and their number of lines.
const WORKS: [(&str, u64, u32); 6] = [
    ("work,1,0,d", 1, 0),
    ("work,1,100,d", 1, 100),
    ("work,2,100,d", 2, 100),
    ("work,20260101,300,d", 20_260_101, 300),
    ("work,18446744073709551615,60,d", u64::MAX, 60),
    ("work,1,100000,d", 1, 100_000),
];

// The script of a seed, as `run` takes it.
fn script_of(alloc: Global, seed: u64, lines: u32) -> Result<Vec<u8>, Failure> {
    let mut script = Vec::new(alloc);
    let mut left = Lines::new(seed, lines);
    let mut line = [0; LINE_ROOM];
    for _ in 0..lines.saturating_add(16) {
        let len = left.next(&mut line).unwrap_or(0);
        for byte in &line[..len] {
            script.push(*byte)?;
        }
        script.push(b'\n')?;
    }
    Ok(script)
}

// Whether the line's first word is this one.
fn begins(line: &[u8], word: &[u8]) -> bool {
    match line.strip_prefix(word) {
        Some(rest) => rest.first().is_none_or(|byte| *byte == b' '),
        None => false,
    }
}

// How many lines behind the first begin with `ok`, with `refused`, and with another word.
fn beginnings(out: &[u8]) -> [u32; 3] {
    let [mut ok, mut refused, mut other] = [0u32; 3];
    for line in out.split(|byte| *byte == b'\n').skip(1) {
        if begins(line, b"ok") {
            ok = ok.saturating_add(1);
        } else if begins(line, b"refused") {
            refused = refused.saturating_add(1);
        } else if !line.is_empty() {
            other = other.saturating_add(1);
        }
    }
    [ok, refused, other]
}

// What these words come to, on a device that can be made and on this script, with ample room for so many lines and these
// failures.
fn work(
    alloc: Global,
    words: &str,
    lines: u32,
    script: &[u8],
    plan: &[Fail],
) -> Result<(Status, MemoryWorld), Failure> {
    let words = words_of(alloc, words)?;
    let calls = lines.saturating_mul(2).saturating_add(1_000);
    let text = lines.saturating_mul(30).saturating_add(1_000);
    let mut world = MemoryWorld::new(alloc, b"", 4096, script, plan, calls, text)?;
    let status = arrakis(alloc, &words, &mut world);
    Ok((status, world))
}

#[test]
fn tells_of_the_replies_of_a_run(rt: HostRuntime) -> Result<(), Failure> {
    let alloc = rt.alloc();
    for (words, seed, lines) in WORKS {
        let script = script_of(alloc, seed, lines)?;
        let (_, run) = work(alloc, "run,--new,4096,d", lines, &script, &[])?;
        let (status, worked) = work(alloc, words, lines, b"app a\n", &[])?;
        let [ok, refused, other] = beginnings(run.out());
        let line = format!(in alloc; "work {lines} ok {ok} refused {refused} other {other}\n")?;
        assert!(rt; status == Status::Done);
        assert_eq!(rt; worked.out(), line.as_bytes());
        assert_eq!(rt; worked.image(), run.image());
    }
    Ok(())
}

// The making, the two calls of formatting, and the put of the line, whose number is that of all events.
#[test]
fn fails_with_its_calls(rt: HostRuntime) -> Result<(), Failure> {
    let alloc = rt.alloc();
    let (_, whole) = work(alloc, "work,1,100,d", 100, b"", &[])?;
    for (call, status, out) in [
        (0, Status::Device, "fault device\n"),
        (1, Status::Device, "fault device\n"),
        (2, Status::Device, "fault device\n"),
        (whole.events(), Status::Sink, "work 10"),
    ] {
        let plan = [Fail {
            call,
            took: false,
            part: 7,
        }];
        let (ended, failed) = work(alloc, "work,1,100,d", 100, b"", &plan)?;
        assert!(rt; ended == status, "at {call}");
        assert_eq!(rt; failed.out(), out.as_bytes());
    }
    Ok(())
}
