use crate::growing::{GROWTH, GROWTH_ENDS};
use crate::runs::run;
use ark_memory::Fail;
use std::alloc::Global;
use std::test::Fail as Failure;

/// A script that writes a block and reads it.
const AREA: &[u8] = b"\
app a
vsa a s 1 raw
poke a s 0 07
peek a s 0
";

/// How it ends as each call fails in turn. The calls are make, write and sync of the superblock, the put of the device's line,
/// fetch, the put of a reply, the zero of a new block, its sync, the slot, its sync and the put, the write of the poke and its
/// put, the read of the peek and its put, and the fetch of the end. A row has the call, whether a write takes effect, and how
/// much of a line is put, for one failure or two; then the output with a `/` for each newline, and behind it the status, the
/// number of events, and the first byte of the area's block.
const AREA_ENDS: &str = "\
0 0 0 => fault device/: 4 1 0
1 0 0 => fault device/: 4 2 0
1 1 0 => fault device/: 4 2 0
2 0 0 => fault device/: 4 3 0
3 0 0 => : 3 3 0
3 0 6 => ready : 3 3 0
3 0 12 => ready 200 0/: 3 3 0
4 0 0 => ready 200 0/fault source/: 2 4 0
5 0 0 => ready 200 0/: 3 4 0
5 0 2 => ready 200 0/ok: 3 4 0
5 0 3 => ready 200 0/ok/: 3 4 0
6 0 0 => ready 200 0/ok/refused 21 device fault/refused 5 no grant s/refused 5 no grant s/: 0 8 0
6 1 0 => ready 200 0/ok/refused 21 device fault/refused 5 no grant s/refused 5 no grant s/: 0 8 0
7 0 0 => ready 200 0/ok/refused 21 device fault/refused 5 no grant s/refused 5 no grant s/: 0 9 0
8 0 0 => ready 200 0/ok/refused 21 device fault/refused 5 no grant s/refused 5 no grant s/: 0 10 0
8 1 0 => ready 200 0/ok/refused 21 device fault/refused 5 no grant s/refused 5 no grant s/: 0 10 0
9 0 0 => ready 200 0/ok/refused 21 device fault/refused 5 no grant s/refused 5 no grant s/: 0 11 0
10 0 0 => ready 200 0/ok/: 3 9 0
10 0 1 => ready 200 0/ok/o: 3 9 0
10 0 3 => ready 200 0/ok/ok/: 3 9 0
11 0 0 => ready 200 0/ok/ok/refused 21 device fault/ok -/: 0 13 0
11 1 0 => ready 200 0/ok/ok/refused 21 device fault/ok 07/: 0 13 7
12 0 0 => ready 200 0/ok/ok/: 3 11 7
12 0 2 => ready 200 0/ok/ok/ok: 3 11 7
12 0 3 => ready 200 0/ok/ok/ok/: 3 11 7
13 0 0 => ready 200 0/ok/ok/ok/refused 21 device fault/: 0 13 7
14 0 0 => ready 200 0/ok/ok/ok/: 3 13 7
14 0 4 => ready 200 0/ok/ok/ok/ok 0: 3 13 7
15 0 0 => ready 200 0/ok/ok/ok/ok 07/fault source/: 2 14 7
16 0 0 => ready 200 0/ok/ok/ok/ok 07/: 0 13 7";

/// The same of a script whose lines make no device call: make, write, sync, the put of the device's line, fetch, the puts of
/// two replies, and the fetch of the end.
const NAMES_ENDS: &str = "\
0 0 0 => fault device/: 4 1 0
0 1 0 => fault device/: 4 1 0
1 0 0 => fault device/: 4 2 0
1 1 0 => fault device/: 4 2 0
2 0 0 => fault device/: 4 3 0
2 1 0 => fault device/: 4 3 0
3 0 0 => : 3 3 0
3 1 0 => : 3 3 0
3 0 5 => ready: 3 3 0
3 1 5 => ready: 3 3 0
3 0 99 => ready 200 0/: 3 3 0
3 1 99 => ready 200 0/: 3 3 0
4 0 0 => ready 200 0/fault source/: 2 4 0
4 1 0 => ready 200 0/fault source/: 2 4 0
5 0 1 => ready 200 0/o: 3 4 0
5 1 1 => ready 200 0/o: 3 4 0
5 0 3 => ready 200 0/ok/: 3 4 0
5 1 3 => ready 200 0/ok/: 3 4 0
6 0 7 => ready 200 0/ok/refused: 3 5 0
6 1 7 => ready 200 0/ok/refused: 3 5 0
7 0 0 => ready 200 0/ok/refused 4 name taken/fault source/: 2 6 0
7 1 0 => ready 200 0/ok/refused 4 name taken/fault source/: 2 6 0
8 0 0 => ready 200 0/ok/refused 4 name taken/: 0 5 0
8 1 0 => ready 200 0/ok/refused 4 name taken/: 0 5 0";

/// The same of a script of one line: a fetch fails behind it; each part of a line comes out, and nothing after it; and where the
/// put of the closing line fails too, a part of that comes out and the status stays.
const ONE_LINE_ENDS: &str = "\
6 0 0 => ready 200 0/ok/fault source/: 2 5 0
3 0 0 => : 3 3 0
3 0 1 => r: 3 3 0
3 0 2 => re: 3 3 0
3 0 3 => rea: 3 3 0
3 0 4 => read: 3 3 0
3 0 5 => ready: 3 3 0
3 0 6 => ready : 3 3 0
3 0 7 => ready 2: 3 3 0
3 0 8 => ready 20: 3 3 0
3 0 9 => ready 200: 3 3 0
3 0 10 => ready 200 : 3 3 0
3 0 11 => ready 200 0: 3 3 0
3 0 12 => ready 200 0/: 3 3 0
3 0 13 => ready 200 0/: 3 3 0
3 0 14 => ready 200 0/: 3 3 0
3 0 15 => ready 200 0/: 3 3 0
3 0 16 => ready 200 0/: 3 3 0
5 0 0 => ready 200 0/: 3 4 0
5 0 1 => ready 200 0/o: 3 4 0
5 0 2 => ready 200 0/ok: 3 4 0
5 0 3 => ready 200 0/ok/: 3 4 0
5 0 4 => ready 200 0/ok/: 3 4 0
5 0 5 => ready 200 0/ok/: 3 4 0
5 0 6 => ready 200 0/ok/: 3 4 0
5 0 7 => ready 200 0/ok/: 3 4 0
5 0 8 => ready 200 0/ok/: 3 4 0
5 0 9 => ready 200 0/ok/: 3 4 0
5 0 10 => ready 200 0/ok/: 3 4 0
5 0 11 => ready 200 0/ok/: 3 4 0
5 0 12 => ready 200 0/ok/: 3 4 0
5 0 13 => ready 200 0/ok/: 3 4 0
5 0 14 => ready 200 0/ok/: 3 4 0
5 0 15 => ready 200 0/ok/: 3 4 0
5 0 16 => ready 200 0/ok/: 3 4 0
4 0 0,5 0 6 => ready 200 0/fault : 2 4 0";

/// A script that gives an area up and grants its block again.
const GONE: &[u8] = b"\
app a
vsa a s 1 raw
poke a s 0 07
drop a s
vsa a t 1 raw
";

/// The same of it. Behind the put of the poke come the write of the slot, its sync and the put, and the calls of the second grant.
const GONE_ENDS: &str = "\
13 0 0 => ready 200 0/ok/ok/ok/refused 21 device fault/refused 22 table failed/: 0 14 7
13 1 0 => ready 200 0/ok/ok/ok/refused 21 device fault/refused 22 table failed/: 0 14 7
14 0 0 => ready 200 0/ok/ok/ok/refused 21 device fault/refused 22 table failed/: 0 15 7
15 0 0 => ready 200 0/ok/ok/ok/: 3 14 7
16 0 0 => ready 200 0/ok/ok/ok/ok/refused 21 device fault/: 0 16 7
16 1 0 => ready 200 0/ok/ok/ok/ok/refused 21 device fault/: 0 16 0
21 0 0 => ready 200 0/ok/ok/ok/ok/ok/fault source/: 2 20 0";

// The numbers that stand in a text with a space between two. What is no number is the greatest.
fn numbers(text: &str) -> [u32; 3] {
    let mut numbers = [u32::MAX; 3];
    for (number, word) in numbers.iter_mut().zip(text.split(' ')) {
        *number = word.parse().unwrap_or(u32::MAX);
    }
    numbers
}

// Whether this is the text that the row shows.
fn shows(text: &[u8], shown: &str) -> bool {
    for (byte, of) in text.iter().zip(shown.bytes()) {
        if *byte != of && (*byte != b'\n' || of != b'/') {
            return false;
        }
    }
    text.len() == shown.len()
}

// The failure that a text says: the call, whether a write takes effect, and how much of a line is put. No text says one of a
// call that is never made.
fn failure(text: &str) -> Fail {
    let [call, took, part] = numbers(text);
    Fail {
        call,
        took: took == 1,
        part,
    }
}

// The first row of a table that says otherwise than the run of the script.
fn other_end<'a>(alloc: Global, script: &[u8], table: &'a str) -> Result<Option<&'a str>, Failure> {
    for row in table.lines() {
        let (fails, ends) = row.split_once(" => ").unwrap_or((row, ""));
        let (out, ends) = ends.split_once(": ").unwrap_or((ends, ""));
        let (one, other) = fails.split_once(',').unwrap_or((fails, ""));
        let [status, events, first] = numbers(ends);
        let done = run(alloc, script, &[failure(one), failure(other)])?;
        let block = done.world.image().get(512 * 129..).unwrap_or(&[]);
        if u32::from(done.status.code()) != status
            || done.world.events() != events
            || u32::from(block.first().copied().unwrap_or(0)) != first
            || !shows(done.world.out(), out)
        {
            return Ok(Some(row));
        }
    }
    Ok(None)
}

#[test]
fn ends_as_each_call_fails(rt: HostRuntime) -> Result<(), Failure> {
    let alloc = rt.alloc();
    assert_eq!(rt; other_end(alloc, AREA, AREA_ENDS)?, None);
    assert_eq!(rt; other_end(alloc, GONE, GONE_ENDS)?, None);
    assert_eq!(rt; other_end(alloc, GROWTH, GROWTH_ENDS)?, None);
    assert_eq!(rt; other_end(alloc, b"app a\napp a\n", NAMES_ENDS)?, None);
    assert_eq!(rt; other_end(alloc, b"app a\n", ONE_LINE_ENDS)?, None);
    Ok(())
}
