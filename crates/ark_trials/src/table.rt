//! Tables of runs. A run is a block of rows, and an empty row stands between two. Its first row has the words of the command
//! with the first reply behind them, and each other row a line of the script with its reply, if it has one.

use crate::areas::{BLOCKS, GIVEN_UP, GRANTS, SCATTERED};
use crate::cards::{BINDINGS, CARDS_AND_DOORS, DEVICES_GIVEN_UP, TRANSFERS};
use crate::commands::{COMMANDS, OTHER_WORDS};
use crate::cycles::CYCLES;
use crate::growing::GROWN;
use crate::lines::{EMPTY_LINES, LINES};
use crate::logs::{LOG_COMMANDS, NOT_OPEN, OPENED, POLLED};
use crate::nets::{NET_SIDES, NETS};
use crate::rates::{PACED, RATES};
use crate::reopened::REOPENED;
use crate::runs::{Finished, run_on};
use crate::words::{ADDRESSES, EVERY_WORD, FRAMES, TICKS, WORDS_TO_COME};
use ark_base::Status;
use std::alloc::Global;
use std::test::Fail;

// What stands between a line and its reply.
const BESIDE: &str = " => ";

// How the last line of a script ends.
#[derive(Clone, Copy, PartialEq, Eq)]
enum LastLine {
    // With a newline, as each other line.
    Whole,
    // With the end of the script.
    Unfinished,
}

// The lines of these rows.
fn script_of(alloc: Global, rows: &str, last: LastLine) -> Result<String, Fail> {
    let mut script = String::new(alloc);
    for row in rows.lines() {
        let (line, _) = row.split_once(BESIDE).unwrap_or((row, ""));
        script.push_str(line)?;
        script.push('\n')?;
    }
    if last == LastLine::Unfinished {
        script.pop();
    }
    Ok(script)
}

// The run of a block, on a device that is there.
fn played(alloc: Global, device: &[u8], block: &str, last: LastLine) -> Result<Finished, Fail> {
    let (head, rows) = block.split_once('\n').unwrap_or((block, ""));
    let (words, _) = head.split_once(BESIDE).unwrap_or((head, ""));
    let script = script_of(alloc, rows, last)?;
    run_on(alloc, device, words, script.as_bytes(), &[])
}

// The first row of a block whose reply did not come out, or the whole block where more came out.
fn unanswered<'a>(block: &'a str, out: &[u8]) -> Option<&'a str> {
    let mut left = out;
    for row in block.lines() {
        let Some((_, reply)) = row.split_once(BESIDE) else {
            continue;
        };
        match left.strip_prefix(reply.as_bytes()) {
            Some([b'\n', rest @ ..]) => left = rest,
            _ => return Some(row),
        }
    }
    if left.is_empty() { None } else { Some(block) }
}

// The first row of a table whose reply is another one, or a whole block whose status is.
fn other_row(
    alloc: Global,
    table: &str,
    last: LastLine,
    status: Status,
) -> Result<Option<&str>, Fail> {
    for block in table.split("\n\n") {
        let done = played(alloc, b"", block, last)?;
        // Words that are no command make, attach and fetch nothing: the closing line is all that comes.
        let is_alone = done.world.events() == 1;
        if done.status != status || (status == Status::Usage) != is_alone {
            return Ok(Some(block));
        }
        if let Some(row) = unanswered(block, done.world.out()) {
            return Ok(Some(row));
        }
    }
    Ok(None)
}

#[test]
fn answers_as_the_tables_say(rt: HostRuntime) -> Result<(), Fail> {
    let alloc = rt.alloc();
    for table in [
        COMMANDS,
        LINES,
        TICKS,
        ADDRESSES,
        FRAMES,
        WORDS_TO_COME,
        EVERY_WORD,
        CARDS_AND_DOORS,
        DEVICES_GIVEN_UP,
        TRANSFERS,
        BINDINGS,
        NETS,
        NET_SIDES,
        NOT_OPEN,
        LOG_COMMANDS,
        OPENED,
        POLLED,
        RATES,
        PACED,
        GRANTS,
        BLOCKS,
        GIVEN_UP,
        SCATTERED,
        CYCLES,
        GROWN,
    ] {
        let whole = other_row(alloc, table, LastLine::Whole, Status::Done)?;
        assert_eq!(rt; whole, None);
        let unfinished = other_row(alloc, table, LastLine::Unfinished, Status::Done)?;
        assert_eq!(rt; unfinished, None);
    }
    let empty = other_row(alloc, EMPTY_LINES, LastLine::Whole, Status::Done)?;
    assert_eq!(rt; empty, None);
    let refused = other_row(alloc, OTHER_WORDS, LastLine::Whole, Status::Usage)?;
    assert_eq!(rt; refused, None);
    Ok(())
}

// The first row of a table whose reply is another one, where each run is on the device that the one before left; a whole block
// whose status is not 0.
fn other_row_after(alloc: Global, table: &str) -> Result<Option<&str>, Fail> {
    let mut device = Vec::new(alloc);
    for block in table.split("\n\n") {
        let done = played(alloc, &device, block, LastLine::Whole)?;
        if done.status != Status::Done {
            return Ok(Some(block));
        }
        if let Some(row) = unanswered(block, done.world.out()) {
            return Ok(Some(row));
        }
        device.clear();
        device.extend_from_slice(done.world.image())?;
    }
    Ok(None)
}

#[test]
fn finds_what_an_earlier_run_left(rt: HostRuntime) -> Result<(), Fail> {
    let other = other_row_after(rt.alloc(), REOPENED)?;
    assert_eq!(rt; other, None);
    Ok(())
}
