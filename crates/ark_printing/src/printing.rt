ghost use Rattle.std.specs.Prelude.{◌≡◌, ◌+◌, ◌<◌, ◌≤◌, ◌++◌, ℕ, List, true, length, take};
ghost use Rattle.ark_base.specs.Name.{is_name};
ghost use Rattle.ark_base.specs.Refusal.{words_of};
ghost use Rattle.ark_script.specs.Text.{IsNamed, IsSaid, outcome_words, reply_words, spaced, text};
ghost use Rattle.ark_printing.specs.Named.{named_of, values_of};
ghost use Rattle.ark_script.specs.Reply.{bytes_shown};

use crate::putting::{put_address, put_hex, put_names, put_numbered, put_numbers};
use ark_base::{Label, Outcome, Refusal};
use ark_script::{Reply, Said};
use ark_text::{put, put_number};

/// Every reply has fewer bytes than this, its newline included.
pub const TEXT_ROOM: usize = 66_000;

/// Writes the line of a reply at the start of `out`, its newline included, and gives the number of its bytes.
pub fn print(reply: &Reply, out: &mut [u8]) -> usize
    requires room { TEXT_ROOM ≤ length out.old }
    ensures fits { result ≤ length out.new }
    ensures short { result < TEXT_ROOM }
    ensures text { take result out.new ≡ text reply.now.said (bytes_shown reply.now) }
    ensures named { IsSaid reply.now.said }
{
    let at = put_words(out, reply.said(), reply.bytes());
    put(out, at, b"\n")
}

// Writes the words of a reply at the start, and gives the place after them.
fn put_words(out: &mut [u8], said: &Said, bytes: &[u8]) -> usize
    requires bytes { length bytes.now ≤ 32768 }
    requires room { TEXT_ROOM ≤ length out.old }
    ensures short { result + 1 < TEXT_ROOM }
    ensures words { take result out.new ≡ reply_words said.now bytes.now }
    ensures named { IsSaid said.now }
{
    let at = put(out, 0, head(said));
    put_values(out, at, said, bytes)
}

// The words of a reply, up to what it names or shows.
fn head(said: &Said) -> &'static [u8]
    ensures short { length result.now ≤ 18 }
    ensures head { (bytes : List ℕ) →
        reply_words said.now bytes ≡ result.now ++ values_of said.now bytes }
{
    match said {
        Said::Ready(_, _) => b"ready ",
        Said::Ok => b"ok",
        Said::Num(_) => b"ok ",
        Said::Pair(_, _) => b"ok ",
        Said::Rings(_, _, _) => b"ok ",
        Said::Bytes => b"ok ",
        Said::Nothing => b"ok nothing",
        Said::Posted => b"ok posted",
        Said::OkHeld => b"ok held",
        Said::Got(_, _) => b"ok get ",
        Said::Put(_, _) => b"ok put ",
        Said::Flushed(_) => b"ok flush ",
        Said::TakenRx(_, _) => b"ok ",
        Said::TakenTx(_, _) => b"ok ",
        Said::Datagram(_, _) => b"ok ",
        Said::Idle => b"idle",
        Said::Held => b"held",
        Said::Moved => b"moved",
        Said::Done(_) => b"done ",
        Said::Sent => b"sent ",
        Said::Delivered(_, _) => b"delivered ",
        Said::DroppedNoFilter => b"dropped no filter",
        Said::DroppedNoBuffer(_, _) => b"dropped no buffer ",
        Said::DroppedTooLong(_, _) => b"dropped too long ",
        Said::DroppedThrottled(_, _) => b"dropped throttled ",
        Said::AckedAppend(_) => b"acked append ",
        Said::AckedPush(_) => b"acked push ",
        Said::AckedTrim(_) => b"acked trim ",
        Said::AckedPop(_) => b"acked pop ",
        Said::Failed(_) => b"failed ",
        Said::Refused(_) => b"refused ",
    }
}

// Writes what a reply names or shows from a place on, and gives the place after it.
fn put_values(out: &mut [u8], at: usize, said: &Said, bytes: &[u8]) -> usize
    requires bytes { length bytes.now ≤ 32768 }
    requires room { at + 65800 ≤ length out.old }
    ensures short { result ≤ at + 65800 }
    ensures written { take result out.new ≡ take at out.old ++ values_of said.now bytes.now }
    ensures named { IsSaid said.now }
{
    match said {
        Said::Ready(blocks, slots) => {
            put_numbers(out, at, u64::from(*blocks), u64::from(*slots))
        }
        Said::Num(n) | Said::AckedAppend(n) | Said::AckedPush(n) | Said::AckedTrim(n) => {
            put_number(out, at, *n)
        }
        Said::Pair(first, count) => put_numbers(out, at, *first, *count),
        Said::Rings(rx, tx, io) => {
            let at = put_number(out, at, *rx);
            let at = put(out, at, b" ");
            put_numbers(out, at, *tx, *io)
        }
        Said::Bytes | Said::Sent => put_hex(out, at, bytes),
        Said::Got(buffer, outcome) | Said::Put(buffer, outcome) | Said::TakenTx(buffer, outcome) =>
            put_ended(out, at, buffer, *outcome),
        Said::Flushed(outcome) | Said::Done(outcome) | Said::Failed(outcome) => {
            put(out, at, outcome_text(*outcome))
        }
        Said::TakenRx(buffer, len) => {
            let at = put(out, at, buffer.bytes());
            let at = put(out, at, b" ");
            put_number(out, at, u64::from(*len))
        }
        Said::Datagram(ip, port) => {
            let at = put_address(out, at, ip);
            let at = put(out, at, b" ");
            put_numbered(out, at, u64::from(*port), bytes)
        }
        Said::Delivered(app, card)
        | Said::DroppedNoBuffer(app, card)
        | Said::DroppedTooLong(app, card)
        | Said::DroppedThrottled(app, card) => put_names(out, at, app, card),
        Said::AckedPop(n) => put_numbered(out, at, *n, bytes),
        Said::Refused(refusal) => put_refusal(out, at, refusal),
        _ => at,
    }
}

// How a descriptor ended, in words.
fn outcome_text(outcome: Outcome) -> &'static [u8]
    ensures short { length result.now ≤ 12 }
    ensures words { result.now ≡ outcome_words outcome }
{
    match outcome {
        Outcome::Ok => b"ok",
        Outcome::NoGrant => b"no grant",
        Outcome::OutOfRange => b"out of range",
        Outcome::OverBurst => b"over burst",
        Outcome::DeviceFault => b"device fault",
        Outcome::NoFilter => b"no filter",
    }
}

// Writes a buffer's name and how its descriptor ended from a place on, and gives the place after them.
fn put_ended(out: &mut [u8], at: usize, buffer: &Label, outcome: Outcome) -> usize
    requires room { at + 28 ≤ length out.old }
    ensures short { result ≤ at + 28 }
    ensures written { take result out.new ≡ take at out.old ++ spaced buffer.now
        (outcome_words outcome) }
    ensures named { is_name buffer.now ≡ true }
{
    let at = put(out, at, buffer.bytes());
    let at = put(out, at, b" ");
    put(out, at, outcome_text(outcome))
}

// Writes the words of a refusal from a place on, and gives the place after them.
fn put_refusal(out: &mut [u8], at: usize, refusal: &Refusal) -> usize
    requires room { at + 47 ≤ length out.old }
    ensures short { result ≤ at + 47 }
    ensures written { take result out.new ≡ take at out.old ++ words_of refusal.now }
    ensures named { IsNamed refusal.now }
{
    let at = put(out, at, refusal_head(refusal));
    match refusal {
        Refusal::NoGrant(label) => put(out, at, label.bytes()),
        Refusal::Overlap(app, label) => put_names(out, at, app, label),
        Refusal::Damaged(entry) => put_number(out, at, *entry),
        _ => at,
    }
}

// The words of a refusal, up to what it names.
fn refusal_head(refusal: &Refusal) -> &'static [u8]
    ensures short { length result.now ≤ 16 }
    ensures head { words_of refusal.now ≡ result.now ++ named_of refusal.now }
{
    match refusal {
        Refusal::Syntax => b"1 syntax",
        Refusal::UnknownWord => b"2 unknown word",
        Refusal::NoApplication => b"3 no application",
        Refusal::NameTaken => b"4 name taken",
        Refusal::NoGrant(_) => b"5 no grant ",
        Refusal::WrongKind => b"6 wrong kind",
        Refusal::Limit => b"7 limit",
        Refusal::NoNic => b"8 no nic",
        Refusal::OutOfRange => b"9 out of range",
        Refusal::NoSpace => b"10 no space",
        Refusal::Scattered => b"11 scattered",
        Refusal::Overlap(_, _) => b"12 overlap ",
        Refusal::RingFull => b"13 ring full",
        Refusal::NoBuffer => b"14 no buffer",
        Refusal::Lent => b"15 lent",
        Refusal::Busy => b"16 busy",
        Refusal::LogFailed => b"17 log failed",
        Refusal::LogFull => b"18 log full",
        Refusal::NoEntry => b"19 no entry",
        Refusal::NoMemory => b"20 no memory",
        Refusal::DeviceFault => b"21 device fault",
        Refusal::TableFailed => b"22 table failed",
        Refusal::Damaged(_) => b"23 damaged ",
        Refusal::TooLong => b"24 too long",
    }
}
