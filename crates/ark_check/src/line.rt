ghost use Rattle.std.specs.Prelude.{◌≡◌, ◌≤◌, ◌+◌, ◌∷◌, ◌++◌, [], length, take, codes, decimal};
ghost use Rattle.ark_check.specs.Report.{device_line, kind_word, slot_words};
ghost use Rattle.ark_check.specs.Reading.{contents_words, shown};

use crate::contents::Contents;
use ark_base::Kind;
use ark_table::Slot;
use ark_text::{put, put_number};

/// A line of a report has at most so many bytes.
pub const LINE_ROOM: usize = 192;

fn word_of(kind: Kind) -> &'static [u8]
    ensures word { result.now ≡ kind_word kind }
    ensures short { length result.now ≤ 5 }
{
    match kind {
        Kind::Raw => b"raw",
        Kind::Log => b"log",
        Kind::Queue => b"queue",
    }
}

// Writes a space and a number from a place on, and gives the place after them.
fn put_count(out: &mut [u8], at: usize, count: u64) -> usize
    requires room { at + 21 ≤ length out.old }
    ensures short { result ≤ at + 21 }
    ensures written { take result out.new ≡ take at out.old ++ (codes " " ++ decimal count) }
{
    let at = put(out, at, b" ");
    put_number(out, at, count)
}

// Writes what is told of an area's contents from a place on, and gives the place after it.
fn put_contents(out: &mut [u8], at: usize, contents: Contents) -> usize
    requires room { at + 42 ≤ length out.old }
    ensures short { result ≤ at + 42 }
    ensures written { take result out.new ≡ take at out.old ++ contents_words contents }
{
    match contents {
        Contents::Raw => at,
        Contents::Found(first, count) => {
            let at = put_count(out, at, first);
            put_count(out, at, u64::from(count))
        }
        Contents::Damaged(number) => {
            let at = put(out, at, b" damaged");
            put_count(out, at, number)
        }
    }
}

/// Writes the line of a device at the start of `out`, its newline included, and gives the number of its bytes.
pub(crate) fn print_device(out: &mut [u8], blocks: u32, slots: u16) -> usize
    requires room { LINE_ROOM ≤ length out.old }
    ensures short { result ≤ length out.old }
    ensures text { take result out.new ≡ device_line blocks slots ++ 10 ∷ [] }
{
    let at = put(out, 0, b"device");
    let at = put_count(out, at, u64::from(blocks));
    let at = put_count(out, at, u64::from(slots));
    put(out, at, b"\n")
}

// Writes whose area a slot has, under which label and of which kind, from a place on, and gives the place after it.
fn put_owner(out: &mut [u8], at: usize, slot: &Slot) -> usize
    requires room { at + 38 ≤ length out.old }
    ensures short { result ≤ at + 38 }
    ensures written { take result out.new ≡ take at out.old ++ (codes " " ++ (slot.now.app ++
        (codes " " ++ (slot.now.label ++ (codes " " ++ kind_word slot.now.kind))))) }
{
    let at = put(out, at, b" ");
    let at = put(out, at, slot.app.bytes());
    let at = put(out, at, b" ");
    let at = put(out, at, slot.label.bytes());
    let at = put(out, at, b" ");
    put(out, at, word_of(slot.kind))
}

/// Writes the line of slot `i` at the start of `out`, its newline included, and gives the number of its bytes.
pub(crate) fn print_slot(out: &mut [u8], i: u16, slot: &Slot, contents: Contents) -> usize
    requires room { LINE_ROOM ≤ length out.old }
    ensures short { result ≤ length out.old }
    ensures text { take result out.new ≡ slot_words (shown i slot.now) ++
        contents_words contents ++ 10 ∷ [] }
{
    let at = put(out, 0, b"slot");
    let at = put_count(out, at, u64::from(i));
    let at = put_owner(out, at, slot);
    let at = put_count(out, at, u64::from(slot.spans.blocks()));
    let at = put_count(out, at, slot.spans.runs() as u64);
    let at = put_contents(out, at, contents);
    put(out, at, b"\n")
}
