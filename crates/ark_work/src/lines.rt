ghost use Rattle.std.specs.Prelude.{◌≡◌, ◌≤◌, ◌<◌, ◌^◌, ◌∷◌, ◌++◌, ◌%◌, [], length, take, get_or, codes, decimal, IfSome, IfNone, option_map, slice_get};
ghost use Rattle.ark_work.specs.Generated.{generated, hex, line_of, lines_of_a, lines_of_b, prelude};

use crate::draws::Draws;
use ark_text::{put, put_digits, put_number};
use std::marker::Model;

/// A line of the script has at most so many bytes.
pub const LINE_ROOM: usize = 40;

/// The lines of a script that are still to come: 16 lines that make two applications with what they use, then lines that
/// are drawn. Contracts see the list of them.
#[derive(Drop)]
pub struct Lines {
    // how many lines of the prelude were given
    place: usize,
    // how many drawn lines are to come
    left: u32,
    draws: Draws,
}

impl Model for Lines {
    ghost use Rattle.std.specs.Prelude.{List, ℕ, ◌++◌, drop};
    ghost use Rattle.ark_work.specs.Generated.{lines_from, prelude};

    ghost Value = { List (List ℕ) };

    ghost view = { λ l. drop l.place prelude ++ lines_from l.draws.state l.left };
}

// A line of the prelude.
fn prelude_line(place: usize) -> Option<&'static [u8]>
    ensures line { option_map (λ line. line.now) result ≡ slice_get prelude place }
    ensures short { IfSome result (λ line. length line.now ≤ 16) }
{
    let line: &'static [u8] = match place {
        0 => b"app a",
        1 => b"app b",
        2 => b"vsic a v 8",
        3 => b"vsic b v 8",
        4 => b"vsa a r 32 raw",
        5 => b"vsa b r 32 raw",
        6 => b"bind a v r",
        7 => b"bind b v r",
        8 => b"buf a m 1024",
        9 => b"buf b m 1024",
        10 => b"vsic a w 4",
        11 => b"vsa a l 64 log",
        12 => b"log a l w",
        13 => b"vsic b w 4",
        14 => b"vsa b q 64 queue",
        15 => b"queue b q w",
        _ => return None,
    };
    Some(line)
}

// Writes some words, a block's place that is drawn, and what both words on two blocks end with; gives the line's length.
fn put_place(out: &mut [u8], words: &[u8], drawn: u32) -> usize
    requires words { length words.now ≡ 10 }
    requires room { LINE_ROOM ≤ length out.old }
    ensures short { result ≤ LINE_ROOM }
    ensures written { take result out.new ≡ words.now ++ decimal (drawn % 31) ++ codes " 2 m" }
{
    let at = put(out, 0, words);
    let at = put_number(out, at, u64::from(drawn % 31));
    put(out, at, b" 2 m")
}

// Writes some words and a number that is drawn as 8 hex digits; gives the line's length.
fn put_value(out: &mut [u8], words: &[u8], drawn: u32) -> usize
    requires words { length words.now ≤ 11 }
    requires room { LINE_ROOM ≤ length out.old }
    ensures short { result ≤ LINE_ROOM }
    ensures written { take result out.new ≡ words.now ++ hex drawn }
{
    let at = put(out, 0, words);
    put_digits(out, at, &drawn.to_be_bytes())
}

// Writes the line of application a; gives its length.
fn put_a(out: &mut [u8], word: u32, drawn: u32) -> usize
    requires word { word < 8 }
    requires room { LINE_ROOM ≤ length out.old }
    ensures short { result ≤ LINE_ROOM }
    ensures written { take result out.new ≡ get_or (lines_of_a drawn) word [] }
{
    match word {
        0 => put_place(out, b"put a v r ", drawn),
        1 => put_place(out, b"get a v r ", drawn),
        2 => put(out, 0, b"flush a v"),
        3 => put(out, 0, b"dev a v"),
        4 => put(out, 0, b"reap a v"),
        5 => put_value(out, b"append a l ", drawn),
        6 => put(out, 0, b"settle a l"),
        _ => {
            let at = put(out, 0, b"trim a l ");
            put_number(out, at, u64::from(1 + drawn % 64))
        }
    }
}

// Writes the line of application b; gives its length.
fn put_b(out: &mut [u8], word: u32, drawn: u32) -> usize
    requires word { word < 8 }
    requires room { LINE_ROOM ≤ length out.old }
    ensures short { result ≤ LINE_ROOM }
    ensures written { take result out.new ≡ get_or (lines_of_b drawn) word [] }
{
    match word {
        0 => put_place(out, b"put b v r ", drawn),
        1 => put_place(out, b"get b v r ", drawn),
        2 => put(out, 0, b"flush b v"),
        3 => put(out, 0, b"dev b v"),
        4 => put(out, 0, b"reap b v"),
        5 => put_value(out, b"push b q ", drawn),
        6 => put(out, 0, b"settle b q"),
        _ => put(out, 0, b"pop b q"),
    }
}

// Writes the line of three draws; gives its length.
fn put_line(out: &mut [u8], whose: u32, word: u32, drawn: u32) -> usize
    requires room { LINE_ROOM ≤ length out.old }
    ensures short { result ≤ LINE_ROOM }
    ensures written { take result out.new ≡ line_of whose word drawn }
{
    if whose % 2 == 0 {
        put_a(out, word % 8, drawn)
    } else {
        put_b(out, word % 8, drawn)
    }
}

impl Lines {
    /// The script of a seed, with so many lines behind its prelude.
    pub fn new(seed: u64, lines: u32) -> Lines
        ensures { result ≡ generated seed lines }
    {
        Lines {
            place: 0,
            left: lines,
            draws: Draws { state: seed },
        }
    }

    /// Writes the next line at the start of `out`, without a newline, and gives the number of its bytes; `None` behind the last.
    pub fn next(&mut self, out: &mut [u8]) -> Option<usize>
        requires room { LINE_ROOM ≤ length out.old }
        ensures short { IfSome result (λ len. len ≤ LINE_ROOM) }
        ensures line { IfSome result (λ len. self.old ≡ take len out.new ∷ self.new) }
        ensures end { IfNone result (self.old ≡ []) }
        ensures ended { IfNone result (self.new ≡ []) }
    {
        if let Some(line) = prelude_line(self.place) {
            self.place += 1;
            return Some(put(out, 0, line));
        }
        if self.left == 0 {
            return None;
        }
        self.left -= 1;
        let whose = self.draws.draw();
        let word = self.draws.draw();
        let drawn = self.draws.draw();
        Some(put_line(out, whose, word, drawn))
    }
}
