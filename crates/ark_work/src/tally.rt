ghost use Rattle.std.specs.Prelude.{◌≡◌, ◌≤◌, ◌<◌, ◌+◌, ◌^◌, ◌-◌, ◌∷◌, ◌++◌, [], List, ℕ, length, position, take};
ghost use Rattle.ark_work.specs.Tallied.{Tells, ends_word, first_word, summary};

use ark_text::{put, put_number};

/// The line of a tally has at most so many bytes.
pub const SUMMARY_ROOM: usize = 128;

/// How many replies began with `ok`, with `refused` and with another word.
#[derive(Drop)]
pub struct Tally {
    pub ok: u32,
    pub refused: u32,
    pub other: u32,
}

// The place of the first space or newline.
fn word_end(reply: &[u8]) -> Option<usize>
    ensures { result ≡ position ends_word reply.now }
{
    reply
        .iter()
        .position(|byte| *byte == b' ' || *byte == b'\n')
}

// The bytes up to the first space or newline.
fn first_word_of(reply: &[u8]) -> &[u8]
    ensures { result.now ≡ first_word reply.now }
{
    match word_end(reply) {
        Some(at) => &reply[..at],
        None => reply,
    }
}

impl Tally {
    /// The tally of no reply.
    pub fn new() -> Tally
        ensures { Tells result [] }
    {
        Tally {
            ok: 0,
            refused: 0,
            other: 0,
        }
    }

    /// Counts one more reply, by its line.
    pub fn count(&mut self, reply: &[u8])
        requires few { self.old.ok + self.old.refused + self.old.other < 2 ^ 32 - 1 }
        ensures counted { (replies : List (List ℕ)) → Tells self.old replies →
            Tells self.new (replies ++ reply.now ∷ []) }
        ensures more { self.new.ok + self.new.refused + self.new.other ≡
            self.old.ok + self.old.refused + self.old.other + 1 }
    {
        let word = first_word_of(reply);
        if word == b"ok".as_slice() {
            self.ok += 1;
        } else if word == b"refused".as_slice() {
            self.refused += 1;
        } else {
            self.other += 1;
        }
    }

    /// Writes the line of the tally at the start of `out`, without a newline, and gives the number of its bytes; `lines` is how many lines the script had
    /// behind its prelude.
    pub fn print(&self, lines: u32, out: &mut [u8]) -> usize
        requires room { SUMMARY_ROOM ≤ length out.old }
        ensures short { result ≤ SUMMARY_ROOM }
        ensures text { (replies : List (List ℕ)) → Tells self.now replies →
            take result out.new ≡ summary lines replies }
    {
        let at = put(out, 0, b"work ");
        let at = put_number(out, at, u64::from(lines));
        let at = put(out, at, b" ok ");
        let at = put_number(out, at, u64::from(self.ok));
        let at = put(out, at, b" refused ");
        let at = put_number(out, at, u64::from(self.refused));
        let at = put(out, at, b" other ");
        put_number(out, at, u64::from(self.other))
    }
}
