ghost use Rattle.std.specs.Prelude.{◌≡◌, ◌≤◌, ◌∷◌, ◌++◌, [], List, ℕ, length, take, is_ok};
ghost use Rattle.ark_media.specs.Calls.{HasCause, KeepsAtPut, Puts};
ghost use Rattle.ark_work.specs.Tallied.{Tells, summary};

use ark_media::{Outside, SinkFailed};
use ark_text::put;
use ark_work::Tally;

// Room for the line of a tally and its newline.
const ROOM: usize = 160;

// Writes the line of a tally, with its newline, and gives its length.
fn write_summary(tally: &Tally, lines: u32, out: &mut [u8]) -> usize
    requires room { ROOM ≤ length out.old }
    ensures written { (replies : List (List ℕ)) → Tells tally.now replies →
        take result out.new ≡ summary lines replies ++ 10 ∷ [] }
    ensures fits { result ≤ ROOM }
    ensures room { length out.new ≡ length out.old }
{
    let at = tally.print(lines, out);
    put(out, at, b"\n")
}

/// Puts the line of a tally, of a script with so many lines behind its prelude.
pub fn put_summary<W: Outside>(tally: &Tally, lines: u32, world: &mut W) -> Result<(), SinkFailed>
    ensures puts { (replies : List (List ℕ)) → Tells tally.now replies →
        Puts (W.told world.old) (W.told world.new) (summary lines replies ++ 10 ∷ [])
        (is_ok result) }
    ensures cause { HasCause (W.beside world.old).sink_faults (W.beside world.new).sink_faults
        result }
    ensures keeps { KeepsAtPut (W.beside world.old) (W.beside world.new) }
{
    let mut line = [0u8; ROOM];
    let end = write_summary(tally, lines, &mut line);
    world.put(&line[..end])
}
