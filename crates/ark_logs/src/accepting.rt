ghost use Rattle.std.specs.Prelude.{◌≡◌, ◌≤◌, false, [], length};
ghost use Rattle.ark_media.specs.Calls.{Told};
ghost use Rattle.ark_script.specs.Line.{spelled};
ghost use Rattle.ark_script.specs.Text.{IsNamed, IsSaid, wants_memory};
ghost use Rattle.ark_script.specs.declared.said.Said.TheVariants as said;
ghost use Rattle.ark_machine.specs.Logs as logs;
ghost use Rattle.ark_held.specs.Does.{Acts};
ghost use Rattle.ark_logs.specs.Refused.{refused_by};

use crate::finding::find_open_of;
use ark_base::{Kind, Label, Refusal};
use ark_held::App;
use ark_log::ChainRefusal;
use ark_own::spell;
use ark_script::{Hex, Said};

// What a word answers where the log does not accept its command.
fn refusal_of(refusal: ChainRefusal) -> Refusal
    ensures refusal { result ≡ refused_by refusal }
    ensures named { IsNamed result }
    ensures enough { wants_memory (said.Refused result) ≡ false }
{
    match refusal {
        ChainRefusal::Failed => Refusal::LogFailed,
        ChainRefusal::Busy => Refusal::Busy,
        ChainRefusal::LogFull => Refusal::LogFull,
        ChainRefusal::NoEntry => Refusal::NoEntry,
        ChainRefusal::NoBuffer => Refusal::NoBuffer,
    }
}

/// The words `append` and `push`: gives a log, or a queue, a command to append the entry that the digits
/// spell. They are read into `room`, of 32,768 bytes.
pub fn append(app: &mut App, kind: Kind, label: &Label, hex: &Hex<'_>, room: &mut [u8]) -> Said
    requires short { length hex.now.digits.now ≤ 65536 }
    requires room { length room.old ≡ 32768 }
    ensures acts { (t : Told) → Acts t app.old app.new
        (λ m g. logs.append_row kind m label.now (spelled hex.now.digits.now) g) [] result [] }
    ensures areas { app.new.areas ≡ app.old.areas }
    ensures said { IsSaid result }
    ensures enough { wants_memory result ≡ false }
{
    let at = match find_open_of(app, kind, label) {
        Err(refusal) => return Said::Refused(refusal),
        Ok(at) => at,
    };
    spell(room, hex);
    match app.append(at.key, &room[..hex.digits.len() / 2]) {
        Ok(number) => Said::Num(number),
        Err(refusal) => Said::Refused(refusal_of(refusal)),
    }
}

/// The word `trim`: gives a log a command to drop the entries below a number.
pub fn trim(app: &mut App, label: &Label, n: u64) -> Said
    ensures acts { (t : Told) →
        Acts t app.old app.new (λ m g. logs.trim_row m label.now n g) [] result [] }
    ensures areas { app.new.areas ≡ app.old.areas }
    ensures said { IsSaid result }
    ensures enough { wants_memory result ≡ false }
{
    let at = match find_open_of(app, Kind::Log, label) {
        Err(refusal) => return Said::Refused(refusal),
        Ok(at) => at,
    };
    match app.trim(at.key, n) {
        Ok(()) => Said::Ok,
        Err(refusal) => Said::Refused(refusal_of(refusal)),
    }
}

/// The word `pop`: gives a queue a command to drop its first entry, which is read first.
pub fn pop(app: &mut App, label: &Label) -> Said
    ensures acts { (t : Told) →
        Acts t app.old app.new (λ m g. logs.pop_row m label.now g) [] result [] }
    ensures areas { app.new.areas ≡ app.old.areas }
    ensures said { IsSaid result }
    ensures enough { wants_memory result ≡ false }
{
    let at = match find_open_of(app, Kind::Queue, label) {
        Err(refusal) => return Said::Refused(refusal),
        Ok(at) => at,
    };
    match app.pop(at.key) {
        Ok(number) => Said::Num(number),
        Err(refusal) => Said::Refused(refusal_of(refusal)),
    }
}
