ghost use Rattle.std.specs.Prelude.{◌≡◌, ◌≤◌, ◌+◌, ◌^◌, ◌∷◌, ◌++◌, ℕ, true, [], List, length, is_ok, OnOk, OnErr, IfOk, IfErr, ◌<◌, ◌⊎◌};
ghost use Rattle.ark_media.specs.Journal.{Event};
ghost use Rattle.ark_media.specs.Calls.{Rose, GoesBy};
ghost use Rattle.ark_script.specs.Reply.{bytes_shown};
ghost use Rattle.ark_script.specs.Text.{IsSaid, no_newline};
ghost use Rattle.ark_host.specs.Inside.{IsInside};
ghost use Rattle.ark_host.specs.Time.{IsSound};
ghost use Rattle.ark_cli.specs.Line.{kept};
ghost use Rattle.ark_answer.specs.Answered.{LineSaid};
ghost use Rattle.ark_cli.specs.Session.{WorldGoesBy, LinePut, FedSoFar, FeedsMore, FeedsLast, FetchesMore, ScriptRun, is_done, piece_of, NoneFailed, IsFault, IsScriptEnd};

use crate::line::{LineBuffer, kept_of};
use ark_answer::{ReplyBuffer, answer, refuse};
use ark_base::{Refusal, Status};
use ark_host::Host;
use ark_media::{Disk, Outside, SinkFailed};
use ark_reading::MAX_LINE;
use ark_script::Reply;
use memchr::memchr;

// Reads one line, of which too long a one is told by its kept bytes, and makes its step.
fn serve_line<D: Disk>(host: &mut Host, line: &[u8], out: &mut Reply, disk: &mut D)
    requires sound { IsSound host.old }
    requires inside { IsInside (D.told disk.old).blocks host.old }
    requires few { host.old.lines < 2 ^ 31 }
    ensures serves { GoesBy D.goes disk.old disk.new (λ es. (whole : List ℕ) →
        line.now ≡ kept whole →
        LineSaid host.old whole es host.new (D.told disk.new) out.new.said (bytes_shown out.new)) }
    ensures said { IsSaid out.new.said }
    ensures sound { IsSound host.new }
    ensures inside { IsInside (D.told disk.old).blocks host.new }
    ensures counted { host.new.lines ≤ host.old.lines + 1 }
{
    if line.len() > MAX_LINE {
        refuse(out, Refusal::TooLong);
        return;
    }
    answer(host, line, out, disk);
}

// Answers one line: serves it, and puts its reply.
fn answer_line<W: Outside>(
    host: &mut Host,
    line: &[u8],
    out: &mut ReplyBuffer,
    world: &mut W,
) -> Result<(), SinkFailed>
    requires sound { IsSound host.old }
    requires inside { IsInside (W.told world.old).blocks host.old }
    requires few { host.old.lines < 2 ^ 31 }
    ensures puts { WorldGoesBy (W.told world.old) (W.told world.new)
        (W.beside world.old) (W.beside world.new) (λ part. (whole : List ℕ) →
        line.now ≡ kept whole →
        LinePut host.old whole part host.new (W.told world.new) (is_ok result)) }
    ensures unfailed { OnOk result (NoneFailed (W.beside world.old) (W.beside world.new)) }
    ensures cause { OnErr result
        (Rose (W.beside world.old).sink_faults (W.beside world.new).sink_faults) }
    ensures sound { IsSound host.new }
    ensures inside { IsInside (W.told world.old).blocks host.new }
    ensures counted { host.new.lines ≤ host.old.lines + 1 }
{
    serve_line(host, line, &mut out.reply, world);
    out.text.print(&out.reply);
    world.put(out.text.bytes())
}

// Answers the line that is kept, with these bytes at its end. It is not copied where all of it lies there.
fn end_line<W: Outside>(
    host: &mut Host,
    line: &mut LineBuffer,
    bytes: &[u8],
    out: &mut ReplyBuffer,
    world: &mut W,
) -> Result<(), SinkFailed>
    requires clean { no_newline bytes.now ≡ true }
    requires sound { IsSound host.old }
    requires inside { IsInside (W.told world.old).blocks host.old }
    requires few { host.old.lines < 2 ^ 31 }
    ensures feeds { WorldGoesBy (W.told world.old) (W.told world.new)
        (W.beside world.old) (W.beside world.new) (λ more. (first : Host) (fed : List ℕ)
        (added : List Event) →
        FedSoFar first fed added host.old (W.told world.old) line.old →
        FeedsMore first fed (bytes.now ++ 10 ∷ []) added more host.new
        (W.told world.new) line.new (is_ok result)) }
    ensures unfailed { OnOk result (NoneFailed (W.beside world.old) (W.beside world.new)) }
    ensures cause { OnErr result
        (Rose (W.beside world.old).sink_faults (W.beside world.new).sink_faults) }
    ensures sound { IsSound host.new }
    ensures inside { IsInside (W.told world.old).blocks host.new }
    ensures counted { host.new.lines ≤ host.old.lines + 1 }
{
    if line.bytes().is_empty() {
        return answer_line(host, kept_of(bytes), out, world);
    }
    line.extend(bytes);
    let answered = answer_line(host, line.bytes(), out, world);
    line.clear();
    answered
}

// Takes the bytes up to the first newline and answers the line that it ends, or takes all where there is none. The answer is
// their number.
fn run_piece<W: Outside>(
    host: &mut Host,
    line: &mut LineBuffer,
    bytes: &[u8],
    out: &mut ReplyBuffer,
    world: &mut W,
) -> Result<usize, SinkFailed>
    requires some { 0 < length bytes.now }
    requires sound { IsSound host.old }
    requires inside { IsInside (W.told world.old).blocks host.old }
    requires few { host.old.lines < 2 ^ 31 }
    ensures feeds { WorldGoesBy (W.told world.old) (W.told world.new)
        (W.beside world.old) (W.beside world.new) (λ more. (first : Host) (fed : List ℕ)
        (added : List Event) →
        FedSoFar first fed added host.old (W.told world.old) line.old →
        FeedsMore first fed (piece_of bytes.now result) added more host.new
        (W.told world.new) line.new (is_ok result)) }
    ensures taken { IfOk result (λ n. (0 < n) × (n ≤ length bytes.now)) }
    ensures unfailed { OnOk result (NoneFailed (W.beside world.old) (W.beside world.new)) }
    ensures cause { OnErr result
        (Rose (W.beside world.old).sink_faults (W.beside world.new).sink_faults) }
    ensures sound { IsSound host.new }
    ensures inside { IsInside (W.told world.old).blocks host.new }
    ensures counted { host.new.lines ≤ host.old.lines + 1 }
{
    match memchr(b'\n', bytes) {
        Some(at) => match end_line(host, line, &bytes[..at], out, world) {
            Ok(()) => Ok(at + 1),
            Err(e) => Err(e),
        },
        None => {
            line.extend(bytes);
            Ok(bytes.len())
        }
    }
}

// Takes bytes of the script.
fn run_bytes<W: Outside>(
    host: &mut Host,
    line: &mut LineBuffer,
    bytes: &[u8],
    out: &mut ReplyBuffer,
    world: &mut W,
) -> Result<(), SinkFailed>
    requires sound { IsSound host.old }
    requires inside { IsInside (W.told world.old).blocks host.old }
    requires few { host.old.lines + length bytes.now ≤ 2 ^ 31 }
    ensures feeds { WorldGoesBy (W.told world.old) (W.told world.new)
        (W.beside world.old) (W.beside world.new) (λ more. (first : Host) (fed : List ℕ)
        (added : List Event) →
        FedSoFar first fed added host.old (W.told world.old) line.old →
        FeedsMore first fed bytes.now added more host.new (W.told world.new) line.new
        (is_ok result)) }
    ensures unfailed { OnOk result (NoneFailed (W.beside world.old) (W.beside world.new)) }
    ensures cause { OnErr result
        (Rose (W.beside world.old).sink_faults (W.beside world.new).sink_faults) }
    ensures sound { IsSound host.new }
    ensures inside { IsInside (W.told world.old).blocks host.new }
    ensures counted { host.new.lines ≤ host.old.lines + length bytes.now }
{
    let mut at = 0;
    while at < bytes.len() {
        at += run_piece(host, line, &bytes[at..], out, world)?;
    }
    Ok(())
}

// The script is at its end: its last line may have no newline.
fn finish<W: Outside>(
    host: &mut Host,
    line: &LineBuffer,
    out: &mut ReplyBuffer,
    world: &mut W,
) -> Result<(), SinkFailed>
    requires sound { IsSound host.old }
    requires inside { IsInside (W.told world.old).blocks host.old }
    requires few { host.old.lines < 2 ^ 31 }
    ensures feeds_last { WorldGoesBy (W.told world.old) (W.told world.new)
        (W.beside world.old) (W.beside world.new) (λ more. (first : Host) (fed : List ℕ)
        (added : List Event) →
        FedSoFar first fed added host.old (W.told world.old) line.now →
        FeedsLast first fed added more (W.told world.new) (is_ok result)) }
    ensures unfailed { OnOk result (NoneFailed (W.beside world.old) (W.beside world.new)) }
    ensures cause { OnErr result
        (Rose (W.beside world.old).sink_faults (W.beside world.new).sink_faults) }
{
    if line.bytes().is_empty() {
        return Ok(());
    }
    answer_line(host, line.bytes(), out, world)
}

// No more than so many bytes of a script are run.
const LIMIT: usize = 1_073_741_824;

// Fetches bytes of the script and takes them. The answer is their number, or how the run ends.
fn turn<W: Outside>(
    host: &mut Host,
    line: &mut LineBuffer,
    chunk: &mut [u8],
    out: &mut ReplyBuffer,
    world: &mut W,
) -> Result<usize, Status>
    requires some { 0 < length chunk.old }
    requires sound { IsSound host.old }
    requires inside { IsInside (W.told world.old).blocks host.old }
    requires few { host.old.lines + length chunk.old ≤ 2 ^ 31 }
    ensures fetches { FetchesMore (length chunk.old) (W.told world.old) (W.told world.new)
        (W.beside world.old) (W.beside world.new) host.old host.new line.old line.new result }
    ensures bound { IfOk result (λ n. n ≤ length chunk.old) }
    ensures unfailed { OnOk result (NoneFailed (W.beside world.old) (W.beside world.new)) }
    ensures cause { IfErr result (λ e. IsFault (W.beside world.old) (W.beside world.new) e) }
    ensures sound { IsSound host.new }
    ensures inside { IsInside (W.told world.old).blocks host.new }
    ensures counted { IfOk result (λ n. host.new.lines ≤ host.old.lines + n) }
{
    match world.fetch(chunk) {
        Err(_) => Err(Status::Source),
        Ok(count) => match run_bytes(host, line, &chunk[..count], out, world) {
            Ok(()) => Ok(count),
            Err(_) => Err(Status::Sink),
        },
    }
}

// The script is at its end.
fn end_script<W: Outside>(
    host: &mut Host,
    line: &LineBuffer,
    out: &mut ReplyBuffer,
    world: &mut W,
) -> Status
    requires sound { IsSound host.old }
    requires inside { IsInside (W.told world.old).blocks host.old }
    requires few { host.old.lines < 2 ^ 31 }
    ensures feeds_last { WorldGoesBy (W.told world.old) (W.told world.new)
        (W.beside world.old) (W.beside world.new) (λ more. (first : Host) (fed : List ℕ)
        (added : List Event) →
        FedSoFar first fed added host.old (W.told world.old) line.now →
        FeedsLast first fed added more (W.told world.new) (is_done result)) }
    ensures cause { ((result ≡ Status.Done) ×
        NoneFailed (W.beside world.old) (W.beside world.new)) ⊎
        ((result ≡ Status.Sink) ×
        Rose (W.beside world.old).sink_faults (W.beside world.new).sink_faults) }
{
    match finish(host, line, out, world) {
        Ok(()) => Status::Done,
        Err(_) => Status::Sink,
    }
}

/// Runs the script to its end, or until the limit is passed, a fetch or a put fails.
pub fn run_script<W: Outside>(
    host: &mut Host,
    line: &mut LineBuffer,
    out: &mut ReplyBuffer,
    world: &mut W,
) -> Status
    requires sound { IsSound host.old }
    requires inside { IsInside (W.told world.old).blocks host.old }
    requires none { host.old.lines ≡ 0 }
    ensures runs { ScriptRun (W.told world.old) (W.told world.new)
        (W.beside world.old) (W.beside world.new) host.old line.old result }
    ensures cause { IsScriptEnd (W.beside world.old) (W.beside world.new) result }
{
    let mut chunk = [0u8; 4096];
    let mut count: usize = 0;
    while count < LIMIT {
        let room = (LIMIT - count).min(4096);
        match turn(host, line, &mut chunk[..room], out, world) {
            Err(status) => return status,
            Ok(0) => return end_script(host, line, out, world),
            Ok(more) => count += more,
        }
    }
    match world.fetch(&mut chunk[..1]) {
        Err(_) => Status::Source,
        Ok(0) => end_script(host, line, out, world),
        Ok(_) => Status::Long,
    }
}
