ghost use Rattle.std.specs.Prelude.{◌≡◌, ◌≤◌, ◌⊎◌, ◌++◌, ◌∷◌, ℕ, List, [], Option, Some, None, length, map, take, replicate, string_bytes};
ghost use Rattle.ark_media.specs.Journal.{Event, History};
ghost use Rattle.ark_media.specs.Calls.{Goes, Rose};
ghost use Rattle.ark_machine.specs.System.{fresh_system};
ghost use Rattle.ark_table.specs.Standing.{IsTableOf};
ghost use Rattle.ark_host.specs.Stands.{Stands};
ghost use Rattle.ark_host.specs.Inside.{IsInside};
ghost use Rattle.ark_host.specs.Time.{IsSound};
ghost use Rattle.ark_cli.specs.Words.{AsksFor};
ghost use Rattle.ark_cli.specs.Session.{NoneFailed};
ghost use Rattle.ark_cli.specs.Complete.{FitsRun, IsUntroubled, HasNoFault};
ghost use Rattle.ark_cli.specs.Ending.{Runs, Commands, Closes, Does, IsCause, closing_words};

use crate::checking::check_device;
use crate::line::LineBuffer;
use crate::opening::{open_attached, open_new};
use crate::script::run_script;
use crate::words::{Asked, read_words};
use crate::working::work_device;
use ark_answer::ReplyBuffer;
use ark_base::Status;
use ark_host::Host;
use ark_media::Outside;
use ark_text::{put, put_number};
use ark_words::WordsFault;
use std::alloc::Global;

// Opens a new device and runs the script on it.
fn run_made<W: Outside>(
    blocks: u32,
    device: &str,
    host: &mut Host,
    line: &mut LineBuffer,
    out: &mut ReplyBuffer,
    world: &mut W,
) -> Status
    requires low { 130 ≤ blocks }
    requires high { blocks ≤ 1048576 }
    requires host { (h : History) → length h.base ≡ blocks → IsTableOf h (replicate 128 None) →
        Stands host.old blocks h (fresh_system blocks) }
    requires sound { IsSound host.old }
    requires inside { IsInside blocks host.old }
    requires none { host.old.lines ≡ 0 }
    requires line { line.old ≡ [] }
    ensures runs { Runs (Some blocks) device.now (W.told world.old) (W.told world.new)
        (W.beside world.old) (W.beside world.new) result }
    ensures cause { IsCause (W.told world.old) (W.told world.new)
        (W.beside world.old) (W.beside world.new) result }
{
    match open_new(blocks, device, out, world) {
        Err(status) => status,
        Ok(()) => run_script(host, line, out, world),
    }
}

// Runs the script on a new device.
fn run_new<W: Outside>(alloc: Global, blocks: u32, device: &str, world: &mut W) -> Status
    requires low { 130 ≤ blocks }
    requires high { blocks ≤ 1048576 }
    ensures runs { Runs (Some blocks) device.now (W.told world.old) (W.told world.new)
        (W.beside world.old) (W.beside world.new) result }
    ensures cause { IsCause (W.told world.old) (W.told world.new)
        (W.beside world.old) (W.beside world.new) result }
{
    let Ok(mut line) = LineBuffer::new(alloc) else {
        return Status::Memory;
    };
    let Ok(mut out) = ReplyBuffer::new(alloc) else {
        return Status::Memory;
    };
    let Ok(mut host) = Host::new(alloc, blocks) else {
        return Status::Memory;
    };
    run_made(blocks, device, &mut host, &mut line, &mut out, world)
}

// Opens a device that was there and runs the script on it.
fn run_found<W: Outside>(
    alloc: Global,
    device: &str,
    line: &mut LineBuffer,
    out: &mut ReplyBuffer,
    world: &mut W,
) -> Status
    requires line { line.old ≡ [] }
    ensures runs { Runs None device.now (W.told world.old) (W.told world.new)
        (W.beside world.old) (W.beside world.new) result }
    ensures cause { IsCause (W.told world.old) (W.told world.new)
        (W.beside world.old) (W.beside world.new) result }
{
    match open_attached(alloc, device, out, world) {
        Err(status) => status,
        Ok(mut host) => run_script(&mut host, line, out, world),
    }
}

// Runs the script on a device that was there.
fn run_old<W: Outside>(alloc: Global, device: &str, world: &mut W) -> Status
    ensures runs { Runs None device.now (W.told world.old) (W.told world.new)
        (W.beside world.old) (W.beside world.new) result }
    ensures cause { IsCause (W.told world.old) (W.told world.new)
        (W.beside world.old) (W.beside world.new) result }
{
    let Ok(mut line) = LineBuffer::new(alloc) else {
        return Status::Memory;
    };
    let Ok(mut out) = ReplyBuffer::new(alloc) else {
        return Status::Memory;
    };
    run_found(alloc, device, &mut line, &mut out, world)
}

// What the words ask for, up to the closing line.
fn command<W: Outside>(alloc: Global, words: &[String], world: &mut W) -> Status
    ensures runs { Commands (map string_bytes words.now) (W.told world.old) (W.told world.new)
        (W.beside world.old) (W.beside world.new) result }
    ensures cause { IsCause (W.told world.old) (W.told world.new)
        (W.beside world.old) (W.beside world.new) result }
{
    match read_words(alloc, words) {
        Ok(Asked::New(blocks, device)) => run_new(alloc, blocks, device, world),
        Ok(Asked::Old(device)) => run_old(alloc, device, world),
        Ok(Asked::Check(device)) => check_device(alloc, device, world),
        Ok(Asked::Work(seed, lines, device)) => work_device(alloc, seed, lines, device, world),
        Err(WordsFault::Usage) => Status::Usage,
        Err(WordsFault::Memory) => Status::Memory,
    }
}

// Writes the closing line of a damaged device, and gives its length.
fn write_damaged(block: u32, out: &mut [u8]) -> usize
    requires room { length out.old ≡ 40 }
    ensures written { take result out.new ≡ closing_words (Status.Damaged block) ++ 10 ∷ [] }
    ensures fits { result ≤ 40 }
    ensures room { length out.new ≡ 40 }
{
    let at = put(out, 0, b"fault damaged ");
    let at = put_number(out, at, u64::from(block));
    put(out, at, b"\n")
}

// Puts the closing line of a status that has one. Where this fails, the status stays.
fn close<W: Outside>(status: Status, world: &mut W)
    ensures unfailed { status ≡ Status.Done →
        NoneFailed (W.beside world.old) (W.beside world.new) }
    ensures closes { (closing : List Event)
        × Closes status (W.beside world.old).sink_faults (W.beside world.new).sink_faults closing
        × Goes closing [] (W.told world.old) (W.told world.new)
        (W.beside world.old) (W.beside world.new) }
{
    let mut damaged = [0u8; 40];
    let line: &[u8] = match status {
        Status::Done => return,
        Status::Sink => return,
        Status::Usage => b"fault usage\n",
        Status::Source => b"fault source\n",
        Status::Device => b"fault device\n",
        Status::Memory => b"fault memory\n",
        Status::Long => b"fault long\n",
        Status::Damaged(block) => {
            let end = write_damaged(block, &mut damaged);
            &damaged[..end]
        }
    };
    let _ = world.put(line);
}

/// Does all that the program does, for the words after its name: `run DEVICE` reads the grants of a device that was there, and
/// `run --new N DEVICE` makes a device of N blocks and formats it; then the script that is fetched is run, with one reply line
/// for each line. It takes at most 2^30 + 1 bytes of the script. `check DEVICE` puts the report of a device that was there: its
/// size, and a line for each grant. `work SEED LINES DEVICE` makes a device of 4,096 blocks, runs the script of the seed on it,
/// and puts one line that tells of its replies. The answer is the status of the process.
pub fn arrakis<W: Outside>(alloc: Global, words: &[String], world: &mut W) -> Status
    // How it ends, and what the outside tells then: output, device events and script.
    ensures does { Does (map string_bytes words.now) (W.told world.old) (W.told world.new)
        (W.beside world.old) (W.beside world.new) result }

    // When each status comes; want of memory may come before a device is made or is loaded, also where the words are no command.
    ensures done { result ≡ Status.Done → NoneFailed (W.beside world.old) (W.beside world.new) }
    ensures usage { result ≡ Status.Usage → (blocks : Option ℕ) (device : List ℕ) →
        AsksFor (map string_bytes words.now) blocks device → ⊥ }
    ensures no_command { ((blocks : Option ℕ) (device : List ℕ) →
        AsksFor (map string_bytes words.now) blocks device → ⊥)
        → (result ≡ Status.Usage) ⊎ (result ≡ Status.Memory) }
    ensures source { result ≡ Status.Source →
        Rose (W.beside world.old).source_faults (W.beside world.new).source_faults }
    ensures sink { result ≡ Status.Sink →
        Rose (W.beside world.old).sink_faults (W.beside world.new).sink_faults }
    ensures device { result ≡ Status.Device →
        Rose (W.beside world.old).attach_faults (W.beside world.new).attach_faults ⊎
        Rose (W.told world.old).faults (W.told world.new).faults }
    // A device is told to be damaged only where it was there.
    ensures damaged { (block : ℕ) → result ≡ Status.Damaged block → (size : ℕ) (device : List ℕ) →
        AsksFor (map string_bytes words.now) (Some size) device → ⊥ }
    // Where nothing fails, the whole script is run, or the report put, unless memory was wanting or the device is damaged.
    ensures complete { (blocks : Option ℕ) (device : List ℕ) →
        AsksFor (map string_bytes words.now) blocks device →
        FitsRun (map string_bytes words.now) (W.beside world.old).script
        (W.beside world.new).script →
        IsUntroubled (W.told world.old) (W.told world.new)
        (W.beside world.old) (W.beside world.new) → (result ≡ Status.Done) ⊎
        (result ≡ Status.Memory) ⊎ ((block : ℕ) × (result ≡ Status.Damaged block)) }
    // And where no count of failed device calls rose, none of the run's failed.
    ensures unfailed { result ≡ Status.Done →
        (Rose (W.told world.old).faults (W.told world.new).faults → ⊥) →
        HasNoFault (W.told world.new).history }
{
    let status = command(alloc, words, world);
    close(status, world);
    status
}
