ghost use Rattle.std.specs.Prelude.{◌≡◌, map, string_bytes, IfOk, OnErr};
ghost use Rattle.std.specs.Process.{exit_status};
ghost use Rattle.ark_base.specs.Status.{code_of};
ghost use Rattle.ark_cli.specs.Ending.{IsQuiet};
ghost use Rattle.ark_record.specs.Watch.{told_by, beside_by};
ghost use Rattle.ark_file.specs.Ended.{Exits};

use crate::running::run;
use crate::world::{FileHost, FileWorld};
use ark_base::{Memory, Status};
use ark_media::Outside;
use ark_record::Watched;
use std::alloc::Global;
use std::env;
use std::io::ErrorKind;
use std::process::ExitCode;

fn run_words(alloc: Global, words: &[String], world: &mut FileWorld) -> ExitCode
    ensures { Exits (map string_bytes words.now) world.old.log.past world.new.log.past
        (exit_status result) }
{
    let status = run(alloc, words, world);
    ExitCode::from(status.code())
}

// Memory was wanting to read the words.
fn give_up(world: &mut FileWorld) -> ExitCode
    ensures quiet { IsQuiet (told_by world.old.log.past) (told_by world.new.log.past)
        (beside_by world.old.log.past) (beside_by world.new.log.past) Status.Memory }
    ensures lacks { exit_status result ≡ code_of Status.Memory }
{
    // Where this line cannot be put either, the status alone tells it.
    let _ = world.put(b"fault memory\n");
    ExitCode::from(Status::Memory.code())
}

/// Runs the words after the program's name, if memory sufficed to read them; the answer is the exit status.
pub fn program(alloc: Global, words: Result<Vec<String>, Memory>, world: &mut FileWorld) -> ExitCode
    ensures exits { IfOk words (λ list. Exits
        (map string_bytes list.items) world.old.log.past world.new.log.past (exit_status result)) }
    ensures quiet { OnErr words (IsQuiet (told_by world.old.log.past) (told_by world.new.log.past)
        (beside_by world.old.log.past) (beside_by world.new.log.past) Status.Memory) }
    ensures lacks { OnErr words (exit_status result ≡ code_of Status.Memory) }
{
    match words {
        Ok(words) => run_words(alloc, &words, world),
        Err(Memory) => give_up(world),
    }
}

// The words of the command line after the program's name; none, which is no command, where one is not UTF-8.
fn command_words(rt: &HostRuntime) -> Result<Vec<String>, Memory> {
    let mut words = Vec::new(rt.alloc());
    match env::args(rt) {
        Ok(args) => {
            for word in args.skip(1) {
                words.push(word).map_err(|_| Memory)?;
            }
            Ok(words)
        }
        Err(e) if e.kind() == ErrorKind::InvalidData => Ok(words),
        Err(_) => Err(Memory),
    }
}

/// The whole program. What `program` ensures holds whatever is supposed of the file and of standard input.
pub fn start(rt: HostRuntime) -> ExitCode {
    let words = command_words(&rt);
    program(rt.alloc(), words, &mut Watched::begin(FileHost::new(rt)))
}
