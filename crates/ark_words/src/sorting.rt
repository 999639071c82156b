//! The words after a command's name, sorted by `clap`.
ghost use Rattle.std.specs.Prelude.{◌≡◌, ◌≢◌, [], ◌∷◌, IfOk, map, string_bytes, option_map, option_to_list, false, true};
ghost use Rattle.clap.specs.Words.{app_of, rule_of, fault_of, matches_of, rows_of, found_of, is_simple_and_free};
ghost use Rattle.ark_words.specs.Apps.{bare, check_app, run_app, wanted, work_app};
ghost use Rattle.ark_words.specs.Sorted.{Sorted, SortsTo};

use crate::task::WordsFault;
use clap::error::ErrorKind;
use clap::{Arg, ArgAction, ArgMatches, Command};
use std::alloc::{AllocError, Global};

/// The words after `run`: the value of `--new`, where it is given, and the plain word.
pub fn run_words<'a>(
    alloc: Global,
    words: &'a [String],
) -> Result<(Option<&'a str>, &'a str), WordsFault>
    ensures ok { IfOk result (λ r. SortsTo (map string_bytes words.entry.now) 1 1
        (record { new = option_to_list (option_map (λ t. t.now) r.0); plain = r.1.now ∷ [] })) }
    ensures usage { result ≡ Err WordsFault.Usage → (s : Sorted) →
        SortsTo (map string_bytes words.entry.now) 1 1 s → ⊥ }
{
    let matches = run_matches(alloc, words)?;
    let Some(device) = matches.get_str("device") else {
        unreachable!()
    };
    Ok((matches.get_str("new"), device))
}

/// The word after `check`.
pub fn check_words<'a>(alloc: Global, words: &'a [String]) -> Result<&'a str, WordsFault>
    ensures ok { IfOk result (λ r. SortsTo (map string_bytes words.entry.now) 0 1
        (record { new = []; plain = r.now ∷ [] })) }
    ensures usage { result ≡ Err WordsFault.Usage → (s : Sorted) →
        SortsTo (map string_bytes words.entry.now) 0 1 s → ⊥ }
{
    let matches = check_matches(alloc, words)?;
    let Some(device) = matches.get_str("device") else {
        unreachable!()
    };
    Ok(device)
}

/// The three words after `work`.
pub fn work_words<'a>(
    alloc: Global,
    words: &'a [String],
) -> Result<(&'a str, &'a str, &'a str), WordsFault>
    ensures ok { IfOk result (λ r. SortsTo (map string_bytes words.entry.now) 0 3
        (record { new = []; plain = r.0.now ∷ r.1.now ∷ r.2.now ∷ [] })) }
    ensures usage { result ≡ Err WordsFault.Usage → (s : Sorted) →
        SortsTo (map string_bytes words.entry.now) 0 3 s → ⊥ }
{
    let matches = work_matches(alloc, words)?;
    let (Some(seed), Some(lines), Some(device)) = (
        matches.get_str("seed"),
        matches.get_str("lines"),
        matches.get_str("device"),
    ) else {
        unreachable!()
    };
    Ok((seed, lines, device))
}

fn run_matches<'a>(alloc: Global, words: &'a [String]) -> Result<ArgMatches<'a>, WordsFault>
    ensures ok { IfOk result (λ m. fault_of run_app (map string_bytes words.entry.now) ≡ []) }
    ensures rows { IfOk result
        (λ m. rows_of (found_of m) ≡ matches_of run_app (map string_bytes words.entry.now)) }
    ensures usage { result ≡ Err WordsFault.Usage →
        fault_of run_app (map string_bytes words.entry.now) ≢ [] }
{
    let Ok(command) = run_command(alloc) else {
        return Err(WordsFault::Memory);
    };
    matches_by(command, words)
}

fn check_matches<'a>(alloc: Global, words: &'a [String]) -> Result<ArgMatches<'a>, WordsFault>
    ensures ok { IfOk result (λ m. fault_of check_app (map string_bytes words.entry.now) ≡ []) }
    ensures rows { IfOk result
        (λ m. rows_of (found_of m) ≡ matches_of check_app (map string_bytes words.entry.now)) }
    ensures usage { result ≡ Err WordsFault.Usage →
        fault_of check_app (map string_bytes words.entry.now) ≢ [] }
{
    let Ok(command) = check_command(alloc) else {
        return Err(WordsFault::Memory);
    };
    matches_by(command, words)
}

fn work_matches<'a>(alloc: Global, words: &'a [String]) -> Result<ArgMatches<'a>, WordsFault>
    ensures ok { IfOk result (λ m. fault_of work_app (map string_bytes words.entry.now) ≡ []) }
    ensures rows { IfOk result
        (λ m. rows_of (found_of m) ≡ matches_of work_app (map string_bytes words.entry.now)) }
    ensures usage { result ≡ Err WordsFault.Usage →
        fault_of work_app (map string_bytes words.entry.now) ≢ [] }
{
    let Ok(command) = work_command(alloc) else {
        return Err(WordsFault::Memory);
    };
    matches_by(command, words)
}

// What a simple command makes of the words.
fn matches_by<'a>(command: Command<'a>, words: &'a [String]) -> Result<ArgMatches<'a>, WordsFault>
    requires { is_simple_and_free (app_of command) ≡ true }
    ensures ok { IfOk result
        (λ m. fault_of (app_of command.entry) (map string_bytes words.entry.now) ≡ []) }
    ensures rows { IfOk result (λ m. rows_of (found_of m)
        ≡ matches_of (app_of command.entry) (map string_bytes words.entry.now)) }
    ensures usage { result ≡ Err WordsFault.Usage
        → fault_of (app_of command.entry) (map string_bytes words.entry.now) ≢ [] }
{
    match command.try_get_matches_from(words) {
        Ok(matches) => Ok(matches),
        Err(error) => match error.kind() {
            ErrorKind::OutOfMemory => Err(WordsFault::Memory),
            _ => Err(WordsFault::Usage),
        },
    }
}

fn run_command<'a>(alloc: Global) -> Result<Command<'a>, AllocError>
    ensures { IfOk result (λ c. app_of c ≡ run_app) }
{
    let new = Arg::new(alloc, "new").long("new").action(ArgAction::Set);
    bare(alloc, "run").arg(new)?.arg(wanted(alloc, "device"))
}

fn check_command<'a>(alloc: Global) -> Result<Command<'a>, AllocError>
    ensures { IfOk result (λ c. app_of c ≡ check_app) }
{
    bare(alloc, "check").arg(wanted(alloc, "device"))
}

fn work_command<'a>(alloc: Global) -> Result<Command<'a>, AllocError>
    ensures { IfOk result (λ c. app_of c ≡ work_app) }
{
    bare(alloc, "work")
        .arg(wanted(alloc, "seed"))?
        .arg(wanted(alloc, "lines"))?
        .arg(wanted(alloc, "device"))
}

// A command with no help and no version, whose words begin after its name.
fn bare<'a>(alloc: Global, name: &'a str) -> Command<'a>
    ensures { app_of result ≡ bare name.entry.now }
{
    Command::new(alloc, name)
        .no_binary_name(true)
        .disable_help_flag(true)
        .disable_version_flag(true)
}

// A plain word that is wanted.
fn wanted<'a>(alloc: Global, id: &'a str) -> Arg<'a>
    ensures rule { rule_of result ≡ wanted id.entry.now }
    ensures local { result.global ≡ false }
{
    Arg::new(alloc, id).required(true).action(ArgAction::Set)
}
