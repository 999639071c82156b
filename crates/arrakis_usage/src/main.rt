//! The same program, stored with words that are no command.
#![tactic(auto)]

use ark_file::start;
use std::process::ExitCode;

fn main(rt: HostRuntime) -> ExitCode {
    start(rt)
}
