//! The program `xxh`: hashes standard input as its arguments command.
#![tactic(auto)]

use std::process::ExitCode;
use xxh_program::program::run_process;

/// Runs the program over the process's arguments and streams, and returns its exit status.
pub fn main(rt: HostRuntime) -> ExitCode {
    ExitCode::from(run_process(&rt, &mut rt.stdin(), rt.stdout(), rt.stderr()))
}
