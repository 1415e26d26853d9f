//! `xxhsum` prints and checks digests of files. docs/XXHSUM.md lists what is proved.
#![tactic(auto)]

use std::io::IsTerminal;
use std::process::ExitCode;
use std::rt::Env;
use xxh_io::from_write::FromWrite;
use xxhsum_app::run::run;
use xxhsum_fs::calls::{Process, Reads};
use xxhsum_fs::system::SystemFiles;
use xxhsum_fs::uninterrupted::Uninterrupted;
use xxhsum_output::messages::Messages;
use xxhsum_output::visible::Visible;
use xxhsum_output::whole_lines::WholeLines;
use xxhsum_program::arguments::ProcessArguments;
use xxhsum_program::process::{Console, Interactive};
use xxhsum_program::streams::Streams;
use xxhsum_program::terminal::Terminal;

/// Passes the process's arguments, files and streams to the program, and returns its exit status.
pub fn main(rt: HostRuntime) -> ExitCode {
    let (shows_output, shows_errors) = (rt.stdout().is_terminal(), rt.stderr().is_terminal());
    let console = Console {
        input: Uninterrupted::new(Reads::new(rt.stdin())),
        interactive: Interactive {
            input: rt.stdin().is_terminal(),
            errors: shows_errors && !is_dumb(&rt),
        },
        terminal: Terminal::new(rt.stderr(), &rt),
    };
    // On a terminal control characters are made visible, and each line is written at once. Each message is one write.
    let output = Visible::new(FromWrite::new(rt.stdout()), shows_output);
    let messages = Messages::new(WholeLines::new(FromWrite::new(rt.stderr()), true));
    let mut streams = Streams::new(
        WholeLines::new(output, !shows_output),
        Visible::new(messages, shows_errors),
    );
    ExitCode::from(run(
        rt.alloc(),
        &ProcessArguments::new(&rt),
        &SystemFiles::new(&Process::new(&rt)),
        console,
        &mut streams,
    ))
}

// True if the terminal has no control sequences, by the environment variable `TERM`.
fn is_dumb<P: Env>(process: &P) -> bool {
    let mut term = [0; 4];
    match process.var("TERM", &mut term) {
        Ok(4) => term == *b"dumb",
        _ => false,
    }
}
