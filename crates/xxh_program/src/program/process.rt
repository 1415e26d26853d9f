//! The program over a process: its arguments, its streams, and the flush at the end.

ghost use Rattle.std.specs.Prelude.{◌≡◌, true, false, Result, List, ℕ, IfErr, OnErr, map, string_bytes};
ghost use Rattle.std.specs.Io.KnownBytes.{Keeps};
ghost use Rattle.std.specs.Borrow.{Bor};
ghost use Rattle.xxh_io.specs.declared.fault.Fault.{Fault};
ghost use Rattle.xxh_io.specs.declared.fault.Fault.TheVariants.{Digest};
ghost use Rattle.xxh_io.specs.declared.from_write.FromWrite.{FromWrite};
ghost use Rattle.xxh_io.specs.FromWrite.{has_write_failed, writer_of};
ghost use Rattle.xxh_io.specs.Process.{Asks, EndsAs, command_asked};
ghost use Rattle.xxh_program.specs.Filter.{filter_of};
ghost use Rattle.xxh_program.specs.Run.{Performs, ReportsError, status_after};

use crate::program::command_line::run;
use crate::program::information::{information_of, print_information};
use std::alloc::{AllocError, Global};
use std::env;
use std::io::{Read, Write};
use std::rt::Env;
use xxh_io::arguments::{argument_fault, words_after_name};
use xxh_io::buffered::Buffered;
use xxh_io::digest_error::DigestError;
use xxh_io::fault::{Fault, conclude};
use xxh_io::from_read::FromRead;
use xxh_io::from_write::FromWrite;
use xxh_io::streams::{Failed, Sink, Source};

// Size of the input's buffer for reads that offer fewer bytes, as those of `save` and `resume` do: one system call for
// each of these would halve the speed.
const INPUT_BUFFER: usize = 65536;

/// Runs the program with the arguments of the process over these streams, and returns the exit status.
///
/// If the only argument is `--help` or `--version`, prints that, with [`print_information`], and reads nothing.
/// Otherwise passes the arguments after the first to [`run`]. The input is read through a buffer, and the output is flushed at
/// the end. An argument that is not UTF-8 makes no command, and missing memory for the arguments is an error; the
/// message of either is written before anything is read.
///
/// Its clause states which statuses there are. The effect of the arguments, the messages and the flush are proved of
/// the functions that it calls with the arguments. That it calls one of them once, with the arguments of this process,
/// is tested, since no clause can name them.
///
/// This is all that `main` does:
///
/// ```
/// fn main(rt: HostRuntime) -> ExitCode {
///     ExitCode::from(run_process(&rt, &mut rt.stdin(), rt.stdout(), rt.stderr()))
/// }
/// ```
pub fn run_process<P, R, W, E>(process: &P, input: &mut R, output: W, errors: E) -> u8
where
    P: Env + AllocGlobal,
    R: Read + Drop,
    W: Write + Drop,
    E: Write + Drop,
    ensures { (answer : Result (Unit {0}) Fault) × (result ≡ status_after answer) }
{
    let mut r = FromRead::new(Buffered::<&mut R, INPUT_BUFFER>::new(input));
    let mut out = FromWrite::new(output);
    let mut err = FromWrite::new(errors);
    match arguments(process) {
        Ok(args) => match information_of(&args) {
            Some(information) => conclude(
                print_information(information, &mut out),
                &r.failure(),
                &mut err,
            ),
            None => run_arguments(process.alloc(), &args, &mut r, &mut out, &mut err),
        },
        Err(fault) => conclude(Err(fault), &r.failure(), &mut err),
    }
}

// Returns the arguments of the process, the program's name first.
fn arguments<P: Env + AllocGlobal>(process: &P) -> Result<Vec<String>, Fault> {
    match env::args(process) {
        Ok(args) => Ok(args.collect(process.alloc())?),
        Err(error) => Err(argument_fault(error)),
    }
}

// Runs the command of these arguments, and flushes the output on success.
fn run_arguments<R: Source, W: Write, E: Sink>(
    alloc: Global,
    args: &[String],
    r: &mut R,
    out: &mut FromWrite<W>,
    err: &mut E,
) -> u8
    requires reader { R.has_failed r.old ≡ false }
    requires writer { ⟦<FromWrite<W> as Sink>⟧.has_failed out.old ≡ false }
    requires faults { E.has_failed err.old ≡ false }
    ensures { (asked : Result (List (Bor (List ℕ))) Fault) × Asks (map string_bytes args.now) asked
        × ((ran answer : Result (Unit {0}) Fault) × (written : FromWrite W)
        × Performs (filter_of R.Source ⟦<FromWrite<W> as Sink>⟧ r.old r.new out.old written)
        (command_asked asked) ran
        × EndsAs ran answer
        × Keeps (W.contents (writer_of written)) (W.contents (writer_of out.new))
        × ReportsError E.Sink (R.reason r.new) answer err.old err.new
        × (result ≡ status_after answer)) }
{
    match words_after_name(alloc, args) {
        Ok(words) => match run(alloc, &words, r, out, err) {
            0 => conclude(flush(out), &r.failure(), err),
            status => status,
        },
        Err(AllocError) => conclude(Err(Fault::OutOfMemory), &r.failure(), err),
    }
}

pub(super) fn flush<W: Write>(out: &mut FromWrite<W>) -> Result<(), Fault>
    ensures bytes { Keeps (W.contents (writer_of out.old)) (W.contents (writer_of out.new)) }
    ensures fault { IfErr result (λ fault. fault ≡ Digest DigestError.WriteFailed) }
    ensures failed { OnErr result (has_write_failed out.new ≡ true) }
{
    match out.flush() {
        Ok(()) => Ok(()),
        Err(Failed) => Err(Fault::Digest(DigestError::WriteFailed)),
    }
}
