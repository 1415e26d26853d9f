//! Lines on standard output. A lost line is an error.

ghost use Rattle.std.specs.Prelude.{◌≡◌, ◌++◌, [], false, Bool, Result, IfOk, IfErr};
ghost use Rattle.xxhsum_program.specs.Prelude.{Took, one_line};
ghost use Rattle.xxhsum_program.specs.Finish.{IsWritten, end_after};
ghost use Rattle.xxhsum_program.specs.Joined.{joined};
ghost use Rattle.xxhsum_program.specs.Lines.{PrintsLine};

use crate::stop::Stop;
use std::alloc::{AllocError, Global};
use xxh_io::streams::Sink;
use xxh_io::write::write_all;
use xxhsum_line::escapes::put_line;
use xxhsum_output::output::Output;

// Appends the parts to the text.
fn put_parts(text: &mut Vec<u8>, parts: &[&[u8]]) -> Result<(), AllocError>
    ensures { IfOk result (λ _. text.new.items ≡ text.old.items ++ joined parts.now) }
{
    match parts.split_first() {
        Some((part, rest)) => {
            text.extend_from_slice(part)?;
            put_parts(text, rest)
        }
        None => Ok(()),
    }
}

// Returns the parts as one line. Names in them are escaped.
pub(crate) fn line_of(alloc: Global, parts: &[&[u8]]) -> Result<Vec<u8>, AllocError>
    ensures { IfOk result (λ line. line.items ≡ one_line (joined parts.now)) }
{
    let mut text = Vec::new(alloc);
    put_parts(&mut text, parts)?;
    let mut line = Vec::new(alloc);
    put_line(&mut line, &text)?;
    Ok(line)
}

// Writes the parts as one line.
pub(crate) fn print_line<W: Sink>(alloc: Global, parts: &[&[u8]], out: &mut W) -> Result<(), Stop>
    requires { W.has_failed out.old ≡ false }
    ensures prints { PrintsLine W.Sink (one_line (joined parts.now)) out.old out.new result }
    ensures works { IfOk result (λ _. W.has_failed out.new ≡ false) }
{
    let line = line_of(alloc, parts)?;
    print(&line, out)
}

/// Writes the bytes.
///
/// # Errors
///
/// [`Stop::WriteFailed`] if a write fails.
pub fn print<W: Sink>(bytes: &[u8], out: &mut W) -> Result<(), Stop>
    requires { W.has_failed out.old ≡ false }
    ensures prints { PrintsLine W.Sink bytes.now out.old out.new result }
    ensures works { IfOk result (λ _. W.has_failed out.new ≡ false) }
    ensures only { IfErr result (λ stop. stop ≡ Stop.WriteFailed) }
{
    match write_all(bytes, out) {
        Ok(()) => Ok(()),
        Err(_) => Err(Stop::WriteFailed),
    }
}

/// Writes the bytes that the output holds at the end of a run. If that fails, the result is [`Stop::WriteFailed`],
/// unless the run stopped before.
pub fn finish<W: Output>(done: Result<bool, Stop>, out: &mut W) -> Result<bool, Stop>
    ensures prints { Took W.Sink [] out.old out.new }
    ensures written { IsWritten W.held W.has_lost out.new }
    ensures ended { result ≡ end_after (W.has_lost out.new) done }
{
    out.release();
    match done {
        Ok(_) if out.has_lost() => Err(Stop::WriteFailed),
        _ => done,
    }
}
