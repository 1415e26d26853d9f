//! Digest lines of named files.

ghost use Rattle.std.specs.Prelude.{◌≡◌, false, map, IfOk};
ghost use Rattle.xxhsum_line.specs.Printed.{styled_line};
ghost use Rattle.xxhsum_program.specs.Eprints.{EprintsLines};
ghost use Rattle.xxhsum_program.specs.Files.{files_of, input_of};
ghost use Rattle.xxhsum_program.specs.HashNames.{SaysInput, SaysNames, name_events};
ghost use Rattle.xxhsum_program.specs.Lines.{PrintsLine, name_messages};
ghost use Rattle.xxhsum_program.specs.Order.{EmitsOrNone, effect_of, rules_of};
ghost use Rattle.xxhsum_program.specs.ProgressReader.{source_of};
ghost use Rattle.xxhsum_program.specs.Run.{style_of};

use crate::context::Context;
use crate::outcome::{OFFERED, Outcome, outcome_of, reason_of};
use crate::progress_reader::ProgressReader;
use crate::stderr::eprint_line;
use crate::stdout::print;
use crate::stop::Stop;
use crate::streams::Streams;
use crate::terminal::TimedSink;
use std::alloc::Global;
use xxh_io::streams::{Sink, Source};
use xxhsum_fs::store::Store;
use xxhsum_line::printed::{Shape, Style, styled_line};
use xxhsum_options::options::Options;
use xxhsum_output::output::Output;

/// Writes the digest line of each named file, in order. Reports names that have none: directories, and files that can't
/// be opened or read to their end. Returns whether all have one.
///
/// The caller shows that no write to the output has failed before.
///
/// # Errors
///
/// Both errors end the run at once; the lines before it are written. [`Stop::WriteFailed`] if a write of a line fails,
/// and [`Stop::OutOfMemory`] if memory for a line runs out.
#[inline(never)]
pub fn hash_names<S: Store, T: TimedSink, W: Output, E: Sink>(
    context: &Context<'_, S, T>,
    names: &[Vec<u8>],
    streams: &mut Streams<W, E>,
) -> Result<bool, Stop>
    requires { W.has_failed streams.old.out ≡ false }

    // Each name has one outcome, in order. Standard output has the lines of names with a value, and standard error the
    // messages of the others, in one sequence: when a message is written, all lines before it are written, or lost.
    ensures { SaysNames (files_of S.Store S.File.Source context.now.store.now)
        (effect_of (rules_of W.Sink W.held W.has_lost E.Sink) streams.old streams.new result)
        context.now.options.kind (style_of context.now.options) (map (λ name. name.items) names.now) }
{
    let mut buf = [0; OFFERED];
    let mut all = true;
    for name in names {
        let outcome = outcome_of(context, context.options.kind, name, &mut buf);
        write_outcome(context.alloc, context.options, name, &outcome, streams)?;
        all = all && outcome.is_digested();
    }
    Ok(all)
}

/// Writes the digest line of `input` under this name. Reports an input that can't be read to its end. Returns whether
/// it was read.
///
/// The caller shows that neither the source nor the output has failed.
///
/// # Errors
///
/// [`Stop::WriteFailed`] if a write of the line fails, and [`Stop::OutOfMemory`] if memory for it runs out.
#[inline(never)]
pub fn hash_input<R: Source, T: TimedSink, W: Output, E: Sink>(
    alloc: Global,
    options: Options,
    name: &[u8],
    input: &mut ProgressReader<R, T>,
    streams: &mut Streams<W, E>,
) -> Result<bool, Stop>
    requires reader { R.has_failed (source_of input.old) ≡ false }
    requires writer { W.has_failed streams.old.out ≡ false }
    ensures { SaysInput (input_of R.Source (source_of input.old)) (source_of input.new)
        (effect_of (rules_of W.Sink W.held W.has_lost E.Sink) streams.old streams.new result)
        options.kind (style_of options) name.now }
{
    match input.value(options.kind, &mut [0; OFFERED]) {
        Ok(value) => {
            print_value(alloc, options, name, value, &mut streams.out)?;
            Ok(true)
        }
        Err(error) => {
            let reason = reason_of(error, input.failure());
            streams.report(&[
                b"Error: Could not read '",
                name,
                b"': ",
                reason.text(),
                b".",
            ]);
            Ok(false)
        }
    }
}

// Writes the digest line of a name that has a value, and reports why another name has none.
#[tactic(auto, using(crate::proofs::HashFacts::emits_message))]
fn write_outcome<W: Output, E: Sink>(
    alloc: Global,
    options: Options,
    name: &[u8],
    outcome: &Outcome,
    streams: &mut Streams<W, E>,
) -> Result<(), Stop>
    requires { W.has_failed streams.old.out ≡ false }
    ensures emits { EmitsOrNone (rules_of W.Sink W.held W.has_lost E.Sink)
        (name_events options.kind (style_of options) name.now outcome.now)
        streams.old streams.new result }
    ensures works { IfOk result (λ _. W.has_failed streams.new.out ≡ false) }
{
    match outcome {
        Outcome::Digested { value } => {
            print_value(alloc, options, name, *value, &mut streams.out)
        }
        Outcome::IsDirectory | Outcome::Unread { .. } => {
            streams.release();
            eprint_outcome(name, outcome, streams.messages());
            Ok(())
        }
    }
}

// Writes the digest line of this value under this name.
fn print_value<W: Output>(
    alloc: Global,
    options: Options,
    name: &[u8],
    value: u128,
    out: &mut W,
) -> Result<(), Stop>
    requires { W.has_failed out.old ≡ false }
    ensures prints { PrintsLine W.Sink
        (styled_line options.kind (style_of options) value name.now) out.old out.new result }
    ensures works { IfOk result (λ _. W.has_failed out.new ≡ false) }
{
    let line = styled_line(alloc, options.kind, style_of(options), value, name)?;
    print(&line, out)
}

// Returns the style of lines by the options.
fn style_of(options: Options) -> Style
    ensures { result ≡ style_of options }
{
    Style {
        shape: Shape {
            is_tagged: options.is_tagged,
            is_little: options.is_little_endian,
        },
        ends_in_nul: options.ends_in_nul,
    }
}

/// Reports why a name has no value. Writes nothing for a name that has one.
pub fn eprint_outcome<'a, E: Sink>(name: &'a [u8], outcome: &'a Outcome, err: &mut E)
    ensures { EprintsLines E.Sink (name_messages name.now outcome.now) err.old err.new }
{
    match outcome {
        Outcome::Digested { .. } => {}
        Outcome::IsDirectory => eprint_line(&[b"xxhsum: ", name, b": Is a directory "], err),
        Outcome::Unread { reason } => {
            let parts: [&[u8]; 7] = [
                b"Error: Could not ",
                reason.step(),
                b" '",
                name,
                b"': ",
                reason.text(),
                b". ",
            ];
            eprint_line(&parts, err);
        }
    }
}
