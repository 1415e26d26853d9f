//! Decides what the arguments ask for, and runs over files and lists.

ghost use Rattle.std.specs.Prelude.{◌≡◌, false, Bool, List, ℕ, Option, Result, drop, map, IfSome};
ghost use Rattle.xxhsum_program.specs.Files.{files_of, input_of};
ghost use Rattle.xxhsum_program.specs.Joined.{joined};
ghost use Rattle.xxhsum_program.specs.Order.{effect_of, rules_of};
ghost use Rattle.xxhsum_program.specs.Run.{Ends, PerformsAs, end_text, status_of, stop_text};
ghost use Rattle.xxhsum_program.specs.Command.{IsProgram, PrintsAnswer, answer_text, has_none, is_tree, is_well, requested_run, shows_progress, usage_text, waits_for_terminal, wrong_text};
ghost use Rattle.xxhsum_program.specs.Prelude.{Eprints, Stop};

use crate::arguments::last_part;
use crate::check::{check_list, check_lists};
use crate::context::Context;
use crate::hash::{hash_input, hash_names};
use crate::stderr::{eprint, eprint_line};
use crate::stdout::finish;
use crate::stop::Stop;
use crate::streams::Streams;
use crate::terminal::TimedSink;
use crate::usage::{ABOUT, BEFORE, BEHIND, NO_BENCHMARK, TITLE, eprint_options};
use xxh_io::streams::{Sink, Source};
use xxhsum_fs::store::Store;
use xxhsum_options::options::{Options, ParsedArgs, word_at};
use xxhsum_output::output::Output;

// The name of standard input in lines.
const INPUT: &[u8] = b"stdin";

// The message for `-` beside names or after `--`.
const INPUT_BESIDE_NAMES: &[u8] =
    b"Error: '-' is standard input, which can't be read with files; for a file of that name use './-'.\n";

/// True for each standard stream that is a terminal.
#[derive(Clone, Copy, Debug, PartialEq, Eq)]
pub struct Interactive {
    /// Standard input.
    pub input: bool,
    /// Standard error.
    pub errors: bool,
}

/// The environment of a run: the input, which streams are terminals, and the terminal for progress.
#[derive(Drop)]
pub struct Console<R, T> {
    /// Standard input.
    pub input: R,
    /// Which of the standard streams are terminals.
    pub interactive: Interactive,
    /// The terminal for progress, which is standard error too.
    pub terminal: T,
}

/// Returns the options of the requested run, and the index of the argument at which its names begin.
pub fn requested_run(parsed: ParsedArgs) -> Option<(Options, usize)>
    ensures { result ≡ requested_run parsed }
{
    match parsed {
        ParsedArgs::Run {
            options,
            names_from,
        } => Some((options, names_from)),
        _ => None,
    }
}

/// Returns the name by which the program was called.
pub fn program_of(args: &[Vec<u8>]) -> &[u8]
    ensures { IsProgram (map (λ argument. argument.items) args.now) result.now }
{
    match args.split_first() {
        Some((path, _)) => last_part(path),
        None => b"xxhsum",
    }
}

/// Returns the arguments after the program's name.
pub fn arguments_behind_name(args: &[Vec<u8>]) -> &[Vec<u8>]
    ensures { map (λ word. word.items) result.now
        ≡ drop 1 (map (λ argument. argument.items) args.now) }
{
    match args.split_first() {
        Some((_, words)) => words,
        None => args,
    }
}

// True if the run is an audit, walks folders, or takes names from lists.
fn is_tree(options: Options) -> bool
    ensures { result ≡ is_tree options }
{
    options.audits || options.walks || options.names_from.are_listed()
}

/// True if progress is shown: standard error is a terminal, and neither `-q` nor `--status` is given.
pub fn shows_progress(interactive: Interactive, options: Options) -> bool
    ensures { result ≡ shows_progress interactive options }
{
    interactive.errors && !options.is_quiet && !options.is_status_only
}

/// True if standard input would be read from a terminal without `-`.
pub fn waits_for_terminal(interactive: Interactive, options: Options, names: &[Vec<u8>]) -> bool
    ensures { result ≡ waits_for_terminal interactive options (map (λ name. name.items) names.now) }
{
    has_none(names) && !is_tree(options) && !options.takes_terminal && interactive.input
}

/// True if the arguments ask for the help or the version, which belong on standard output.
pub fn is_well(parsed: ParsedArgs) -> bool
    ensures { result ≡ is_well parsed }
{
    match parsed {
        ParsedArgs::Version | ParsedArgs::Help => true,
        _ => false,
    }
}

/// Prints the help or the version on standard output.
///
/// # Errors
///
/// [`Stop::WriteFailed`] if a write to it fails.
pub fn print_answer<W: Sink>(
    program: &[u8],
    words: &[Vec<u8>],
    parsed: ParsedArgs,
    out: &mut W,
) -> Result<bool, Stop>
    ensures { PrintsAnswer W.Sink
        (answer_text program.now (map (λ word. word.items) words.now) parsed)
        out.old out.new result }
{
    eprint_answer(program, words, parsed, out);
    if out.failed() {
        Err(Stop::WriteFailed)
    } else {
        Ok(true)
    }
}

/// Handles arguments that ask for no run: writes help, version or an error. Writes nothing for a run.
pub fn eprint_answer<E: Sink>(program: &[u8], words: &[Vec<u8>], parsed: ParsedArgs, err: &mut E)
    ensures { Eprints E.Sink
        (answer_text program.now (map (λ word. word.items) words.now) parsed) err.old err.new }
{
    match parsed {
        ParsedArgs::Version => {
            eprint_line(&[program, TITLE], err);
        }
        ParsedArgs::Help => {
            eprint_usage(program, err);
        }
        ParsedArgs::Benchmark => {
            eprint_line(&[program, NO_BENCHMARK], err);
        }
        ParsedArgs::WrongOption { at } => {
            eprint_wrong(
                &[b"Wrong parameters: '", word_at(words, at), b"'"],
                program,
                err,
            );
        }
        ParsedArgs::NulsInList => {
            eprint_wrong(&[b"Wrong parameters: '-z' with '-c'"], program, err);
        }
        ParsedArgs::FormatWithoutAudit => {
            eprint_wrong(
                &[b"Wrong parameters: '--format' without '--audit'"],
                program,
                err,
            );
        }
        ParsedArgs::NulsInJson => {
            eprint_wrong(
                &[b"Wrong parameters: '-z' with '--format=json'"],
                program,
                err,
            );
        }
        ParsedArgs::WalkBesideLists => {
            eprint_wrong(
                &[b"Wrong parameters: '-r' with '-c' or lists of names"],
                program,
                err,
            );
        }
        ParsedArgs::WalkOfNothing => {
            eprint_wrong(&[b"Wrong parameters: '-r' without a FILE"], program, err);
        }
        ParsedArgs::ExcludeWithoutWalk => {
            eprint_wrong(
                &[b"Wrong parameters: '--exclude' without '-r'"],
                program,
                err,
            );
        }
        ParsedArgs::SlashInPattern => {
            eprint_wrong(
                &[b"Wrong parameters: '/' in a pattern of '--exclude'"],
                program,
                err,
            );
        }
        ParsedArgs::WrongDirectory => {
            eprint_wrong(
                &[b"Wrong parameters: '-C' twice or without a directory"],
                program,
                err,
            );
        }
        ParsedArgs::InputBesideNames => {
            eprint(INPUT_BESIDE_NAMES, err);
        }
        ParsedArgs::Run { .. } => {}
        ParsedArgs::NumberTooLarge => {
            eprint(b"Error: numeric value too large \n", err);
        }
    }
}

/// Reports what is wrong with the arguments, as one line of these parts, and the usage.
pub fn eprint_wrong<E: Sink>(line: &[&[u8]], program: &[u8], err: &mut E)
    ensures { Eprints E.Sink (wrong_text (joined line.now) program.now) err.old err.new }
{
    eprint_line(line, err);
    eprint(b"\n", err);
    eprint_usage(program, err);
}

// Reports the usage.
fn eprint_usage<E: Sink>(program: &[u8], err: &mut E)
    ensures { Eprints E.Sink (usage_text program.now) err.old err.new }
{
    eprint_line(&[program, TITLE], err);
    eprint(ABOUT, err);
    eprint_line(&[b"Usage: ", program, b" [OPTION].. [FILE].."], err);
    eprint(BEFORE, err);
    eprint_options(err);
    eprint(BEHIND, err);
}

/// Hashes the files of the names, or checks the lists of these names. Returns whether all went well.
///
/// The caller shows that neither the input nor the output has failed.
///
/// # Errors
///
/// [`Stop::WriteFailed`] if a write to the output fails, and [`Stop::OutOfMemory`] if memory runs out.
#[tactic(auto, unfolding(crate::specs::Run::PerformsAs))]
pub fn perform<S, T, R, W, E>(
    context: &Context<'_, S, T>,
    names: &[Vec<u8>],
    input: R,
    streams: &mut Streams<W, E>,
) -> Result<bool, Stop>
where
    S: Store,
    T: TimedSink,
    R: Source + Drop,
    W: Output,
    E: Sink,
    requires reader { R.has_failed input ≡ false }
    requires writer { W.has_failed streams.old.out ≡ false }
    ensures { PerformsAs (files_of S.Store S.File.Source context.now.store.now)
        (input_of R.Source input)
        (effect_of (rules_of W.Sink W.held W.has_lost E.Sink) streams.old streams.new result)
        context.now.options (map (λ name. name.items) names.now) }
{
    if context.options.checks {
        if has_none(names) {
            return check_list(context, INPUT, input, streams);
        }
        return check_lists(context, names, streams);
    }
    if has_none(names) {
        let mut input = context.progress.watch(input);
        return hash_input(context.alloc, context.options, INPUT, &mut input, streams);
    }
    hash_names(context, names, streams)
}

/// True if there is no name.
pub fn has_none(names: &[Vec<u8>]) -> bool
    ensures { result ≡ has_none (map (λ name. name.items) names.now) }
{
    names.is_empty()
}

// Reports why the program stops, and returns the exit status: 0 if all went well, otherwise 1.
fn conclude<E: Sink>(done: Result<bool, Stop>, err: &mut E) -> u8
    ensures status { result ≡ status_of done }
    ensures reports { Eprints E.Sink (end_text done) err.old err.new }
{
    match done {
        Ok(true) => 0,
        Ok(false) => 1,
        Err(stop) => {
            eprint(line_of(stop), err);
            1
        }
    }
}

/// Ends a run: writes the bytes that the output holds, and then reports why the run stops, if it does. Returns the exit
/// status.
pub fn end<W: Output, E: Sink>(done: Result<bool, Stop>, streams: &mut Streams<W, E>) -> u8
    ensures { Ends (rules_of W.Sink W.held W.has_lost E.Sink) done streams.old streams.new result }
{
    let ended = finish(done, &mut streams.out);
    conclude(ended, streams.messages())
}

// Returns the message for this reason to stop.
fn line_of(stop: Stop) -> &'static [u8]
    ensures { result.now ≡ stop_text stop }
{
    match stop {
        Stop::WriteFailed => b"Error: a failure occurred writing the output.\n",
        Stop::OutOfMemory => b"\nError: Out of memory.\n",
    }
}
