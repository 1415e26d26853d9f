//! Runs the program over its arguments.

ghost use Rattle.std.specs.Prelude.{◌≡◌, false, Bool, List, ℕ, Option, Some, Result, drop, map, IfSome};
ghost use Rattle.xxhsum_app.specs.Prelude.{Stop, Streams};
ghost use Rattle.xxhsum_app.specs.Run.{AuditsBelow, AuditsWords, DoesArguments, PerformsBelow, PerformsWords, WalksFolders, WalksNames, all_well};
ghost use Rattle.xxhsum_app.specs.Walk.{tree_of, without};
ghost use Rattle.xxhsum_options.specs.Exclude.{patterns_in};
ghost use Rattle.xxhsum_options.specs.Options.{are_listed};
ghost use Rattle.xxhsum_program.specs.Arguments.{AreArguments};
ghost use Rattle.xxhsum_program.specs.Files.{files_of, input_of};
ghost use Rattle.xxhsum_program.specs.Finish.{IsWritten};
ghost use Rattle.xxhsum_program.specs.Order.{Releases, effect_of, rules_of};
ghost use Rattle.xxhsum_program.specs.Run.{Ends};

use crate::audit::audit_names;
use crate::names::names_listed;
use crate::walk::files_below;
use std::alloc::{AllocError, Global};
use xxh_io::streams::{Sink, Source};
use xxhsum_fs::below::Below;
use xxhsum_fs::folders::Folders;
use xxhsum_fs::store::Store;
use xxhsum_options::name::default_kind;
use xxhsum_options::options::{directory_in, parse_args, words_before, words_behind};
use xxhsum_output::output::Output;
use xxhsum_program::arguments::{Arguments, all_arguments};
use xxhsum_program::check::check_lists;
use xxhsum_program::context::Context;
use xxhsum_program::hash::hash_names;
use xxhsum_program::process::{
    Console, arguments_behind_name, end, eprint_answer, eprint_wrong, has_none, is_well, perform,
    print_answer, program_of, requested_run, waits_for_terminal,
};
use xxhsum_program::progress_reader::ProgressDisplay;
use xxhsum_program::stderr::eprint;
use xxhsum_program::stop::Stop;
use xxhsum_program::streams::Streams;
use xxhsum_program::terminal::TimedSink;

/// Does what the arguments ask for, over a store of files, or below a directory of it (`-C`), and over these streams.
/// Returns the exit status: 0 if every file was hashed or matches its line, and all output is written, otherwise 1.
///
/// The caller shows that neither the input nor the output has failed.
pub fn run<A, S, R, W, E, T>(
    alloc: Global,
    arguments: &A,
    store: &S,
    console: Console<R, T>,
    streams: &mut Streams<W, E>,
) -> u8
where
    A: Arguments,
    S: Store + Folders,
    R: Source + Drop,
    W: Output,
    E: Sink,
    T: TimedSink,
    requires reader { R.has_failed console.input ≡ false }
    requires writer { W.has_failed streams.old.out ≡ false }
    ensures { (args : Option (List (List ℕ))) × (done : Result Bool Stop)
        × (start met : Streams W E) × IfSome args (AreArguments A.holds A.ends arguments.now)
        × Releases (rules_of W.Sink W.held W.has_lost E.Sink) streams.old start
        × DoesArguments (PerformsBelow S.Store S.Folders S.File.Source store.now
        (input_of R.Source console.input)
        (effect_of (rules_of W.Sink W.held W.has_lost E.Sink) start met done))
        (effect_of (rules_of W.Sink W.held W.has_lost E.Sink) start met done)
        console.interactive args
        × Ends (rules_of W.Sink W.held W.has_lost E.Sink) done met streams.new result }
{
    streams.release();
    match all_arguments(alloc, arguments) {
        Ok(args) => {
            let done = run_arguments(alloc, &args, store, console, streams);
            end(done, streams)
        }
        Err(AllocError) => end(Err(Stop::OutOfMemory), streams),
    }
}

// Decides by the arguments what to do, and does it. Returns whether all went well.
fn run_arguments<S, R, W, E, T>(
    alloc: Global,
    args: &[Vec<u8>],
    store: &S,
    console: Console<R, T>,
    streams: &mut Streams<W, E>,
) -> Result<bool, Stop>
where
    S: Store + Folders,
    R: Source + Drop,
    W: Output,
    E: Sink,
    T: TimedSink,
    requires reader { R.has_failed console.input ≡ false }
    requires writer { W.has_failed streams.old.out ≡ false }
    requires written { IsWritten W.held W.has_lost streams.old.out }
    ensures { let effect = effect_of (rules_of W.Sink W.held W.has_lost E.Sink)
        streams.old streams.new result in
        DoesArguments (PerformsBelow S.Store S.Folders S.File.Source store.now
        (input_of R.Source console.input) effect)
        effect console.interactive (Some (map (λ argument. argument.items) args.now)) }
{
    let Console {
        input,
        interactive,
        terminal,
    } = console;
    let program = program_of(args);
    let words = arguments_behind_name(args);
    let parsed = parse_args(default_kind(program), words);
    let Some(found) = requested_run(parsed) else {
        if is_well(parsed) {
            return print_answer(program, words, parsed, &mut streams.out);
        }
        eprint_answer(program, words, parsed, streams.messages());
        return Ok(false);
    };
    let (options, place) = found;
    let names = words_behind(words, place);
    if waits_for_terminal(interactive, options, names) {
        eprint_wrong(&[b"Wrong parameters"], program, streams.messages());
        return Ok(false);
    }
    let flags = words_before(words, place);
    let below = Below::new(directory_in(options, flags), store);
    let context = Context {
        alloc,
        store: &below,
        options,
        progress: ProgressDisplay::new(terminal, interactive, options),
    };
    perform_words(&context, flags, names, input, streams)
}

// Audits, hashes the files below folders, or hashes or checks the words or the names in lists of names.
fn perform_words<S, T, R, W, E>(
    context: &Context<'_, S, T>,
    flags: &[Vec<u8>],
    words: &[Vec<u8>],
    input: R,
    streams: &mut Streams<W, E>,
) -> Result<bool, Stop>
where
    S: Store + Folders,
    T: TimedSink,
    R: Source + Drop,
    W: Output,
    E: Sink,
    requires reader { R.has_failed input ≡ false }
    requires writer { W.has_failed streams.old.out ≡ false }
    requires written { IsWritten W.held W.has_lost streams.old.out }
    ensures { let patterns = patterns_in (map (λ flag. flag.items) flags.now) in
        PerformsWords (without patterns (tree_of S.Store S.Folders context.now.store.now))
        (files_of S.Store S.File.Source context.now.store.now) (input_of R.Source input)
        (effect_of (rules_of W.Sink W.held W.has_lost E.Sink) streams.old streams.new result)
        context.now.options (map (λ word. word.items) words.now) }
{
    if context.options.audits {
        return walk_audit(context, flags, words, input, streams);
    }
    if context.options.walks {
        return walk_folders(context, flags, words, streams);
    }
    if context.options.names_from.are_listed() {
        return walk_names(context, words, input, streams);
    }
    perform(context, words, input, streams)
}

// Audits names against the list that the first argument names.
fn walk_audit<S, T, R, W, E>(
    context: &Context<'_, S, T>,
    flags: &[Vec<u8>],
    words: &[Vec<u8>],
    input: R,
    streams: &mut Streams<W, E>,
) -> Result<bool, Stop>
where
    S: Store + Folders,
    T: TimedSink,
    R: Source + Drop,
    W: Output,
    E: Sink,
    requires reader { R.has_failed input ≡ false }
    requires writer { W.has_failed streams.old.out ≡ false }
    requires written { IsWritten W.held W.has_lost streams.old.out }
    ensures { let patterns = patterns_in (map (λ flag. flag.items) flags.now) in
        AuditsWords (without patterns (tree_of S.Store S.Folders context.now.store.now))
        (files_of S.Store S.File.Source context.now.store.now) (input_of R.Source input)
        (effect_of (rules_of W.Sink W.held W.has_lost E.Sink) streams.old streams.new result)
        context.now.options (map (λ word. word.items) words.now) }
{
    let Some((list, rest)) = words.split_first() else {
        eprint(b"Error: --audit needs a list.\n", streams.messages());
        return Ok(false);
    };
    if context.options.walks {
        return audit_below(context, flags, list, rest, streams);
    }
    if !context.options.names_from.are_listed() {
        return audit_names(context, &[], list, rest, streams);
    }
    let Some(names) = names_listed(context, rest, input, streams.messages())? else {
        return Ok(false);
    };
    audit_names(context, &[], list, &names, streams)
}

// Audits the files of the names and below their folders against `list`. Folders that can't be read are unreadable in
// the report.
fn audit_below<S: Store + Folders, T: TimedSink, W: Output, E: Sink>(
    context: &Context<'_, S, T>,
    flags: &[Vec<u8>],
    list: &[u8],
    names: &[Vec<u8>],
    streams: &mut Streams<W, E>,
) -> Result<bool, Stop>
    requires writer { W.has_failed streams.old.out ≡ false }
    requires written { IsWritten W.held W.has_lost streams.old.out }
    ensures { let patterns = patterns_in (map (λ flag. flag.items) flags.now) in
        AuditsBelow (without patterns (tree_of S.Store S.Folders context.now.store.now))
        (files_of S.Store S.File.Source context.now.store.now)
        (effect_of (rules_of W.Sink W.held W.has_lost E.Sink) streams.old streams.new result)
        context.now.options list.now (map (λ name. name.items) names.now) }
{
    match files_below(
        context.alloc,
        context.store,
        flags,
        names,
        streams.messages(),
    ) {
        Ok(walked) => audit_names(context, &walked.unread, list, &walked.files, streams),
        Err(stop) => Err(stop),
    }
}

// Hashes the files of the names and below their folders.
fn walk_folders<S: Store + Folders, T: TimedSink, W: Output, E: Sink>(
    context: &Context<'_, S, T>,
    flags: &[Vec<u8>],
    names: &[Vec<u8>],
    streams: &mut Streams<W, E>,
) -> Result<bool, Stop>
    requires writer { W.has_failed streams.old.out ≡ false }
    requires written { IsWritten W.held W.has_lost streams.old.out }
    ensures { let patterns = patterns_in (map (λ flag. flag.items) flags.now) in
        WalksFolders (without patterns (tree_of S.Store S.Folders context.now.store.now))
        (files_of S.Store S.File.Source context.now.store.now)
        (effect_of (rules_of W.Sink W.held W.has_lost E.Sink) streams.old streams.new result)
        context.now.options (map (λ name. name.items) names.now) }
{
    match files_below(
        context.alloc,
        context.store,
        flags,
        names,
        streams.messages(),
    ) {
        Ok(walked) => {
            let done = hash_names(context, &walked.files, streams);
            all_well(has_none(&walked.unread), done)
        }
        Err(stop) => Err(stop),
    }
}

// True if all folders were read, and all went well with the files.
fn all_well(is_complete: bool, done: Result<bool, Stop>) -> Result<bool, Stop>
    ensures { result ≡ all_well is_complete done }
{
    match done {
        Ok(all) => Ok(is_complete && all),
        Err(stop) => Err(stop),
    }
}

// Hashes or checks the names in lists of names.
#[tactic(auto, unfolding(xxhsum_program::specs::Run::PerformsAs))]
fn walk_names<S: Store, T: TimedSink, R: Source + Drop, W: Output, E: Sink>(
    context: &Context<'_, S, T>,
    lists: &[Vec<u8>],
    input: R,
    streams: &mut Streams<W, E>,
) -> Result<bool, Stop>
    requires reader { R.has_failed input ≡ false }
    requires writer { W.has_failed streams.old.out ≡ false }
    requires written { IsWritten W.held W.has_lost streams.old.out }
    ensures { WalksNames (files_of S.Store S.File.Source context.now.store.now)
        (input_of R.Source input)
        (effect_of (rules_of W.Sink W.held W.has_lost E.Sink) streams.old streams.new result)
        context.now.options (map (λ list. list.items) lists.now) }
{
    let Some(names) = names_listed(context, lists, input, streams.messages())? else {
        return Ok(false);
    };
    if context.options.checks {
        return check_lists(context, &names, streams);
    }
    hash_names(context, &names, streams)
}
