//! Reads whole lists.

ghost use Rattle.std.specs.Prelude.{◌≡◌, ◌∷◌, ◌++◌, [], false, List, ℕ, IfOk, map};
ghost use Rattle.xxhsum_program.specs.Files.{files_of, input_of};
ghost use Rattle.xxh_io.specs.Refusal.{refusal_text};
ghost use Rattle.xxhsum_app.specs.Prelude.{EachHas, Eprints, one_line};
ghost use Rattle.xxhsum_app.specs.Finds.{Finds};
ghost use Rattle.xxhsum_app.specs.Texts.{Breaks, GiveTexts, GivesText, HasNoText, HasText, LackText, LacksOne, unopened_text, unread_text};
ghost use Rattle.xxhsum_program.specs.Command.{has_none};
ghost use Rattle.xxhsum_program.specs.ProgressReader.{source_of};
ghost use Rattle.xxhsum_program.specs.Run.{input_name};

use std::alloc::{AllocError, Global};
use xxh_io::refusal::Refusal;
use xxh_io::streams::{Sink, Source};
use xxhsum_audit::read::read_text;
use xxhsum_fs::store::Store;
use xxhsum_program::context::Context;
use xxhsum_program::process::has_none;
use xxhsum_program::progress_reader::{ProgressDisplay, ProgressReader};
use xxhsum_program::stderr::eprint_line;
use xxhsum_program::stop::Stop;
use xxhsum_program::terminal::TimedSink;

// The name of standard input.
const INPUT: &[u8] = b"stdin";

/// Returns all bytes of the file of this name. Returns `None` if it can't be opened or read, which is reported.
///
/// # Errors
///
/// [`Stop::OutOfMemory`] if memory runs out.
pub fn text_named<S: Store, T: TimedSink, E: Sink>(
    context: &Context<'_, S, T>,
    name: &[u8],
    err: &mut E,
) -> Result<Option<Vec<u8>>, Stop>
    ensures { Finds result E.Sink
        (λ text. GivesText (files_of S.Store S.File.Source context.now.store.now) name.now text.items)
        (HasNoText (files_of S.Store S.File.Source context.now.store.now) name.now) err.old err.new }
{
    match context.progress.open(context.store, name) {
        Ok(file) => text_of(context.alloc, name, file, err),
        Err(refusal) => {
            eprint_unopened(name, &refusal, err);
            Ok(None)
        }
    }
}

// Reports that the list of this name can't be opened.
pub(crate) fn eprint_unopened<'a, E: Sink>(name: &'a [u8], refusal: &'a Refusal, err: &mut E)
    ensures { Eprints E.Sink (one_line (unopened_text name.now refusal.now)) err.old err.new }
{
    let parts: [&[u8]; 5] = [
        b"Error: Could not open '",
        name,
        b"': ",
        refusal.text(),
        b".",
    ];
    eprint_line(&parts, err);
}

// Reports that a read of the list of this name failed.
pub(crate) fn eprint_unread<'a, E: Sink>(name: &'a [u8], failure: &'a Refusal, err: &mut E)
    ensures { Eprints E.Sink (one_line (unread_text name.now (refusal_text failure.now)))
        err.old err.new }
{
    let parts: [&[u8]; 5] = [
        b"Error: Could not read '",
        name,
        b"': ",
        failure.text(),
        b".",
    ];
    eprint_line(&parts, err);
}

/// Returns all bytes of a source that is reported by this name. Returns `None` if it can't be read, which is reported.
///
/// # Errors
///
/// [`Stop::OutOfMemory`] if memory runs out.
pub fn text_of<R: Source + Drop, T: TimedSink, E: Sink>(
    alloc: Global,
    name: &[u8],
    source: ProgressReader<R, T>,
    err: &mut E,
) -> Result<Option<Vec<u8>>, Stop>
    requires { R.has_failed (source_of source) ≡ false }
    ensures { Finds result E.Sink (λ text. HasText R.Source (source_of source) text.items)
        (Breaks R.Source name.now (source_of source)) err.old err.new }
{
    let mut source = source;
    match read_text(alloc, &mut source)? {
        Some(text) => Ok(Some(text)),
        None => {
            eprint_unread(name, &source.failure(), err);
            Ok(None)
        }
    }
}

/// Returns the texts of these files, or of the input if there are no names. Returns `None` if one can't be read, which
/// is reported.
///
/// # Errors
///
/// [`Stop::OutOfMemory`] if memory runs out.
pub fn texts_named<S: Store, T: TimedSink, R: Source + Drop, E: Sink>(
    context: &Context<'_, S, T>,
    names: &[Vec<u8>],
    input: R,
    err: &mut E,
) -> Result<Option<Vec<Vec<u8>>>, Stop>
    requires { R.has_failed input ≡ false }
    ensures { let given = map (λ name. name.items) names.now in Finds result E.Sink
        (λ texts. GiveTexts (files_of S.Store S.File.Source context.now.store.now) (input_of R.Source input) given
        (map (λ text. text.items) texts.items) (has_none given))
        (λ message. LackText (files_of S.Store S.File.Source context.now.store.now) (input_of R.Source input) given
        message (has_none given)) err.old err.new }
{
    if has_none(names) {
        return text_of_input(context.alloc, context.progress, input, err);
    }
    texts_of_files(context, names, err)
}

// Returns the text of the input as the only text.
fn text_of_input<R: Source + Drop, T: TimedSink, E: Sink>(
    alloc: Global,
    progress: ProgressDisplay<T>,
    input: R,
    err: &mut E,
) -> Result<Option<Vec<Vec<u8>>>, Stop>
    requires { R.has_failed input ≡ false }
    ensures { Finds result E.Sink
        (λ texts. (text : List ℕ) × HasText R.Source input text
        × (map (λ text. text.items) texts.items ≡ text ∷ []))
        (Breaks R.Source input_name input) err.old err.new }
{
    let Some(text) = text_of(alloc, INPUT, progress.watch(input), err)? else {
        return Ok(None);
    };
    let mut texts = Vec::new(alloc);
    add_text(&mut texts, text)?;
    Ok(Some(texts))
}

// Returns the texts of these files.
fn texts_of_files<S: Store, T: TimedSink, E: Sink>(
    context: &Context<'_, S, T>,
    names: &[Vec<u8>],
    err: &mut E,
) -> Result<Option<Vec<Vec<u8>>>, Stop>
    ensures { let given = map (λ name. name.items) names.now in Finds result E.Sink
        (λ texts. EachHas (GivesText (files_of S.Store S.File.Source context.now.store.now)) given
        (map (λ text. text.items) texts.items))
        (LacksOne (files_of S.Store S.File.Source context.now.store.now) given) err.old err.new }
{
    let mut texts = Vec::new(context.alloc);
    for name in names {
        let Some(text) = text_named(context, name, err)? else {
            return Ok(None);
        };
        add_text(&mut texts, text)?;
    }
    Ok(Some(texts))
}

fn add_text(texts: &mut Vec<Vec<u8>>, text: Vec<u8>) -> Result<(), AllocError>
    ensures { IfOk result (λ _. texts.new.items ≡ texts.old.items ++ text ∷ []) }
{
    texts.push(text)?;
    Ok(())
}
