//! Reads names from lists of names.

ghost use Rattle.std.specs.Prelude.{◌≡◌, ◌∷◌, ◌++◌, [], false, map, IfOk};
ghost use Rattle.xxhsum_app.specs.Finds.{Finds};
ghost use Rattle.xxhsum_app.specs.Names.{AddsNames, AreNamesIn, ListNames, ListNone, end_of};
ghost use Rattle.xxhsum_program.specs.Files.{files_of, input_of};

use crate::texts::texts_named;
use std::alloc::{AllocError, Global};
use xxh_io::streams::{Sink, Source};
use xxhsum_audit::parts::cut_at;
use xxhsum_fs::store::Store;
use xxhsum_options::options::NamesFrom;
use xxhsum_program::context::Context;
use xxhsum_program::stop::Stop;
use xxhsum_program::terminal::TimedSink;

/// Returns the names in these lists, or in the input if there is no list, in order. Returns `None` if a list can't be
/// opened or read, which is reported.
///
/// # Errors
///
/// [`Stop::OutOfMemory`] if memory runs out.
pub fn names_listed<S: Store, T: TimedSink, R: Source + Drop, E: Sink>(
    context: &Context<'_, S, T>,
    lists: &[Vec<u8>],
    input: R,
    err: &mut E,
) -> Result<Option<Vec<Vec<u8>>>, Stop>
    requires { R.has_failed input ≡ false }
    ensures { let given = map (λ list. list.items) lists.now in Finds result E.Sink
        (λ names. ListNames (files_of S.Store S.File.Source context.now.store.now) (input_of R.Source input)
        (end_of context.now.options.names_from) given (map (λ name. name.items) names.items))
        (ListNone (files_of S.Store S.File.Source context.now.store.now) (input_of R.Source input) given)
        err.old err.new }
{
    let Some(texts) = texts_named(context, lists, input, err)? else {
        return Ok(None);
    };
    let names = names_in(context.alloc, end_of(context.options.names_from), &texts)?;
    Ok(Some(names))
}

// Returns the byte that ends each name of a list.
fn end_of(names_from: NamesFrom) -> u8
    ensures { result ≡ end_of names_from }
{
    match names_from {
        NamesFrom::Nuls => 0,
        NamesFrom::Words | NamesFrom::Lines => b'\n',
    }
}

// Returns the names in all texts.
fn names_in(alloc: Global, end: u8, texts: &[Vec<u8>]) -> Result<Vec<Vec<u8>>, AllocError>
    ensures { IfOk result (λ names. AreNamesIn end (map (λ text. text.items) texts.now)
        (map (λ name. name.items) names.items)) }
{
    let mut names = Vec::new(alloc);
    for text in texts {
        add_names(alloc, end, text, &mut names)?;
    }
    Ok(names)
}

// Appends the names in a text.
fn add_names(
    alloc: Global,
    end: u8,
    text: &[u8],
    names: &mut Vec<Vec<u8>>,
) -> Result<(), AllocError>
    ensures { IfOk result (λ _. AddsNames end text.now (map (λ name. name.items) names.old.items)
        (map (λ name. name.items) names.new.items)) }
{
    let parts = cut_at(alloc, end, text)?;
    for part in &parts {
        add_name(alloc, part, names)?;
    }
    Ok(())
}

pub(crate) fn add_name(
    alloc: Global,
    name: &[u8],
    names: &mut Vec<Vec<u8>>,
) -> Result<(), AllocError>
    ensures { IfOk result (λ _. map (λ name. name.items) names.new.items
        ≡ map (λ name. name.items) names.old.items ++ name.now ∷ []) }
{
    let mut owned = Vec::new(alloc);
    owned.extend_from_slice(name)?;
    names.push(owned)?;
    Ok(())
}
