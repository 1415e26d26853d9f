//! Hashes names and merges them with the lines of a list.

ghost use Rattle.std.specs.Prelude.{◌≡◌, ◌<◌, IfOk, MatchResult, length};
ghost use Rattle.xxhsum_program.specs.Files.{files_of};
ghost use Rattle.xxhsum_app.specs.Digests.{AddsRow, DigestsName, DigestsRows, FailsRows, Grows};
ghost use Rattle.xxhsum_app.specs.Messages.{messages_of};
ghost use Rattle.xxhsum_app.specs.Rows.{IsRow, Removed, first_of, is_hidden, unread_of};
ghost use Rattle.xxhsum_app.specs.Prelude.{Kind};
ghost use Rattle.xxhsum_audit.specs.Item.{item_of, items_of, name_of, texts_of};
ghost use Rattle.xxhsum_audit.specs.Side.{by_path, path_side};

use std::alloc::AllocError;
use xxh_io::heap::buffer;
use xxh_io::kind::Kind;
use xxh_io::streams::Sink;
use xxhsum_audit::digest::FileDigest;
use xxhsum_audit::moves::Compared;
use xxhsum_audit::order::hides;
use xxhsum_audit::side::{Side, first_by_path};
use xxhsum_audit::verdict::Verdict;
use xxhsum_fs::store::Store;
use xxhsum_program::context::Context;
use xxhsum_program::hash::eprint_outcome;
use xxhsum_program::outcome::{OFFERED, Outcome, outcome_of};
use xxhsum_program::terminal::TimedSink;

// Hashes names and merges them with lines, both in order. A name with a line is hashed by the line's algorithm, other
// names by `kind`. A name without a digest is reported, and its line is left out, as are lines of names that are in
// `lost` or below them.
#[inline(never)]
pub(crate) fn digests_of<'n, S: Store, T: TimedSink, E: Sink>(
    context: &Context<'_, S, T>,
    kind: Kind,
    lost: &[&'n [u8]],
    lines: &[FileDigest<'n>],
    names: &[&'n [u8]],
    err: &mut E,
) -> Result<Compared<'n>, AllocError>
    ensures { let sides = by_path (items_of lines.now) (texts_of names.now) in MatchResult result
        (λ compared. DigestsRows (files_of S.Store S.File.Source context.now.store.now)
        (messages_of E.Sink err.old err.new) kind (texts_of lost.now) sides compared)
        (λ _. FailsRows (files_of S.Store S.File.Source context.now.store.now)
        (messages_of E.Sink err.old err.new) kind (texts_of lost.now) sides) }
{
    let mut compared = Compared {
        matched: Vec::new(context.alloc),
        removed: Vec::new(context.alloc),
        added: Vec::new(context.alloc),
        unread: Vec::from_slice(context.alloc, lost)?,
    };
    let mut room = buffer(context.alloc, OFFERED)?;
    let buf = room.as_mut_slice();
    let mut lines_left = lines;
    let mut names_left = names;
    while let Some(side) = first_by_path(lines_left, names_left) {
        add_side(context, kind, lost, side, buf, &mut compared, err)?;
        lines_left = &lines_left[side.lines()..];
        names_left = &names_left[side.names()..];
    }
    Ok(compared)
}

// Adds a row of the merge, with the digest of its name.
fn add_side<'n, S: Store, T: TimedSink, E: Sink>(
    context: &Context<'_, S, T>,
    kind: Kind,
    lost: &[&[u8]],
    side: Side<FileDigest<'n>, &'n [u8]>,
    buf: &mut [u8],
    compared: &mut Compared<'n>,
    err: &mut E,
) -> Result<(), AllocError>
    requires { 0 < length buf.old }
    ensures { AddsRow (messages_of E.Sink err.old err.new)
        (IsRow (files_of S.Store S.File.Source context.now.store.now) kind (texts_of lost.now)
        (path_side side.entry)) kind compared.old compared.new result }
{
    match side {
        Side::Line(line) => add_line(lost, line, compared)?,
        Side::Name(name) => match digest_name(context, kind, name, buf, err) {
            Some(found) => compared.added.push(found)?,
            None => compared.unread.push(name)?,
        },
        Side::Both(line, name) => match digest_name(context, line.kind, name, buf, err) {
            Some(found) => compared.matched.push(Verdict::met(line, found))?,
            None => compared.unread.push(name)?,
        },
    }
    Ok(())
}

// Adds a line whose name was not given.
fn add_line<'n>(
    lost: &[&[u8]],
    line: FileDigest<'n>,
    compared: &mut Compared<'n>,
) -> Result<(), AllocError>
    ensures { let item = item_of line.entry in
        let row = Removed item (is_hidden (texts_of lost.now) (name_of item)) in IfOk result
        (λ _. (kind : Kind) → Grows compared.old compared.new (first_of kind row) (unread_of row)) }
{
    if is_hidden(lost, line.name) {
        compared.unread.push(line.name)?;
    } else {
        compared.removed.push(line)?;
    }
    Ok(())
}

// True if the name is one of these, or below one of them.
fn is_hidden(lost: &[&[u8]], name: &[u8]) -> bool
    ensures { result ≡ is_hidden (texts_of lost.now) name.now }
{
    for folder in lost {
        if hides(folder, name) {
            return true;
        }
    }
    false
}

// Hashes the file of a name. Returns `None` if it has no digest, which is reported.
fn digest_name<'n, S: Store, T: TimedSink, E: Sink>(
    context: &Context<'_, S, T>,
    kind: Kind,
    name: &'n [u8],
    buf: &mut [u8],
    err: &mut E,
) -> Option<FileDigest<'n>>
    requires { 0 < length buf.old }
    ensures { DigestsName (files_of S.Store S.File.Source context.now.store.now)
        (messages_of E.Sink err.old err.new) kind name.now result }
{
    let outcome = outcome_of(context, kind, name, buf);
    eprint_outcome(name, &outcome, err);
    match outcome {
        Outcome::Digested { value } => Some(FileDigest { name, kind, value }),
        Outcome::IsDirectory | Outcome::Unread { .. } => None,
    }
}
