//! Compares one line of a list with the file that it names.

ghost use Rattle.std.specs.Prelude.{◌<◌, length};
ghost use Rattle.xxhsum_program.specs.Files.{files_of};
ghost use Rattle.xxhsum_program.specs.Found.{IsFound};

use crate::outcome::{Reason, value_named};
use crate::progress_reader::ProgressDisplay;
use crate::terminal::TimedSink;
use xxhsum_fs::store::Store;
use xxhsum_line::entry::Entry;

/// The result of comparing a line with its file.
#[derive(Clone, Copy, Debug, PartialEq, Eq)]
pub(crate) enum Found {
    /// The file has the line's value.
    Same,
    /// The file has another value.
    Different,
    /// The file could not be opened or read to its end.
    Unread(Reason),
}

// Hashes the file that the line names, and compares the value. Each read is offered the whole of `buf`.
pub(crate) fn compare<S: Store, T: TimedSink>(
    store: &S,
    progress: ProgressDisplay<T>,
    entry: &Entry,
    buf: &mut [u8],
) -> Found
    requires { 0 < length buf.old }
    ensures { IsFound (files_of S.Store S.File.Source store.now) entry.now.kind entry.now.value
        entry.now.name.items result }
{
    match value_named(store, progress, entry.kind, &entry.name, buf) {
        Ok(value) if value == entry.value => Found::Same,
        Ok(_) => Found::Different,
        Err(reason) => Found::Unread(reason),
    }
}
