//! Reads the entries of a list.

ghost use Rattle.std.specs.Prelude.{map};
ghost use Rattle.xxhsum_program.specs.Files.{files_of};
ghost use Rattle.xxhsum_audit.specs.List.{entry_item};
ghost use Rattle.xxhsum_program.specs.ProgressReader.{source_of};
ghost use Rattle.xxhsum_app.specs.Finds.{Finds};
ghost use Rattle.xxhsum_app.specs.ReadList.{ListSays, ListSaysNothing, SourceSays, SourceSaysNothing};

use crate::texts::{eprint_unopened, eprint_unread};
use std::alloc::Global;
use xxh_io::streams::{Sink, Source};
use xxhsum_audit::list::take_line;
use xxhsum_fs::store::Store;
use xxhsum_line::entry::Entry;
use xxhsum_program::check::eprint_line_error;
use xxhsum_program::context::Context;
use xxhsum_program::lines::{Lines, Next};
use xxhsum_program::progress_reader::ProgressReader;
use xxhsum_program::stop::Stop;
use xxhsum_program::terminal::TimedSink;

// Returns the entries of the list of this name. Returns `None` if it can't be opened or read, or a line is malformed or
// too long, which is reported.
pub(crate) fn read_list<S: Store, T: TimedSink, E: Sink>(
    context: &Context<'_, S, T>,
    list: &[u8],
    err: &mut E,
) -> Result<Option<Vec<Entry>>, Stop>
    ensures { Finds result E.Sink
        (λ entries. ListSays (files_of S.Store S.File.Source context.now.store.now)
        context.now.options.is_little_endian list.now (map entry_item entries.items))
        (ListSaysNothing (files_of S.Store S.File.Source context.now.store.now) context.now.options.is_little_endian
        list.now) err.old err.new }
{
    match context.progress.open(context.store, list) {
        Ok(file) => read_lines(
            context.alloc,
            context.options.is_little_endian,
            list,
            file,
            err,
        ),
        Err(refusal) => {
            eprint_unopened(list, &refusal, err);
            Ok(None)
        }
    }
}

// Returns the entries of a source, which is reported by this name. Separate function so that callers keep no stack frame.
#[inline(never)]
fn read_lines<R: Source + Drop, T: TimedSink, E: Sink>(
    alloc: Global,
    is_little: bool,
    list: &[u8],
    source: ProgressReader<R, T>,
    err: &mut E,
) -> Result<Option<Vec<Entry>>, Stop>
    ensures { Finds result E.Sink
        (λ entries. SourceSays R.Source is_little (source_of source) (map entry_item entries.items))
        (SourceSaysNothing R.Source is_little list.now (source_of source)) err.old err.new }
{
    let mut lines = Lines::new(source);
    let mut entries = Vec::new(alloc);
    for number in 1..u64::MAX {
        match lines.next() {
            Next::End => return Ok(Some(entries)),
            Next::Failed => {
                eprint_unread(list, &lines.failure(), err);
                return Ok(None);
            }
            Next::Endless => {
                eprint_line_error(list, number, b"Line too long", err);
                return Ok(None);
            }
            Next::Line => {}
        }
        let Some(line) = lines.line() else {
            eprint_line_error(list, number, b"Line too long", err);
            return Ok(None);
        };
        if !take_line(alloc, line, is_little, &mut entries)? {
            eprint_line_error(list, number, b"Improperly formatted checksum line", err);
            return Ok(None);
        }
    }
    Err(Stop::OutOfMemory)
}
