//! The entries of a list.

ghost use Rattle.std.specs.Prelude.{map, IfOk};
ghost use Rattle.xxhsum_audit.specs.List.{TakesLine, entry_item};

use std::alloc::{AllocError, Global};
use xxhsum_line::entry::{Entry, Meaning, meaning_of};

/// Appends the entry of a line; nothing for a comment. Returns `false` if it is malformed. Returns `AllocError` if out
/// of memory.
pub fn take_line(
    alloc: Global,
    line: &[u8],
    is_little: bool,
    entries: &mut Vec<Entry>,
) -> Result<bool, AllocError>
    ensures { IfOk result (TakesLine is_little line.now (map entry_item entries.old.items)
        (map entry_item entries.new.items)) }
{
    match meaning_of(alloc, line, is_little)? {
        Meaning::Entry(entry) => {
            entries.push(entry)?;
            Ok(true)
        }
        Meaning::Comment => Ok(true),
        Meaning::Malformed => Ok(false),
    }
}
