//! The names that the reads of a directory return.

ghost use Rattle.std.specs.Prelude.{◌≡◌, ◌++◌, ◌∷◌, [], IfOk, MatchResult, map};
ghost use Rattle.xxhsum_fs.specs.Entries.{EndsFor, Lists, entries_of, entry_of};

use crate::calls::ReadCall;
use crate::folders::FolderError;
use crate::uninterrupted::read_at_last;
use std::alloc::{AllocError, Global};
use xxh_io::words::words_of;
use xxhsum_line::parts::split_at_first;

// Size of the buffer of each read of a directory, in bytes.
const OFFERED: usize = 32768;

/// Returns the names that the reads of an open directory return, in their order, except `.` and `..`. A read returns
/// each name with a NUL at its end, and doesn't end within a name.
///
/// # Errors
///
/// - [`FolderError::Refused`] if a read fails, with its error.
/// - [`FolderError::OutOfMemory`] if out of memory.
#[inline(never)]
pub fn names_of<D: ReadCall + Drop>(
    alloc: Global,
    directory: D,
) -> Result<Vec<Vec<u8>>, FolderError>
    ensures { MatchResult result
        (λ names. Lists D.ReadCall directory (map (λ name. name.items) names.items))
        (EndsFor D.ReadCall directory) }
{
    let mut directory = directory;
    let mut names = Vec::new(alloc);
    let mut buf = [0; OFFERED];
    for _ in 0..u64::MAX {
        match read_at_last(&mut directory, &mut buf) {
            Ok(0) => return Ok(names),
            Ok(count) => add_names(alloc, &buf[..count], &mut names)?,
            Err(error) => return Err(FolderError::Refused(words_of(error))),
        }
    }
    Err(FolderError::OutOfMemory)
}

// Appends the names in the bytes of a read, each with a NUL at its end, except `.` and `..`.
fn add_names(alloc: Global, bytes: &[u8], names: &mut Vec<Vec<u8>>) -> Result<(), AllocError>
    ensures { IfOk result (λ _. map (λ name. name.items) names.new.items
        ≡ map (λ name. name.items) names.old.items ++ entries_of bytes.now) }
{
    let mut left = bytes;
    while let Some((name, rest)) = split_at_first(0, left) {
        add_entry(alloc, name, names)?;
        left = rest;
    }
    add_entry(alloc, left, names)?;
    Ok(())
}

// Appends the name, unless it is empty, `.` or `..`.
fn add_entry(alloc: Global, name: &[u8], names: &mut Vec<Vec<u8>>) -> Result<(), AllocError>
    ensures { IfOk result (λ _. map (λ name. name.items) names.new.items
        ≡ map (λ name. name.items) names.old.items ++ entry_of name.now) }
{
    if name.is_empty() || name == b".".as_slice() || name == b"..".as_slice() {
        return Ok(());
    }
    add_name(alloc, name, names)
}

fn add_name(alloc: Global, name: &[u8], names: &mut Vec<Vec<u8>>) -> Result<(), AllocError>
    ensures { IfOk result (λ _. map (λ name. name.items) names.new.items
        ≡ map (λ name. name.items) names.old.items ++ name.now ∷ []) }
{
    let mut owned = Vec::new(alloc);
    owned.extend_from_slice(name)?;
    names.push(owned)?;
    Ok(())
}
