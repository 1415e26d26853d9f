//! The results of an audit, from merged lines and names. The names have their digests.

ghost use Rattle.std.specs.Prelude.{◌≡◌, ◌++◌, IfOk, MatchOption, None, Some, map};
ghost use Rattle.xxhsum_audit.specs.Audit.{HasMoves, as_found, moved, original, same_in, with_copy};
ghost use Rattle.xxhsum_audit.specs.Found.{Moved, found_of, founds_of};
ghost use Rattle.xxhsum_audit.specs.Item.{item_of, items_of};
ghost use Rattle.xxhsum_audit.specs.Order.{Ascends, rank_digests};
ghost use Rattle.xxhsum_audit.specs.Side.{digest_side};

use crate::digest::FileDigest;
use crate::order::{compare_digests, put_digests_in_order};
use crate::side::{Side, first_by_digest};
use crate::verdict::{Verdict, put_verdicts_in_order};
use std::alloc::{AllocError, Global};
use std::cmp::Ordering;

/// Lines and names, merged by path.
#[derive(Drop)]
pub struct Compared<'n> {
    /// The results of the names that are in both lists.
    pub matched: Vec<Verdict<'n>>,
    /// The lines whose names were not given.
    pub removed: Vec<FileDigest<'n>>,
    /// The names that no line has, with their digests.
    pub added: Vec<FileDigest<'n>>,
    /// The names whose files or directories can't be read.
    pub unread: Vec<&'n [u8]>,
}

/// Returns the results of all lines and names: first the names in both lists, then the others, sorted by name. Returns
/// `AllocError` if out of memory.
pub fn verdicts<'n>(
    alloc: Global,
    matched: Vec<Verdict<'n>>,
    mut removed: Vec<FileDigest<'n>>,
    mut added: Vec<FileDigest<'n>>,
) -> Result<Vec<Verdict<'n>>, AllocError>
    ensures { IfOk result (λ found. HasMoves (founds_of matched.entry.items)
        (items_of removed.entry.items) (items_of added.entry.items) (founds_of found.items)) }
{
    let mut kept = same_in(alloc, &matched)?;
    let mut rest = Vec::new(alloc);
    put_digests_in_order(&mut kept);
    put_digests_in_order(&mut removed);
    put_digests_in_order(&mut added);
    add_moves(&removed, &added, &kept, &mut rest)?;
    put_verdicts_in_order(&mut rest);
    let mut found = matched;
    found.extend_from_slice(&rest)?;
    Ok(found)
}

// Returns the unchanged files.
fn same_in<'n>(alloc: Global, matched: &[Verdict<'n>]) -> Result<Vec<FileDigest<'n>>, AllocError>
    ensures { IfOk result (λ kept. items_of kept.items ≡ same_in (founds_of matched.now)) }
{
    let mut kept = Vec::new(alloc);
    for verdict in matched {
        if let Verdict::Same { name, .. } = *verdict {
            kept.push(name)?;
        }
    }
    Ok(kept)
}

// Appends the results of the lines whose names are gone and of the new names.
fn add_moves<'n>(
    removed: &[FileDigest<'n>],
    added: &[FileDigest<'n>],
    kept: &[FileDigest<'n>],
    found: &mut Vec<Verdict<'n>>,
) -> Result<(), AllocError>
    requires { Ascends rank_digests (items_of kept.now) }
    ensures { IfOk result (λ _. founds_of found.new.items ≡ founds_of found.old.items
        ++ map (with_copy (items_of kept.now)) (moved (items_of removed.now) (items_of added.now))) }
{
    let mut removed_left = removed;
    let mut added_left = added;
    while let Some(side) = first_by_digest(removed_left, added_left) {
        found.push(verdict_of(kept, side))?;
        removed_left = &removed_left[side.lines()..];
        added_left = &added_left[side.names()..];
    }
    Ok(())
}

// Returns the result of a line whose name is gone, of a new name, or of both.
fn verdict_of<'n>(
    kept: &[FileDigest<'n>],
    side: Side<FileDigest<'n>, FileDigest<'n>>,
) -> Verdict<'n>
    requires { Ascends rank_digests (items_of kept.now) }
    ensures { found_of result
        ≡ with_copy (items_of kept.now) (as_found Moved (digest_side side.entry)) }
{
    match side {
        Side::Line(line) => Verdict::Missing { line },
        Side::Both(line, name) => Verdict::Moved { line, name },
        Side::Name(name) => match original_in(kept, name) {
            Some(original) => Verdict::Copied { original, name },
            None => Verdict::New { name },
        },
    }
}

// Returns the first unchanged file with the digest of the name.
fn original_in<'n>(kept: &[FileDigest<'n>], name: FileDigest<'_>) -> Option<FileDigest<'n>>
    requires { Ascends rank_digests (items_of kept.now) }
    ensures { MatchOption result (original (items_of kept.now) (item_of name.entry) ≡ None)
        (λ first. original (items_of kept.now) (item_of name.entry) ≡ Some (item_of first)) }
{
    let place = kept.partition_point(|one| compare_digests(*one, name) == Ordering::Less);
    let first = *kept.get(place)?;
    if compare_digests(first, name) == Ordering::Equal {
        Some(first)
    } else {
        None
    }
}
