//! The orders of names and of digests by which lines and names are merged.

ghost use Rattle.std.specs.Prelude.{◌≡◌, IfOk, MatchOption, None, Some};
ghost use Rattle.xxhsum_audit.specs.Item.{item_of, items_of, names_of, normalize_path, texts_of};
ghost use Rattle.xxhsum_audit.specs.Order.{IsOrder, compare_digests, compare_paths, find_duplicate, hides, holds_path, is_tail, rank_digests, rank_lines, rank_names, rank_of, shares_path};

use crate::digest::FileDigest;
use std::alloc::{AllocError, Global};
use std::cmp::Ordering;
use xxh_io::kind::Kind;

// Returns the position of an algorithm among the algorithms.
fn rank_of(kind: Kind) -> u8
    ensures { result ≡ rank_of kind }
{
    match kind {
        Kind::X32 => 0,
        Kind::X64 => 1,
        Kind::X3_64 => 2,
        Kind::X3_128 => 3,
    }
}

// Returns the name without each `./` at its beginning.
#[tactic(auto, using(crate::proofs::NormalizeFacts::normalized_past, crate::proofs::NormalizeFacts::normalized_end))]
fn normalize_path(name: &[u8]) -> &[u8]
    ensures { result.now ≡ normalize_path name.now }
{
    let mut rest = name;
    while let Some(behind) = rest.strip_prefix(b"./") {
        rest = behind;
    }
    rest
}

/// Compares two names. Every `./` at the beginning is ignored.
pub fn compare_paths(a: &[u8], b: &[u8]) -> Ordering
    ensures { result ≡ compare_paths a.now b.now }
{
    normalize_path(a).cmp(normalize_path(b))
}

/// True if the path of the name is that of the folder, or below it. All paths are below `.`.
pub fn hides(folder: &[u8], name: &[u8]) -> bool
    ensures { result ≡ hides folder.now name.now }
{
    let base = normalize_path(folder);
    base == b".".as_slice() || holds_path(base, normalize_path(name))
}

fn holds_path(base: &[u8], path: &[u8]) -> bool
    ensures { result ≡ holds_path base.now path.now }
{
    match path.strip_prefix(base) {
        Some(rest) => base.is_empty() || base.ends_with(b"/") || is_tail(rest),
        None => false,
    }
}

fn is_tail(rest: &[u8]) -> bool
    ensures { result ≡ is_tail rest.now }
{
    match rest.first() {
        Some(byte) => *byte == b'/',
        None => true,
    }
}

// Compares two names for sorting: those with one path by all their bytes.
pub(crate) fn rank_names(a: &[u8], b: &[u8]) -> Ordering
    ensures { result ≡ rank_names a.now b.now }
{
    match compare_paths(a, b) {
        Ordering::Less => Ordering::Less,
        Ordering::Equal => a.cmp(b),
        Ordering::Greater => Ordering::Greater,
    }
}

/// Compares two digests, first by their algorithms.
pub fn compare_digests(a: FileDigest<'_>, b: FileDigest<'_>) -> Ordering
    ensures { result ≡ compare_digests (item_of a.entry) (item_of b.entry) }
{
    match rank_of(a.kind).cmp(&rank_of(b.kind)) {
        Ordering::Less => Ordering::Less,
        Ordering::Equal => a.value.cmp(&b.value),
        Ordering::Greater => Ordering::Greater,
    }
}

// Compares two digests for sorting: those of one algorithm and value by their names.
pub(crate) fn rank_digests(a: FileDigest<'_>, b: FileDigest<'_>) -> Ordering
    ensures { result ≡ rank_digests (item_of a.entry) (item_of b.entry) }
{
    match compare_digests(a, b) {
        Ordering::Less => Ordering::Less,
        Ordering::Equal => rank_names(a.name, b.name),
        Ordering::Greater => Ordering::Greater,
    }
}

/// Sorts names.
pub fn put_names_in_order(names: &mut [&[u8]])
    ensures { IsOrder rank_names (texts_of names.old) (texts_of names.new) }
{
    names.sort_unstable_by(|a, b| rank_names(a, b));
}

/// Sorts entries of lines by their names.
pub fn put_lines_in_order(lines: &mut [FileDigest<'_>])
    ensures { IsOrder rank_lines (items_of lines.old) (items_of lines.new) }
{
    lines.sort_unstable_by(|a, b| rank_names(a.name, b.name));
}

// Sorts digests.
pub(crate) fn put_digests_in_order(digests: &mut [FileDigest<'_>])
    ensures { IsOrder rank_digests (items_of digests.old) (items_of digests.new) }
{
    digests.sort_unstable_by(|a, b| rank_digests(*a, *b));
}

/// Returns the names of these, in order. Returns `AllocError` if out of memory.
pub fn names_of<'n>(alloc: Global, digests: &[FileDigest<'n>]) -> Result<Vec<&'n [u8]>, AllocError>
    ensures { IfOk result (λ names. texts_of names.items ≡ names_of (items_of digests.now)) }
{
    let mut names = Vec::new(alloc);
    for one in digests {
        names.push(one.name)?;
    }
    Ok(names)
}

/// Returns the first name with the path of the next one, if there is one.
pub fn find_duplicate<'n>(names: &[&'n [u8]]) -> Option<&'n [u8]>
    ensures { MatchOption result (find_duplicate (texts_of names.now) ≡ None)
        (λ name. find_duplicate (texts_of names.now) ≡ Some name.now) }
{
    for at in 0..names.len() {
        if shares_path(names[at], &names[at + 1..]) {
            return Some(names[at]);
        }
    }
    None
}

// True if the first of the others has the path of this one.
fn shares_path(name: &[u8], behind: &[&[u8]]) -> bool
    ensures { result ≡ shares_path name.now (texts_of behind.now) }
{
    match behind.first() {
        Some(next) => compare_paths(name, next) == Ordering::Equal,
        None => false,
    }
}
