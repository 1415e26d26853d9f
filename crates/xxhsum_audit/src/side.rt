//! Two sorted lists, merged.

ghost use Rattle.std.specs.Prelude.{◌≡◌, [], MatchOption};
ghost use Rattle.xxhsum_audit.specs.Side.{IsFirst, digest_side, digest_sides, lines_of, names_of, path_side, path_sides};

use crate::digest::FileDigest;
use crate::order::{compare_digests, compare_paths};
use std::cmp::Ordering;

/// The first element of two sorted lists: of only one of them, or of both.
#[derive(Clone, Copy, Debug, PartialEq, Eq)]
pub enum Side<L, N> {
    /// A line, whose name was not given, or whose digest no name has.
    Line(L),
    /// A name that no line has, or whose digest none has.
    Name(N),
    /// A line and a name that are alike.
    Both(L, N),
}

impl<L, N> Side<L, N> {
    /// Returns the number of its lines: one or none.
    pub fn lines(&self) -> usize
        ensures { result ≡ lines_of self.now }
    {
        match self {
            Side::Line(_) | Side::Both(_, _) => 1,
            Side::Name(_) => 0,
        }
    }

    /// Returns the number of its names: one or none.
    pub fn names(&self) -> usize
        ensures { result ≡ names_of self.now }
    {
        match self {
            Side::Name(_) | Side::Both(_, _) => 1,
            Side::Line(_) => 0,
        }
    }
}

/// Returns the first of sorted lines and names.
pub fn first_by_path<'n>(
    lines: &[FileDigest<'n>],
    names: &[&'n [u8]],
) -> Option<Side<FileDigest<'n>, &'n [u8]>>
    ensures { MatchOption result (path_sides lines.now names.now ≡ [])
        (λ side. IsFirst path_sides lines.now names.now
        (path_side side) (lines_of side) (names_of side)) }
{
    match (lines.split_first(), names.split_first()) {
        (None, None) => None,
        (Some((line, _)), None) => Some(Side::Line(*line)),
        (None, Some((name, _))) => Some(Side::Name(*name)),
        (Some((line, _)), Some((name, _))) => match compare_paths(line.name, name) {
            Ordering::Less => Some(Side::Line(*line)),
            Ordering::Equal => Some(Side::Both(*line, *name)),
            Ordering::Greater => Some(Side::Name(*name)),
        },
    }
}

// Returns the first of lines whose names are gone and new names, both sorted by digest.
pub(crate) fn first_by_digest<'n>(
    removed: &[FileDigest<'n>],
    added: &[FileDigest<'n>],
) -> Option<Side<FileDigest<'n>, FileDigest<'n>>>
    ensures { MatchOption result (digest_sides removed.now added.now ≡ [])
        (λ side. IsFirst digest_sides removed.now added.now
        (digest_side side) (lines_of side) (names_of side)) }
{
    match (removed.split_first(), added.split_first()) {
        (None, None) => None,
        (Some((line, _)), None) => Some(Side::Line(*line)),
        (None, Some((name, _))) => Some(Side::Name(*name)),
        (Some((line, _)), Some((name, _))) => match compare_digests(*line, *name) {
            Ordering::Less => Some(Side::Line(*line)),
            Ordering::Equal => Some(Side::Both(*line, *name)),
            Ordering::Greater => Some(Side::Name(*name)),
        },
    }
}
