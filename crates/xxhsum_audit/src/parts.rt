//! Bytes that are split at each byte of one value: lines at newlines, names at NULs.

ghost use Rattle.std.specs.Prelude.{map, IfOk};
ghost use Rattle.xxhsum_audit.specs.Parts.{ArePartsOf};

use std::alloc::{AllocError, Global};
use xxhsum_line::parts::split_at_first;

/// Returns the parts before each byte of this value, and the part after the last one if it isn't empty. Returns
/// `AllocError` if out of memory.
#[tactic(auto, using(crate::proofs::PartFacts::stands_whole))]
pub fn cut_at<'b>(alloc: Global, end: u8, bytes: &'b [u8]) -> Result<Vec<&'b [u8]>, AllocError>
    ensures { IfOk result (λ parts. ArePartsOf end bytes.now
        (map (λ part. part.now) parts.items)) }
{
    let mut parts = Vec::new(alloc);
    let mut left = bytes;
    while let Some((part, rest)) = split_at_first(end, left) {
        parts.push(part)?;
        left = rest;
    }
    if left.is_empty() {
        return Ok(parts);
    }
    parts.push(left)?;
    Ok(parts)
}
