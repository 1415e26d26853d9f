//! An index of blocks: the hash of each block of a file, which finds the first changed block.

ghost use Rattle.std.specs.Prelude.{◌≡◌, ◌≤◌, ◌<◌, ℕ, List, length, map, slice_get, Some, IfOk, IfSome, IfNone, IsSomeAnd};
ghost use Rattle.twox_hash.specs.Word.{IsBytes};
ghost use Rattle.twox_hash.specs.ChangedUnit.{DiffersWithin, IsUnit32};
ghost use Rattle.twox_hash.specs.Xxh32.{xxh32};

use std::alloc::{AllocError, Global};
use twox_hash::XxHash32;

/// Returns the XXH32 of each block.
///
/// # Errors
///
/// `AllocError` if out of memory.
pub fn block_index<const N: usize>(
    alloc: Global,
    seed: u32,
    blocks: &[[u8; N]],
) -> Result<Vec<u32>, AllocError>
    ensures { IfOk result (λ index. index.items ≡ map (λ block. xxh32 seed block) blocks.now) }
{
    let mut index = Vec::new(alloc);
    for block in blocks {
        index.push(XxHash32::oneshot(seed, block))?;
    }
    Ok(index)
}

/// Returns the number of the first block whose hash is not the one in the index.
///
/// Detects at that block, or before, every block that is one changed unit away from the indexed one: a four-byte word,
/// counted from the block's byte 0, or one of the bytes after the last word.
pub fn first_changed<const N: usize>(index: &[u32], seed: u32, blocks: &[[u8; N]]) -> Option<usize>
    requires { length blocks.now ≤ length index.now }
    ensures found { IfSome result (λ i. (block : List ℕ)
        → slice_get blocks.now i ≡ Some block → ¬ (slice_get index.now i ≡ Some (xxh32 seed block))) }
    ensures unchanged { IfNone result ((i : ℕ) (block : List ℕ)
        → slice_get blocks.now i ≡ Some block → slice_get index.now i ≡ Some (xxh32 seed block)) }
    ensures notices { (i from size : ℕ) (indexed block : List ℕ)
        → slice_get index.now i ≡ Some (xxh32 seed indexed) → slice_get blocks.now i ≡ Some block
        → IsBytes indexed → IsUnit32 (length block) from size → DiffersWithin from size block indexed
        → IsSomeAnd result (λ first. first ≤ i) }
{
    for i in 0..blocks.len() {
        if XxHash32::oneshot(seed, &blocks[i]) != index[i] {
            return Some(i);
        }
    }
    None
}
