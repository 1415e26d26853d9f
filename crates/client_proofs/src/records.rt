//! Equality, copies, and hashers that are saved as records.

ghost use Rattle.std.specs.Prelude.{◌≡◌, ◌↔◌, ◌++◌, ℕ, List, IsTrue, Ok, IfOk, MatchResult};
ghost use Rattle.twox_hash.specs.Xxh64.{xxh64};
ghost use Rattle.twox_hash.specs.Record32.{AgreeInUse as AgreeInUse32};
ghost use Rattle.twox_hash.specs.Record64.{Represents, AgreeInUse, finish_value, after_write};

use std::alloc::AllocError;
use twox_hash::xxhash64::RestoreError;
use twox_hash::{XxHash32, XxHash64};

/// True if and only if the records of the two hashers are equal.
pub fn are_equal(a: &XxHash64, b: &XxHash64) -> bool
    ensures { IsTrue result ↔ (a.now ≡ b.now) }
{
    *a == *b
}

/// Returns the XXH32 of two hashers after the same chunks: equal if the hashers are, and if their records differ only
/// in bytes of the buffer that are not in use.
pub fn values_after_32(a: &mut XxHash32, b: &mut XxHash32, pieces: &[&[u8]]) -> (u32, u32)
    ensures equal { b.old ≡ a.old → result.1 ≡ result.0 }
    ensures unread { AgreeInUse32 a.old b.old → result.1 ≡ result.0 }
{
    for piece in pieces {
        a.write(piece);
        b.write(piece);
    }
    (a.finish_32(), b.finish_32())
}

/// Returns the XXH64 of two hashers after the same chunks: equal if the hashers are, and if their records differ only
/// in bytes of the buffer that are not in use.
pub fn values_after_64(a: &mut XxHash64, b: &mut XxHash64, pieces: &[&[u8]]) -> (u64, u64)
    ensures equal { b.old ≡ a.old → result.1 ≡ result.0 }
    ensures unread { AgreeInUse a.old b.old → result.1 ≡ result.0 }
{
    for piece in pieces {
        a.write(piece);
        b.write(piece);
    }
    (a.finish(), b.finish())
}

/// Returns the hash of the bytes so far, and the hash with one more chunk: writes the chunk to a copy, and doesn't
/// change the original. No copy fails.
pub fn without_and_with(hasher: &XxHash64, piece: &[u8]) -> Result<(u64, u64), AllocError>
    ensures { MatchResult result
        (λ values. (m : List ℕ) → Represents hasher.now m
        → (values.0 ≡ xxh64 hasher.now.seed m) × (values.1 ≡ xxh64 hasher.now.seed (m ++ piece.now)))
        (λ _. ⊥) }
{
    let mut copy = hasher.clone()?;
    copy.write(piece);
    Ok((hasher.finish(), copy.finish()))
}

/// Returns the hash of the bytes so far and one more chunk, which is written to the hasher restored from the record.
///
/// The record of a hasher that represents any list is accepted, and continues as the hasher itself.
pub fn save_and_go_on(hasher: &XxHash64, piece: &[u8]) -> Result<u64, RestoreError>
    ensures accepted { (m : List ℕ)
        → Represents hasher.now m → result ≡ Ok (xxh64 hasher.now.seed (m ++ piece.now)) }
    ensures alike { IfOk result (λ value. value ≡ finish_value (after_write hasher.now piece.now)) }
{
    let mut restored = XxHash64::from_state(hasher.to_state())?;
    restored.write(piece);
    Ok(restored.finish())
}
