//! Hashes that were stored with blocks, and the changes that they detect.

ghost use Rattle.std.specs.Prelude.{◌≡◌, ◌≢◌, ◌↔◌, ◌^◌, ◌<◌, ◌≤◌, ℕ, List, length, IsTrue};
ghost use Rattle.twox_hash.specs.Word.{IsBytes};
ghost use Rattle.twox_hash.specs.ChangedUnit.{DiffersWithin, IsUnit32};
ghost use Rattle.twox_hash.specs.Xxh32.{xxh32};
ghost use Rattle.twox_hash.specs.OtherBytes.{IsOtherShort128};
ghost use Rattle.twox_hash.specs.Secret.{default_secret};
ghost use Rattle.twox_hash.specs.Value.{xxh3_128};

use twox_hash::{XxHash3_128, XxHash32};

/// True if a block still has the XXH32 that was stored with it.
///
/// Returns `false` for every block that is one changed unit away from the stored one: a four-byte word, counted from
/// byte 0, or one of the bytes after the last word.
pub fn is_unchanged(stored: u32, seed: u32, block: &[u8]) -> bool
    ensures exact { IsTrue result ↔ (stored ≡ xxh32 seed block.now) }
    ensures notices { (m : List ℕ) (from size : ℕ)
        → IsBytes m → stored ≡ xxh32 seed m → IsUnit32 (length m) from size
        → DiffersWithin from size m block.now → ¬ IsTrue result }
{
    XxHash32::oneshot(seed, block) == stored
}

/// True if two blocks have the same XXH3 128-bit.
///
/// For blocks of one length up to 16 bytes, that means that they are the same.
pub fn same_value(first: &[u8], second: &[u8]) -> bool
    ensures exact { IsTrue result
        ↔ (xxh3_128 0 default_secret first.now ≡ xxh3_128 0 default_secret second.now) }
    ensures short { length first.now ≤ 16 → length second.now ≡ length first.now
        → IsTrue result ↔ (second.now ≡ first.now) }
{
    XxHash3_128::oneshot(first) == XxHash3_128::oneshot(second)
}
