//! The definition, from the calls of the standard `BuildHasher` and `Hasher` only.

ghost use Rattle.std.specs.Prelude.{◌≡◌};
ghost use Rattle.twox_hash.specs.Xxh32.{xxh32};
ghost use Rattle.twox_hash.specs.Xxh64.{xxh64};

use std::hash::{BuildHasher, Hasher};
use twox_hash::{xxhash32, xxhash64};

/// XXH32 under a state's seed, by the calls of the standard traits only.
pub fn by_state_32(state: &xxhash32::State, bytes: &[u8]) -> u64
    ensures { result ≡ xxh32 state.now bytes.now }
{
    let mut hasher_32 = state.build_hasher();
    Hasher::write(&mut hasher_32, bytes);
    Hasher::finish(&hasher_32)
}

/// XXH64 under a state's seed, by the calls of the standard traits only.
pub fn by_state_64(state: &xxhash64::State, bytes: &[u8]) -> u64
    ensures { result ≡ xxh64 state.now bytes.now }
{
    let mut hasher_64 = state.build_hasher();
    Hasher::write(&mut hasher_64, bytes);
    Hasher::finish(&hasher_64)
}
