//! Callers with contracts, which need no lemma.

ghost use Rattle.std.specs.Prelude.{◌≡◌, ◌++◌, ◌↔◌, ◌<◌, IsErr, IfOk, Some, length};
ghost use Rattle.twox_hash.specs.Xxh64.{xxh64};
ghost use Rattle.twox_hash.specs.Secret.{derived_secret};
ghost use Rattle.twox_hash.specs.Value.{stream_128, xxh3_64};

use std::alloc::{AllocError, Allocator};
use twox_hash::xxhash3::OneshotWithSecretError;
use twox_hash::{XxHash3_64, XxHash3_128, XxHash64};

/// XXH64 of two pieces.
pub fn xxh64_of_two(seed: u64, first: &[u8], second: &[u8]) -> u64
    ensures { result ≡ xxh64 seed (first.now ++ second.now) }
{
    let mut hasher = XxHash64::with_seed(seed);
    hasher.write(first);
    hasher.write(second);
    hasher.finish()
}

/// XXH3 of 128 bits of two pieces, with a seed. The secret that it derives is in memory of `alloc`.
pub fn xxh3_128_of_two<A: Allocator>(
    alloc: A,
    seed: u64,
    first: &[u8],
    second: &[u8],
) -> Result<u128, AllocError>
    ensures { IfOk result (λ value.
        value ≡ stream_128 (Some seed) (derived_secret seed) (first.now ++ second.now)) }
{
    let mut hasher = XxHash3_128::with_seed(alloc, seed)?;
    hasher.write(first);
    hasher.write(second);
    Ok(hasher.finish_128())
}

/// XXH3 of 64 bits with a secret. A secret of fewer than 136 bytes is refused.
pub fn xxh3_64_keyed(secret: &[u8], input: &[u8]) -> Result<u64, OneshotWithSecretError>
    ensures refused { IsErr result ↔ (length secret.now < 136) }
    ensures value { IfOk result (λ value. value ≡ xxh3_64 0 secret.now input.now) }
{
    XxHash3_64::oneshot_with_secret(secret, input)
}
