//! The secret of both XXH3 streams in the digest engine.

ghost use Rattle.std.specs.Prelude.{◌≡◌, Some};
ghost use Rattle.twox_hash.specs.Secret.{derived_secret};

use twox_hash::xxhash3::{DEFAULT_SECRET_LENGTH, DefaultSecret, SecretBuffer};

// Returns the seed and the secret derived from it.
pub(crate) fn derived_secret_of(seed: u64) -> SecretBuffer<DefaultSecret>
    ensures seed { result.seed ≡ Some seed }
    ensures secret { result.secret ≡ derived_secret seed }
{
    SecretBuffer::with_seed(seed, [0; DEFAULT_SECRET_LENGTH]).unwrap()
}
