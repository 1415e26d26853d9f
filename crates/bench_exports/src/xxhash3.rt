//! XXH3 of both widths.

ghost use Rattle.std.specs.Prelude.{◌≡◌, ◌^◌, ◌≤◌, min, take};
ghost use Rattle.twox_hash.specs.Secret.{default_secret, derived_secret};
ghost use Rattle.twox_hash.specs.Value.{effective_secret, xxh3_64, xxh3_128};
ghost use Rattle.twox_hash.specs.Word.{low64, high64};

use crate::{Input, ROOM};
use twox_core::width_128::{Wide, halves};
use twox_hash::xxhash3::{DEFAULT_SECRET_LENGTH, DefaultSecret, SecretBuffer};
use twox_hash::{XxHash3_64, XxHash3_128, xxhash3_64, xxhash3_128};

#[unsafe(no_mangle)]
pub extern "C" fn twox_xxh3_64(input: &Input, len: usize) -> u64
    ensures { result ≡ xxh3_64 0 default_secret (take (min len (2 ^ 26)) input.now) }
{
    XxHash3_64::oneshot(&input[..len.min(ROOM)])
}

#[unsafe(no_mangle)]
pub extern "C" fn twox_xxh3_64_with_seed(seed: u64, input: &Input, len: usize) -> u64
    ensures { let m = take (min len (2 ^ 26)) input.now in
        result ≡ xxh3_64 seed (effective_secret (derived_secret seed) m) m }
{
    XxHash3_64::oneshot_with_seed(seed, &input[..len.min(ROOM)])
}

/// Returns the hash under a secret of this many bytes, 136 to 192, or 0 for fewer.
#[unsafe(no_mangle)]
pub extern "C" fn twox_xxh3_64_with_secret(
    secret: &DefaultSecret,
    secret_len: usize,
    input: &Input,
    len: usize,
) -> u64
    ensures { 136 ≤ secret_len
        → result ≡ xxh3_64 0 (take (min secret_len 192) secret.now) (take (min len (2 ^ 26)) input.now) }
{
    match XxHash3_64::oneshot_with_secret(
        &secret[..secret_len.min(DEFAULT_SECRET_LENGTH)],
        &input[..len.min(ROOM)],
    ) {
        Ok(value) => value,
        Err(_) => 0,
    }
}

#[unsafe(no_mangle)]
pub extern "C" fn twox_xxh3_128(input: &Input, len: usize) -> Wide {
    halves(XxHash3_128::oneshot(&input[..len.min(ROOM)]))
}

#[unsafe(no_mangle)]
pub extern "C" fn twox_xxh3_128_with_seed(seed: u64, input: &Input, len: usize) -> Wide {
    halves(XxHash3_128::oneshot_with_seed(seed, &input[..len.min(ROOM)]))
}

/// Returns the hash under the seed 0 of the input in chunks of this many bytes.
#[unsafe(no_mangle)]
pub extern "C" fn twox_xxh3_64_stream(input: &Input, len: usize, piece: usize) -> u64 {
    let mut hasher = xxhash3_64::RawHasher::new(SecretBuffer::default());
    for part in input[..len.min(ROOM)].chunks(piece.max(1)) {
        hasher.write(part);
    }
    hasher.finish()
}

/// Returns the hash under the seed 0 of the input in chunks of this many bytes.
#[unsafe(no_mangle)]
pub extern "C" fn twox_xxh3_128_stream(input: &Input, len: usize, piece: usize) -> Wide {
    let mut hasher = xxhash3_128::RawHasher::new(SecretBuffer::default());
    for part in input[..len.min(ROOM)].chunks(piece.max(1)) {
        hasher.write(part);
    }
    halves(hasher.finish_128())
}
