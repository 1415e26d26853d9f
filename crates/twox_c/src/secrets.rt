//! Secrets derived from a seed or from any number of bytes.

ghost use Rattle.std.specs.Prelude.{◌≡◌, ◌+◌, ◌*◌, ◌/◌, ◌<◌, ◌≤◌, length};
ghost use Rattle.twox_core.specs.Secret.{derived_secret};
ghost use Rattle.twox_c.specs.GeneratedSecret.{generated_secret, groups_xored, pair_xored, repeated, secret_from, word_xored};

use crate::xxh3_128::{XXH3_128bits, XXH3_128bits_withSeed};
use crate::{XXH_ERROR, XXH_OK};
use twox_core::xxhash3::{DEFAULT_SECRET_RAW, SECRET_MINIMUM_LENGTH};
use twox_hash::words::{Halves, IntoU64, u64_at};
use twox_hash::xxhash3::{DefaultSecret, derived_secret};

/// `void XXH3_generateSecret_fromSeed(void* secretBuffer, XXH64_hash_t seed)`: writes the 192 bytes of the secret
/// derived from the seed, which inputs of more than 240 bytes are hashed with under that seed.
#[unsafe(no_mangle)]
pub extern "C" fn XXH3_generateSecret_fromSeed(secretBuffer: &mut DefaultSecret, seed: u64)
    ensures { secretBuffer.new ≡ derived_secret seed }
{
    *secretBuffer = derived_secret(seed);
}

/// `XXH_errorcode XXH3_generateSecret(void* secretBuffer, size_t secretSize, const void* customSeed, size_t
/// customSeedSize)`: writes a secret of `secretSize` bytes derived from the custom seed, and returns `XXH_OK`.
/// `customSeed` may be null if `customSeedSize` is 0; the default secret is used instead.
///
/// If `secretSize` is below 136, writes nothing and returns `XXH_ERROR`.
#[unsafe(no_mangle)]
pub extern "C" fn XXH3_generateSecret(secretBuffer: &mut [u8], customSeed: &[u8]) -> u32
    ensures written { 136 ≤ length secretBuffer.old → (result ≡ XXH_OK) × (secretBuffer.new
        ≡ generated_secret customSeed.now (length secretBuffer.old)) }
    ensures refused { length secretBuffer.old < 136
        → (result ≡ XXH_ERROR) × (secretBuffer.new ≡ secretBuffer.old) }
{
    if secretBuffer.len() < SECRET_MINIMUM_LENGTH {
        return XXH_ERROR;
    }
    if customSeed.is_empty() {
        write_secret(secretBuffer, &DEFAULT_SECRET_RAW);
    } else {
        write_secret(secretBuffer, customSeed);
    }
    XXH_OK
}

// Writes the secret derived from the source.
fn write_secret(secret: &mut [u8], source: &[u8])
    requires room { 16 ≤ length secret.old }
    requires some { 1 ≤ length source.now }
    ensures { secret.new ≡ secret_from source.now (length secret.old) }
{
    repeat(secret, source);
    // Calls the export itself: with a second caller `oneshot` would not be inlined into it.
    let hash = XXH3_128bits(source).value();
    xor_groups(secret, &hash.to_be_bytes());
    xor_pair(secret, secret.len() - 16, hash);
}

// Fills the secret with the source, repeated.
fn repeat(secret: &mut [u8], source: &[u8])
    requires { 1 ≤ length source.now }
    ensures { secret.new ≡ repeated source.now (length secret.old) }
{
    for i in 0..secret.len() {
        secret[i] = source[i % source.len()];
    }
}

// Xors each whole group of 16 bytes with the hash of `bytes`, with the group's number as the seed.
fn xor_groups(secret: &mut [u8], bytes: &[u8; 16])
    ensures { secret.new ≡ groups_xored bytes.now secret.old (length secret.old / 16) }
{
    for k in 0..secret.len() / 16 {
        xor_pair(
            secret,
            16 * k,
            XXH3_128bits_withSeed(bytes, k.into_u64()).value(),
        );
    }
}

// Xors the two words from byte `i` on with the low and the high half of the hash.
fn xor_pair(secret: &mut [u8], i: usize, hash: u128)
    requires { i + 16 ≤ length secret.old }
    ensures { secret.new ≡ pair_xored secret.old i hash }
{
    xor_word(secret, i, hash.lower_half());
    xor_word(secret, i + 8, hash.upper_half());
}

// Xors the word from byte `i` on with another.
fn xor_word(secret: &mut [u8], i: usize, other: u64)
    requires { i + 8 ≤ length secret.old }
    ensures { secret.new ≡ word_xored secret.old i other }
{
    let word = u64_at(secret, i) ^ other;
    secret[i..i + 8].copy_from_slice(&word.to_le_bytes());
}
