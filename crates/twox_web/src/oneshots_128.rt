//! One-shots of XXH3 128-bit: up to 240 bytes by the library's own functions, above that with the module's kernel.

ghost use Rattle.std.specs.Prelude.{◌≡◌, ◌↔◌, ◌<◌, ◌≤◌, ℕ, length};
ghost use Rattle.twox_hash.specs.Secret.{default_secret, derived_secret};
ghost use Rattle.twox_hash.specs.SecretBytes.{secret_bytes};
ghost use Rattle.twox_hash.specs.Value.{effective_secret, xxh3_128};
ghost use Rattle.twox_exports.specs.Number.{number_of};

use crate::PageKernel;
use twox_exports::{DONE, SECRET_TOO_SHORT, Wide, halves};
use twox_hash::XxHash3_128;
use twox_hash::xxhash3::{
    Algorithm, CUTOFF, DEFAULT_SEED, Finalize, Secret, default_secret, derived_secret,
};
use twox_hash::xxhash3_128::Finalize128;

/// Writes the 128-bit hash of all bytes at once, with the default secret and the seed 0.
#[unsafe(no_mangle)]
pub extern "C" fn twox_xxh3_128(input: &[u8], value: &mut Wide)
    ensures { number_of value.new ≡ xxh3_128 0 default_secret input.now }
{
    *value = halves(if input.len() <= CUTOFF {
        XxHash3_128::oneshot(input)
    } else {
        long_128(default_secret(), input)
    });
}

/// Writes the 128-bit hash of all bytes at once, with a seed.
#[unsafe(no_mangle)]
#[tactic(auto, unfolding(twox_core::specs::Value::effective_secret))]
pub extern "C" fn twox_xxh3_128_with_seed(seed: u64, input: &[u8], value: &mut Wide)
    ensures { let s = effective_secret (derived_secret seed) input.now in
        number_of value.new ≡ xxh3_128 seed s input.now }
{
    *value = halves(if input.len() <= CUTOFF {
        XxHash3_128::oneshot_with_seed(seed, input)
    } else {
        long_128_derived(seed, input)
    });
}

/// Writes the 128-bit hash of all bytes at once, with a secret and the seed 0, at every length.
///
/// `SECRET_TOO_SHORT` if the secret has fewer than 136 bytes. Nothing is then written.
#[unsafe(no_mangle)]
pub extern "C" fn twox_xxh3_128_with_secret(secret: &[u8], input: &[u8], value: &mut Wide) -> u32
    ensures done { result ≡ DONE ↔ (136 ≤ length secret.now) }
    ensures refused { result ≡ SECRET_TOO_SHORT ↔ (length secret.now < 136) }
    ensures value { result ≡ DONE → number_of value.new ≡ xxh3_128 0 secret.now input.now }
    ensures kept { result ≡ SECRET_TOO_SHORT → value.new ≡ value.old }
{
    let Ok(secret) = Secret::new(secret) else {
        return SECRET_TOO_SHORT;
    };
    *value = halves(if input.len() <= CUTOFF {
        Finalize128.small(secret, DEFAULT_SEED, input)
    } else {
        long_128(secret, input)
    });
    DONE
}

/// Writes the 128-bit hash of all bytes at once, with a seed and a secret. Up to 240 bytes the seed has an effect, with
/// the default secret, whatever secret is passed; above that, the secret.
///
/// `SECRET_TOO_SHORT` if the input has more than 240 bytes and the secret fewer than 136. Nothing is then written.
#[unsafe(no_mangle)]
#[tactic(auto, unfolding(twox_core::specs::Value::effective_secret))]
pub extern "C" fn twox_xxh3_128_with_seed_and_secret(
    seed: u64,
    secret: &[u8],
    input: &[u8],
    value: &mut Wide,
) -> u32
    ensures done { result ≡ DONE ↔ (¬ ((240 < length input.now) × (length secret.now < 136))) }
    ensures refused { result ≡ SECRET_TOO_SHORT
        ↔ ((240 < length input.now) × (length secret.now < 136)) }
    ensures value { let s = effective_secret secret.now input.now in
        result ≡ DONE → number_of value.new ≡ xxh3_128 seed s input.now }
    ensures kept { result ≡ SECRET_TOO_SHORT → value.new ≡ value.old }
{
    if input.len() <= CUTOFF {
        *value = halves(XxHash3_128::oneshot_with_seed(seed, input));
        return DONE;
    }
    let Ok(own) = Secret::new(secret) else {
        return SECRET_TOO_SHORT;
    };
    *value = halves(long_128(own, input));
    DONE
}

// Returns the hash of more than 240 bytes under a secret. No seed is used. A separate call, so that short inputs don't
// pay for the stack frame of long ones.
#[inline(never)]
#[tactic(auto, using(twox_core::proofs::ValueLaws::long_128, twox_core::proofs::EndingFacts::block_both))]
fn long_128(secret: Secret<'_>, input: &[u8]) -> u128
    requires { 240 < length input.now }
    ensures { (any : ℕ) → result ≡ xxh3_128 any (secret_bytes secret.entry) input.now }
{
    Algorithm(PageKernel {}).oneshot(secret, input, Finalize128)
}

// Returns the hash of more than 240 bytes under the secret derived from a seed, which is on the stack.
#[inline(never)]
fn long_128_derived(seed: u64, input: &[u8]) -> u128
    requires { 240 < length input.now }
    ensures { (any : ℕ) → result ≡ xxh3_128 any (derived_secret seed) input.now }
{
    let secret = derived_secret(seed);
    long_128(Secret::new(&secret).unwrap(), input)
}
