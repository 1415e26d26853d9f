//! One-shots of XXH3 64-bit: up to 240 bytes by the library's own functions, above that with the module's kernel.

ghost use Rattle.std.specs.Prelude.{◌≡◌, ◌↔◌, ◌<◌, ◌≤◌, ℕ, length};
ghost use Rattle.twox_hash.specs.Secret.{default_secret, derived_secret};
ghost use Rattle.twox_hash.specs.SecretBytes.{secret_bytes};
ghost use Rattle.twox_hash.specs.Value.{effective_secret, xxh3_64};

use crate::PageKernel;
use twox_exports::{DONE, SECRET_TOO_SHORT};
use twox_hash::XxHash3_64;
use twox_hash::xxhash3::{
    Algorithm, CUTOFF, DEFAULT_SEED, Finalize, Secret, default_secret, derived_secret,
};
use twox_hash::xxhash3_64::Finalize64;

/// Returns the 64-bit hash of all bytes at once, with the default secret and the seed 0.
#[unsafe(no_mangle)]
pub extern "C" fn twox_xxh3_64(input: &[u8]) -> u64
    ensures { result ≡ xxh3_64 0 default_secret input.now }
{
    default_64(input)
}

/// Returns the 64-bit hash of all bytes at once, with a seed.
#[unsafe(no_mangle)]
#[tactic(auto, unfolding(twox_core::specs::Value::effective_secret))]
pub extern "C" fn twox_xxh3_64_with_seed(seed: u64, input: &[u8]) -> u64
    ensures { let s = effective_secret (derived_secret seed) input.now in
        result ≡ xxh3_64 seed s input.now }
{
    if input.len() <= CUTOFF {
        XxHash3_64::oneshot_with_seed(seed, input)
    } else {
        long_64_derived(seed, input)
    }
}

/// Writes the 64-bit hash of all bytes at once, with a secret and the seed 0, at every length.
///
/// `SECRET_TOO_SHORT` if the secret has fewer than 136 bytes. Nothing is then written.
#[unsafe(no_mangle)]
pub extern "C" fn twox_xxh3_64_with_secret(secret: &[u8], input: &[u8], value: &mut u64) -> u32
    ensures done { result ≡ DONE ↔ (136 ≤ length secret.now) }
    ensures refused { result ≡ SECRET_TOO_SHORT ↔ (length secret.now < 136) }
    ensures value { result ≡ DONE → value.new ≡ xxh3_64 0 secret.now input.now }
    ensures kept { result ≡ SECRET_TOO_SHORT → value.new ≡ value.old }
{
    let Ok(secret) = Secret::new(secret) else {
        return SECRET_TOO_SHORT;
    };
    *value = keyed_64(secret, input);
    DONE
}

/// Writes the 64-bit hash of all bytes at once, with a seed and a secret. Up to 240 bytes the seed has an effect, with
/// the default secret, whatever secret is passed; above that, the secret.
///
/// `SECRET_TOO_SHORT` if the input has more than 240 bytes and the secret fewer than 136. Nothing is then written.
#[unsafe(no_mangle)]
#[tactic(auto, unfolding(twox_core::specs::Value::effective_secret))]
pub extern "C" fn twox_xxh3_64_with_seed_and_secret(
    seed: u64,
    secret: &[u8],
    input: &[u8],
    value: &mut u64,
) -> u32
    ensures done { result ≡ DONE ↔ (¬ ((240 < length input.now) × (length secret.now < 136))) }
    ensures refused { result ≡ SECRET_TOO_SHORT
        ↔ ((240 < length input.now) × (length secret.now < 136)) }
    ensures value { let s = effective_secret secret.now input.now in
        result ≡ DONE → value.new ≡ xxh3_64 seed s input.now }
    ensures kept { result ≡ SECRET_TOO_SHORT → value.new ≡ value.old }
{
    if input.len() <= CUTOFF {
        *value = XxHash3_64::oneshot_with_seed(seed, input);
        return DONE;
    }
    let Ok(own) = Secret::new(secret) else {
        return SECRET_TOO_SHORT;
    };
    *value = long_64(own, input);
    DONE
}

// Returns the hash with the default secret and the seed 0. This function and the next are separate because LLVM orders
// the operands of an xor by the number of times that it simplifies them, on which the module's bytes depend.
fn default_64(input: &[u8]) -> u64
    ensures { result ≡ xxh3_64 0 default_secret input.now }
{
    if input.len() <= CUTOFF {
        XxHash3_64::oneshot(input)
    } else {
        long_64(default_secret(), input)
    }
}

// Returns the hash with a secret and the seed 0.
fn keyed_64(secret: Secret<'_>, input: &[u8]) -> u64
    ensures { result ≡ xxh3_64 0 (secret_bytes secret.entry) input.now }
{
    if input.len() <= CUTOFF {
        Finalize64.small(secret, DEFAULT_SEED, input)
    } else {
        long_64(secret, input)
    }
}

// Returns the hash of more than 240 bytes under a secret. No seed is used. A separate call, so that short inputs don't
// pay for the stack frame of long ones.
#[inline(never)]
#[tactic(auto, using(twox_core::proofs::ValueLaws::long_64, twox_core::proofs::EndingFacts::block_low))]
fn long_64(secret: Secret<'_>, input: &[u8]) -> u64
    requires { 240 < length input.now }
    ensures { (any : ℕ) → result ≡ xxh3_64 any (secret_bytes secret.entry) input.now }
{
    Algorithm(PageKernel {}).oneshot(secret, input, Finalize64)
}

// Returns the hash of more than 240 bytes under the secret derived from a seed, which is on the stack.
#[inline(never)]
fn long_64_derived(seed: u64, input: &[u8]) -> u64
    requires { 240 < length input.now }
    ensures { (any : ℕ) → result ≡ xxh3_64 any (derived_secret seed) input.now }
{
    let secret = derived_secret(seed);
    long_64(Secret::new(&secret).unwrap(), input)
}
