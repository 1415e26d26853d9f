//! XXH3 128-bit.

ghost use Rattle.std.specs.Prelude.{◌≡◌, ◌⊎◌, ◌<◌, ◌≤◌, ℕ, Option, List, [], ◌++◌, length};
ghost use Rattle.twox_hash.specs.Secret.{default_secret, derived_secret};
ghost use Rattle.twox_hash.specs.Value.{effective_secret, stream_128, xxh3_128};
ghost use Rattle.twox_c.specs.Hash128.{value_of};
ghost use Rattle.twox_hash.specs.AfterWrite.{core_after_write};
ghost use Rattle.twox_hash.specs.Streams.{value_128};
ghost use Rattle.twox_c.specs.State3.{IsUsable, IsUsableWith, WasGiven, WasGivenWith, stream_of, stream_with};

use crate::hash128::Xxh128Hash;
use crate::xxh3_state::Xxh3State;
use crate::{XXH_ERROR, XXH_OK};
use twox_hash::XxHash3_128;
use twox_hash::xxhash3::derived_secret;
use twox_hash::xxhash3_128::Finalize128;

/// `XXH128_hash_t XXH3_128bits(const void* input, size_t length)`: returns the hash of `length` bytes, with the default
/// secret and the seed 0. `input` may be null if `length` is 0.
#[unsafe(no_mangle)]
pub extern "C" fn XXH3_128bits(input: &[u8]) -> Xxh128Hash
    ensures { value_of result ≡ xxh3_128 0 default_secret input.now }
{
    Xxh128Hash::of(XxHash3_128::oneshot(input))
}

/// `XXH128_hash_t XXH3_128bits_withSeed(const void* input, size_t length, XXH64_hash_t seed)`: returns the hash of
/// `length` bytes with a seed: up to 240 bytes with the default secret, above that with the secret derived from the
/// seed. `input` may be null if `length` is 0.
#[unsafe(no_mangle)]
pub extern "C" fn XXH3_128bits_withSeed(input: &[u8], seed: u64) -> Xxh128Hash
    ensures { let s = effective_secret (derived_secret seed) input.now in
        value_of result ≡ xxh3_128 seed s input.now }
{
    Xxh128Hash::of(XxHash3_128::oneshot_with_seed(seed, input))
}

/// `XXH128_hash_t XXH3_128bits_withSecret(const void* input, size_t length, const void* secret, size_t secretSize)`:
/// returns the hash of `length` bytes with a secret, at every length, and the seed 0. `input` may be null if `length`
/// is 0. Returns 0 for a secret of fewer than 136 bytes.
#[unsafe(no_mangle)]
pub extern "C" fn XXH3_128bits_withSecret(input: &[u8], secret: &[u8]) -> Xxh128Hash
    ensures value { 136 ≤ length secret.now → value_of result ≡ xxh3_128 0 secret.now input.now }
    ensures refused { length secret.now < 136 → value_of result ≡ 0 }
{
    Xxh128Hash::of(XxHash3_128::oneshot_with_secret(secret, input).unwrap_or(0))
}

/// `XXH128_hash_t XXH3_128bits_withSecretandSeed(const void* input, size_t length, const void* secret, size_t
/// secretSize, XXH64_hash_t seed)`: returns the hash of `length` bytes: up to 240 with the default secret and the seed,
/// above that with the secret. `input` may be null if `length` is 0. Returns 0 for more than 240 bytes and a secret of
/// fewer than 136.
#[unsafe(no_mangle)]
pub extern "C" fn XXH3_128bits_withSecretandSeed(
    input: &[u8],
    secret: &[u8],
    seed: u64,
) -> Xxh128Hash
    ensures value { let s = effective_secret secret.now input.now in
        ((length input.now ≤ 240) ⊎ (136 ≤ length secret.now))
        → value_of result ≡ xxh3_128 seed s input.now }
    ensures refused { 240 < length input.now → length secret.now < 136 → value_of result ≡ 0 }
{
    Xxh128Hash::of(XxHash3_128::oneshot_with_seed_and_secret(seed, secret, input).unwrap_or(0))
}

/// `XXH128_hash_t XXH128(const void* input, size_t length, XXH64_hash_t seed)`: returns the same as
/// `XXH3_128bits_withSeed`.
#[unsafe(no_mangle)]
pub extern "C" fn XXH128(input: &[u8], seed: u64) -> Xxh128Hash
    ensures { let s = effective_secret (derived_secret seed) input.now in
        value_of result ≡ xxh3_128 seed s input.now }
{
    XXH3_128bits_withSeed(input, seed)
}

/// `XXH_errorcode XXH3_128bits_reset(XXH3_state_t* state)`: resets the state to one of no bytes, with the default
/// secret and the seed 0, whatever it held, and returns `XXH_OK`.
#[unsafe(no_mangle)]
pub extern "C" fn XXH3_128bits_reset(state: &mut Xxh3State) -> u32
    ensures ok { result ≡ XXH_OK }
    ensures empty { WasGiven state.new (Some 0) default_secret [] }
{
    state.reset_default()
}

/// `XXH_errorcode XXH3_128bits_reset_withSeed(XXH3_state_t* state, XXH64_hash_t seed)`: resets the state to one of no
/// bytes, with the seed and the secret derived from it, whatever it held, and returns `XXH_OK`.
#[unsafe(no_mangle)]
pub extern "C" fn XXH3_128bits_reset_withSeed(state: &mut Xxh3State, seed: u64) -> u32
    ensures ok { result ≡ XXH_OK }
    ensures empty { WasGiven state.new (Some seed) (derived_secret seed) [] }
{
    state.reset(Some(seed), &derived_secret(seed))
}

/// `XXH_errorcode XXH3_128bits_update(XXH3_state_t* state, const void* input, size_t length)`: hashes `length` bytes
/// after those before. `input` may be null if `length` is 0.
///
/// Returns `XXH_OK`. For memory without the mark of a reset, or for a state whose secret the caller has, changes
/// nothing and returns `XXH_ERROR`.
#[unsafe(no_mangle)]
pub extern "C" fn XXH3_128bits_update(state: &mut Xxh3State, input: &[u8]) -> u32
    ensures message { (seed : Option ℕ) (s m : List ℕ)
        → WasGiven state.old seed s m → WasGiven state.new seed s (m ++ input.now) }
    ensures exact { IsUsable state.old
        → stream_of state.new ≡ core_after_write (λ x. x) (stream_of state.old) input.now }
    ensures usable { IsUsable state.old → IsUsable state.new }
    ensures ok { IsUsable state.old → result ≡ XXH_OK }
    ensures refused { (¬ IsUsable state.old) → (result ≡ XXH_ERROR) × (state.new ≡ state.old) }
{
    state.update(input)
}

/// `XXH128_hash_t XXH3_128bits_digest(const XXH3_state_t* state)`: returns the hash of the bytes so far, and doesn't
/// change the state. Up to 240 bytes it uses the default secret and the seed or, after a reset with only a secret,
/// that secret and the seed 0; above that it uses the state's secret and no seed. Returns 0 for memory without the mark
/// of a reset, and for a state whose secret the caller has.
#[unsafe(no_mangle)]
#[tactic(auto, unfolding(twox_hash::specs::Streams::value_128))]
pub extern "C" fn XXH3_128bits_digest(state: &Xxh3State) -> Xxh128Hash
    ensures message { (seed : Option ℕ) (s m : List ℕ)
        → WasGiven state.now seed s m → value_of result ≡ stream_128 seed s m }
    ensures exact { IsUsable state.now
        → value_of result ≡ value_128 (λ x. x) (stream_of state.now) }
    ensures refused { (¬ IsUsable state.now) → value_of result ≡ 0 }
{
    Xxh128Hash::of(state.finish(&Finalize128).unwrap_or(0))
}

/// `XXH128_hash_t twox_c_digest_128(const XXH3_state_t* state, const void* secret, size_t secretSize)`: does the same
/// for a state whose caller has the secret. Returns 0 for memory without the mark of a reset with such a secret, or for a
/// secret of fewer than 136 bytes.
#[unsafe(no_mangle)]
#[tactic(auto, unfolding(twox_hash::specs::Streams::value_128))]
pub extern "C" fn twox_c_digest_128(state: &Xxh3State, secret: &[u8]) -> Xxh128Hash
    ensures message { (seed : Option ℕ) (m : List ℕ)
        → WasGivenWith state.now seed secret.now m → value_of result ≡ stream_128 seed secret.now m }
    ensures exact { IsUsableWith state.now secret.now
        → value_of result ≡ value_128 (λ x. x) (stream_with state.now secret.now) }
    ensures refused { (¬ IsUsableWith state.now secret.now) → value_of result ≡ 0 }
{
    Xxh128Hash::of(state.finish_with(secret, &Finalize128).unwrap_or(0))
}

/// Another name of `XXH3_128bits`. In the C library it chooses the instruction set at run time.
#[unsafe(no_mangle)]
pub extern "C" fn XXH3_128bits_dispatch(input: &[u8]) -> Xxh128Hash
    ensures { value_of result ≡ xxh3_128 0 default_secret input.now }
{
    XXH3_128bits(input)
}

/// Another name of `XXH3_128bits_withSeed`. In the C library it chooses the instruction set at run time.
#[unsafe(no_mangle)]
pub extern "C" fn XXH3_128bits_withSeed_dispatch(input: &[u8], seed: u64) -> Xxh128Hash
    ensures { let s = effective_secret (derived_secret seed) input.now in
        value_of result ≡ xxh3_128 seed s input.now }
{
    XXH128(input, seed)
}

/// Another name of `XXH3_128bits_withSecret`. In the C library it chooses the instruction set at run time.
#[unsafe(no_mangle)]
pub extern "C" fn XXH3_128bits_withSecret_dispatch(input: &[u8], secret: &[u8]) -> Xxh128Hash
    ensures value { 136 ≤ length secret.now → value_of result ≡ xxh3_128 0 secret.now input.now }
    ensures refused { length secret.now < 136 → value_of result ≡ 0 }
{
    XXH3_128bits_withSecret(input, secret)
}

/// Another name of `XXH3_128bits_update`. In the C library it chooses the instruction set at run time.
#[unsafe(no_mangle)]
pub extern "C" fn XXH3_128bits_update_dispatch(state: &mut Xxh3State, input: &[u8]) -> u32
    ensures message { (seed : Option ℕ) (s m : List ℕ)
        → WasGiven state.old seed s m → WasGiven state.new seed s (m ++ input.now) }
    ensures exact { IsUsable state.old
        → stream_of state.new ≡ core_after_write (λ x. x) (stream_of state.old) input.now }
    ensures usable { IsUsable state.old → IsUsable state.new }
    ensures ok { IsUsable state.old → result ≡ XXH_OK }
    ensures refused { (¬ IsUsable state.old) → (result ≡ XXH_ERROR) × (state.new ≡ state.old) }
{
    XXH3_128bits_update(state, input)
}
