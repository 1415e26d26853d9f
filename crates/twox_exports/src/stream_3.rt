//! Streams of XXH3 in a caller's memory. One stream has values of both widths.
//!
//! A stream's secret is stored separately and passed to each call again. So a secret may have any length, and the
//! clauses are about the stream and that secret together.

ghost use Rattle.std.specs.Prelude.{◌≡◌, ◌↔◌, ◌+◌, ◌<◌, ◌≤◌, ℕ, List, [], ◌++◌, take, length, IsTrue};
ghost use Rattle.twox_hash.specs.Secret.{default_secret};
ghost use Rattle.twox_hash.specs.SecretBytes.{secret_bytes};
ghost use Rattle.twox_hash.specs.Value.{stream_64, stream_128};
ghost use Rattle.twox_core.specs.AfterWrite.{state_after_write};
ghost use Rattle.twox_core.specs.Finish.{state_finish};
ghost use Rattle.twox_core.specs.Represents.{Follows};
ghost use Rattle.twox_exports.specs.Number.{number_of};
ghost use Rattle.twox_exports.specs.StateValue.{state_value_64, state_value_128};
ghost use Rattle.twox_core.specs.InRange.{IsInRange};

use crate::{DONE, NOT_A_STREAM, SECRET_TOO_SHORT, Wide, halves};
use twox_core::short_pieces::keep_few;
use twox_hash::words::IntoU64;
use twox_hash::xxhash3::{
    BUFFERED_BYTES, CUTOFF, CoreState, Finalize, Secret, Vector, default_secret,
};
use twox_hash::xxhash3_64::Finalize64;
use twox_hash::xxhash3_128::Finalize128;

/// Returns the state of no bytes, for any secret.
#[tactic(auto, using(crate::proofs::StreamFacts::follows_fresh))]
#[inline(always)]
pub fn start() -> CoreState
    ensures { (s : List ℕ) → Follows s result [] }
{
    CoreState::new()
}

// A chunk of up to this many bytes is buffered without a call.
const FEW_BYTES: usize = 64;

/// Hashes a chunk after the bytes before, over the stream's secret.
///
/// - `SECRET_TOO_SHORT` if the secret has fewer than 136 bytes.
/// - `NOT_A_STREAM` if the state's place or its number of bytes is one that no call leaves.
///
/// If it refuses, the state is unchanged.
#[inline(always)]
pub fn write<V: Vector>(core: &mut CoreState, v: V, secret: &[u8], input: &[u8]) -> u32
    ensures done { result ≡ DONE ↔ ((136 ≤ length secret.now) × IsInRange secret.now core.old) }
    ensures short { result ≡ SECRET_TOO_SHORT ↔ (length secret.now < 136) }
    ensures refused { result ≡ NOT_A_STREAM
        ↔ ((136 ≤ length secret.now) × (¬ IsInRange secret.now core.old)) }
    ensures message { (m : List ℕ) → Follows secret.now core.old m → 136 ≤ length secret.now
        → (result ≡ DONE) × Follows secret.now core.new (m ++ input.now) }
    ensures exact { result ≡ DONE → core.new ≡ state_after_write secret.now core.old input.now }
    ensures kept { (¬ (result ≡ DONE)) → core.new ≡ core.old }
{
    let Ok(secret) = Secret::new(secret) else {
        return SECRET_TOO_SHORT;
    };
    if has_room(core, secret, input) {
        keep_few(core, input);
        return DONE;
    }
    write_far(core, v, secret, input)
}

// True if calls can continue from the state, and the chunk has few bytes that fit the buffer.
#[inline(always)]
fn has_room(core: &CoreState, secret: Secret<'_>, input: &[u8]) -> bool
    ensures in_range { IsTrue result → IsInRange (secret_bytes secret.entry) core.now }
    ensures room { IsTrue result → core.now.counts.buffer_usage + length input.now ≤ 512 }
    ensures few { IsTrue result → length input.now ≤ 64 }
    ensures size { length core.now.buffer ≡ BUFFERED_BYTES }
{
    let used = core.counts.buffer_usage;
    input.len() <= FEW_BYTES
        && used <= BUFFERED_BYTES
        && input.len() <= BUFFERED_BYTES - used
        && core.is_in_range(secret)
}

// Hashes any other chunk. A separate function, so that the small ones don't save the registers that it uses.
#[inline(never)]
fn write_far<V: Vector>(core: &mut CoreState, v: V, secret: Secret<'_>, input: &[u8]) -> u32
    ensures done { result ≡ DONE ↔ IsInRange (secret_bytes secret.entry) core.old }
    ensures refused { result ≡ NOT_A_STREAM
        ↔ (¬ IsInRange (secret_bytes secret.entry) core.old) }
    ensures size { length core.old.buffer ≡ BUFFERED_BYTES }
    ensures exact { result ≡ DONE
        → core.new ≡ state_after_write (secret_bytes secret.entry) core.old input.now }
    ensures kept { (¬ (result ≡ DONE)) → core.new ≡ core.old }
{
    if !core.is_in_range(secret) {
        return NOT_A_STREAM;
    }
    core.write(v, input, secret);
    DONE
}

// Returns the value of the bytes taken, by `finalize`.
#[tactic(auto, using(std::proofs::lemmas::Bool::Decides::nat_tests), unfolding(twox_core::specs::Finish::state_finish))]
#[inline(always)]
fn finish<V: Vector, F: Finalize>(
    core: &CoreState,
    v: V,
    finalize: &F,
    seed: Option<u64>,
    secret: Secret<'_>,
) -> F::Output
    requires { IsInRange (secret_bytes secret) core.now }
    ensures exact { let s = secret_bytes secret.entry in
        result ≡ state_finish (F.small_of finalize.now) (F.large_of finalize.now) seed s core.now }
    ensures size { length core.now.buffer ≡ BUFFERED_BYTES }
{
    let Some(own) = seed else {
        return finish_far(core, v, finalize, seed, secret);
    };
    if core.counts.total_bytes > CUTOFF.into_u64() {
        return finish_far(core, v, finalize, seed, secret);
    }
    finish_short(core, finalize, own)
}

// Returns the value of up to 240 bytes, with the default secret and a seed.
#[inline(always)]
fn finish_short<F: Finalize>(core: &CoreState, finalize: &F, seed: u64) -> F::Output
    requires { core.now.counts.total_bytes ≤ 240 }
    ensures { let bytes = take core.now.counts.total_bytes core.now.buffer in
        result ≡ F.small_of finalize.now default_secret seed bytes }
{
    let input = &core.buffer[..core.counts.total_bytes as usize];
    finalize.small(default_secret(), seed, input)
}

// Returns the value at every length. A separate function, so that short streams don't save the registers that it uses.
#[inline(never)]
fn finish_far<V: Vector, F: Finalize>(
    core: &CoreState,
    v: V,
    finalize: &F,
    seed: Option<u64>,
    secret: Secret<'_>,
) -> F::Output
    requires { IsInRange (secret_bytes secret) core.now }
    ensures exact { let s = secret_bytes secret.entry in
        result ≡ state_finish (F.small_of finalize.now) (F.large_of finalize.now) seed s core.now }
    ensures size { length core.now.buffer ≡ BUFFERED_BYTES }
{
    core.finish(v, finalize, seed, secret)
}

/// Writes the 64-bit hash of the bytes so far, with the stream's seed, if it has one, and over its secret. More can be
/// hashed afterwards.
///
/// - `SECRET_TOO_SHORT` if the secret has fewer than 136 bytes.
/// - `NOT_A_STREAM` if the state's place or its number of bytes is one that no call leaves.
///
/// If it refuses, nothing is written.
#[inline(always)]
pub fn finish_64<V: Vector>(
    core: &CoreState,
    v: V,
    seed: Option<u64>,
    secret: &[u8],
    value: &mut u64,
) -> u32
    ensures done { result ≡ DONE ↔ ((136 ≤ length secret.now) × IsInRange secret.now core.now) }
    ensures short { result ≡ SECRET_TOO_SHORT ↔ (length secret.now < 136) }
    ensures refused { result ≡ NOT_A_STREAM
        ↔ ((136 ≤ length secret.now) × (¬ IsInRange secret.now core.now)) }
    ensures message { (m : List ℕ) → Follows secret.now core.now m → 136 ≤ length secret.now
        → (result ≡ DONE) × (value.new ≡ stream_64 seed secret.now m) }
    ensures exact { result ≡ DONE → value.new ≡ state_value_64 seed secret.now core.now }
    ensures kept { (¬ (result ≡ DONE)) → value.new ≡ value.old }
{
    let Ok(secret) = Secret::new(secret) else {
        return SECRET_TOO_SHORT;
    };
    if !core.is_in_range(secret) {
        return NOT_A_STREAM;
    }
    *value = finish(core, v, &Finalize64, seed, secret);
    DONE
}

/// Writes the 128-bit hash of the bytes so far. Refuses what the 64-bit call above refuses.
#[inline(always)]
pub fn finish_128<V: Vector>(
    core: &CoreState,
    v: V,
    seed: Option<u64>,
    secret: &[u8],
    value: &mut Wide,
) -> u32
    ensures done { result ≡ DONE ↔ ((136 ≤ length secret.now) × IsInRange secret.now core.now) }
    ensures short { result ≡ SECRET_TOO_SHORT ↔ (length secret.now < 136) }
    ensures refused { result ≡ NOT_A_STREAM
        ↔ ((136 ≤ length secret.now) × (¬ IsInRange secret.now core.now)) }
    ensures message { (m : List ℕ) → Follows secret.now core.now m → 136 ≤ length secret.now
        → (result ≡ DONE) × (number_of value.new ≡ stream_128 seed secret.now m) }
    ensures exact { result ≡ DONE
        → number_of value.new ≡ state_value_128 seed secret.now core.now }
    ensures kept { (¬ (result ≡ DONE)) → value.new ≡ value.old }
{
    let Ok(secret) = Secret::new(secret) else {
        return SECRET_TOO_SHORT;
    };
    if !core.is_in_range(secret) {
        return NOT_A_STREAM;
    }
    *value = halves(finish(core, v, &Finalize128, seed, secret));
    DONE
}
