//! Streams of XXH3. One stream has values of both widths.
//!
//! A stream's secret is stored separately in the page's memory, and is passed to each call again. So a secret may have
//! any length, and the clauses are about the stream and that secret together.

ghost use Rattle.std.specs.Prelude.{◌≡◌, ◌↔◌, ◌<◌, ◌≤◌, ◌+◌, ◌-◌, ◌*◌, ◌^◌, min, ℕ, Option, Some, None, List, [], ◌++◌, length, IsTrue};
ghost use Rattle.twox_hash.specs.Secret.{derived_secret};
ghost use Rattle.twox_hash.specs.Value.{stream_64, stream_128};
ghost use Rattle.twox_core.specs.Stripes.{no_stripe};
ghost use Rattle.twox_core.specs.AfterWrite.{state_after_write};
ghost use Rattle.twox_exports.specs.Number.{number_of};
ghost use Rattle.twox_web.specs.Stream.{seed_of, Represents, IsCounted, Fits};

use crate::PageKernel;
use twox_exports::stream_3::{finish_64, finish_128, start as begin, write};
use twox_exports::{DONE, NOT_A_STREAM, SECRET_TOO_SHORT, Wide};
use twox_hash::words::IntoU64;
use twox_hash::xxhash3::{CoreState, DefaultSecret, INITIAL_ACCUMULATORS, Secret, derived_secret};

/// A stream of both widths, over a secret that is stored elsewhere.
#[derive(Clone, Copy)]
#[repr(C)]
pub struct Stream {
    /// Number of seeds it was started with: none or one.
    pub seeds: u64,
    /// The seed, if there is one.
    pub seed: u64,
    /// The bytes taken.
    pub core: CoreState,
}

impl Stream {
    // Returns a stream of no bytes.
    fn starting_with(seed: Option<u64>) -> Stream
        ensures { (s : List ℕ) → Represents result s seed [] }
    {
        let core = begin();
        match seed {
            Some(seed) => Stream {
                seeds: 1,
                seed,
                core,
            },
            None => Stream {
                seeds: 0,
                seed: 0,
                core,
            },
        }
    }

    // Returns the seed, if there is one.
    fn seed(&self) -> Option<u64>
        ensures { result ≡ seed_of self.now }
    {
        if self.seeds == 0 {
            None
        } else {
            Some(self.seed)
        }
    }
}

// True if the length agrees with the stripes taken and the bytes buffered and, with no stripe taken, the accumulators
// are the initial ones.
fn is_counted(core: &CoreState) -> bool
    ensures { IsTrue result ↔ IsCounted core.now }
{
    core.counts.total_bytes == counted_bytes(core)
        && (core.counts.taken.count > 0 || has_no_stripe(core))
}

// Number of bytes of the stripes taken and in the buffer.
fn counted_bytes(core: &CoreState) -> u64
    ensures { result ≡ min (64 * core.now.counts.taken.count + core.now.counts.buffer_usage) (2 ^ 64 - 1) }
{
    core.counts
        .taken
        .count
        .saturating_mul(64)
        .saturating_add(core.counts.buffer_usage.into_u64())
}

// True if the accumulators are those before the first stripe.
fn has_no_stripe(core: &CoreState) -> bool
    ensures { IsTrue result ↔ (core.now.counts.taken.stripes ≡ no_stripe) }
{
    core.counts.taken.stripes.current_stripe() == 0
        && core.counts.taken.stripes.accumulators() == INITIAL_ACCUMULATORS
}

// Returns the reason to refuse a record whose numbers don't agree. The secret is tested first.
fn refusal(secret: &[u8]) -> u32
    ensures short { result ≡ SECRET_TOO_SHORT ↔ (length secret.now < 136) }
    ensures long { result ≡ NOT_A_STREAM ↔ (136 ≤ length secret.now) }
    ensures refused { ¬ (result ≡ DONE) }
{
    match Secret::new(secret) {
        Ok(_) => NOT_A_STREAM,
        Err(_) => SECRET_TOO_SHORT,
    }
}

/// Returns the size of a stream's record in bytes.
#[unsafe(no_mangle)]
pub extern "C" fn twox_xxh3_stream_size() -> usize
    ensures { result ≡ 624 }
{
    size_of::<Stream>()
}

/// Makes the record a stream of no bytes with a seed, whatever it was, and writes the secret derived from the seed,
/// which must be passed to each later call.
#[unsafe(no_mangle)]
pub extern "C" fn twox_xxh3_start_with_seed(
    stream: &mut Stream,
    secret: &mut DefaultSecret,
    seed: u64,
)
    ensures secret { secret.new ≡ derived_secret seed }
    ensures empty { Represents stream.new secret.new (Some seed) [] }
{
    *secret = derived_secret(seed);
    *stream = Stream::starting_with(Some(seed));
}

/// Makes the record a stream of no bytes with only a secret, whatever it was. The same secret must be passed to each
/// later call.
///
/// `SECRET_TOO_SHORT` if the secret has fewer than 136 bytes. The record is then unchanged.
#[unsafe(no_mangle)]
pub extern "C" fn twox_xxh3_start_with_secret(stream: &mut Stream, secret: &[u8]) -> u32
    ensures done { result ≡ DONE ↔ (136 ≤ length secret.now) }
    ensures refused { result ≡ SECRET_TOO_SHORT ↔ (length secret.now < 136) }
    ensures empty { result ≡ DONE → Represents stream.new secret.now None [] }
    ensures kept { result ≡ SECRET_TOO_SHORT → stream.new ≡ stream.old }
{
    start(stream, secret, None)
}

/// Makes the record a stream of no bytes with a seed and a secret, whatever it was. The same secret must be passed to
/// each later call.
///
/// `SECRET_TOO_SHORT` if the secret has fewer than 136 bytes. The record is then unchanged.
#[unsafe(no_mangle)]
pub extern "C" fn twox_xxh3_start_with_seed_and_secret(
    stream: &mut Stream,
    seed: u64,
    secret: &[u8],
) -> u32
    ensures done { result ≡ DONE ↔ (136 ≤ length secret.now) }
    ensures refused { result ≡ SECRET_TOO_SHORT ↔ (length secret.now < 136) }
    ensures empty { result ≡ DONE → Represents stream.new secret.now (Some seed) [] }
    ensures kept { result ≡ SECRET_TOO_SHORT → stream.new ≡ stream.old }
{
    start(stream, secret, Some(seed))
}

// Starts a stream, if the secret has its minimum length.
fn start(stream: &mut Stream, secret: &[u8], seed: Option<u64>) -> u32
    ensures done { result ≡ DONE ↔ (136 ≤ length secret.now) }
    ensures refused { result ≡ SECRET_TOO_SHORT ↔ (length secret.now < 136) }
    ensures empty { result ≡ DONE → Represents stream.new secret.now seed [] }
    ensures kept { result ≡ SECRET_TOO_SHORT → stream.new ≡ stream.old }
{
    if Secret::new(secret).is_err() {
        return SECRET_TOO_SHORT;
    }
    *stream = Stream::starting_with(seed);
    DONE
}

/// Hashes a chunk after the bytes before, over the stream's secret.
///
/// - `SECRET_TOO_SHORT` if the secret has fewer than 136 bytes.
/// - `NOT_A_STREAM` if the record's parts don't agree with each other and with the secret.
///
/// If it refuses, the record is unchanged.
#[tactic(auto, using(crate::proofs::StreamFacts::follows_counted))]
#[unsafe(no_mangle)]
pub extern "C" fn twox_xxh3_update(stream: &mut Stream, secret: &[u8], input: &[u8]) -> u32
    ensures done { result ≡ DONE ↔ ((136 ≤ length secret.now) × Fits secret.now stream.old.core) }
    ensures short { result ≡ SECRET_TOO_SHORT ↔ (length secret.now < 136) }
    ensures refused { result ≡ NOT_A_STREAM
        ↔ ((136 ≤ length secret.now) × (¬ Fits secret.now stream.old.core)) }
    ensures message { (seed : Option ℕ) (m : List ℕ) → Represents stream.old secret.now seed m
        → 136 ≤ length secret.now
        → (result ≡ DONE) × Represents stream.new secret.now seed (m ++ input.now) }
    ensures exact { result ≡ DONE → stream.new
        ≡ record stream.old { core = state_after_write secret.now stream.old.core input.now } }
    ensures kept { (¬ (result ≡ DONE)) → stream.new ≡ stream.old }
{
    if !is_counted(&stream.core) {
        return refusal(secret);
    }
    write(&mut stream.core, PageKernel {}, secret, input)
}

/// Writes the 64-bit hash of the bytes so far, over the stream's secret. More can be hashed afterwards.
///
/// - `SECRET_TOO_SHORT` if the secret has fewer than 136 bytes.
/// - `NOT_A_STREAM` if the record's parts don't agree with each other and with the secret.
///
/// If it refuses, nothing is written.
#[tactic(auto, using(crate::proofs::StreamFacts::follows_counted))]
#[unsafe(no_mangle)]
pub extern "C" fn twox_xxh3_64_digest(stream: &Stream, secret: &[u8], value: &mut u64) -> u32
    ensures done { result ≡ DONE ↔ ((136 ≤ length secret.now) × Fits secret.now stream.now.core) }
    ensures short { result ≡ SECRET_TOO_SHORT ↔ (length secret.now < 136) }
    ensures refused { result ≡ NOT_A_STREAM
        ↔ ((136 ≤ length secret.now) × (¬ Fits secret.now stream.now.core)) }
    ensures message { (seed : Option ℕ) (m : List ℕ) → Represents stream.now secret.now seed m
        → 136 ≤ length secret.now
        → (result ≡ DONE) × (value.new ≡ stream_64 seed secret.now m) }
    ensures kept { (¬ (result ≡ DONE)) → value.new ≡ value.old }
{
    if !is_counted(&stream.core) {
        return refusal(secret);
    }
    finish_64(&stream.core, PageKernel {}, stream.seed(), secret, value)
}

/// Writes the 128-bit hash of the bytes so far, over the stream's secret. More can be hashed afterwards.
///
/// - `SECRET_TOO_SHORT` if the secret has fewer than 136 bytes.
/// - `NOT_A_STREAM` if the record's parts don't agree with each other and with the secret.
///
/// If it refuses, nothing is written.
#[tactic(auto, using(crate::proofs::StreamFacts::follows_counted))]
#[unsafe(no_mangle)]
pub extern "C" fn twox_xxh3_128_digest(stream: &Stream, secret: &[u8], value: &mut Wide) -> u32
    ensures done { result ≡ DONE ↔ ((136 ≤ length secret.now) × Fits secret.now stream.now.core) }
    ensures short { result ≡ SECRET_TOO_SHORT ↔ (length secret.now < 136) }
    ensures refused { result ≡ NOT_A_STREAM
        ↔ ((136 ≤ length secret.now) × (¬ Fits secret.now stream.now.core)) }
    ensures message { (seed : Option ℕ) (m : List ℕ) → Represents stream.now secret.now seed m
        → 136 ≤ length secret.now
        → (result ≡ DONE) × (number_of value.new ≡ stream_128 seed secret.now m) }
    ensures kept { (¬ (result ≡ DONE)) → value.new ≡ value.old }
{
    if !is_counted(&stream.core) {
        return refusal(secret);
    }
    finish_128(&stream.core, PageKernel {}, stream.seed(), secret, value)
}
