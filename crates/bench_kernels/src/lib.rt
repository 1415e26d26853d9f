//! Exports for the benchmark in C: XXH3 64-bit by each kernel.
//!
//! A separate crate, so that the code of `bench_exports` has no other callers than there. The input is passed as there.
#![tactic(auto)]

ghost use Rattle.std.specs.Prelude.{◌≡◌, ◌^◌, ◌<◌, ◌≤◌, length, min, take};
ghost use Rattle.twox_hash.specs.Secret.{default_secret};
ghost use Rattle.twox_core.specs.SecretBytes.{secret_bytes};
ghost use Rattle.twox_hash.specs.Value.{xxh3_64};

use twox_hash::XxHash3_64;
use twox_hash::xxhash3::large::{lanes2, lanes4, scalar, split2};
use twox_hash::xxhash3::{
    Algorithm, CUTOFF, RawHasherCore, Secret, SecretBuffer, Vector, default_secret,
};
use twox_hash::xxhash3_64::Finalize64;

/// Size of the buffer of the input; of a longer one the front is hashed.
pub const ROOM: usize = 67_108_864;

/// The buffer of the input.
pub type Input = [u8; ROOM];

// Returns the hash under the seed 0. Up to 240 bytes no kernel is involved.
#[inline(always)]
fn oneshot<V: Vector>(kernel: V, input: &[u8]) -> u64
    ensures { result ≡ xxh3_64 0 default_secret input.now }
{
    if input.len() <= CUTOFF {
        XxHash3_64::oneshot(input)
    } else {
        long(kernel, default_secret(), input)
    }
}

// A separate function, as in the one-shots of the library.
#[inline(never)]
#[tactic(auto, unfolding(twox_core::specs::Value::xxh3_64, twox_core::specs::Value::range_of, twox_core::specs::Value::value64_in), using(twox_core::proofs::EndingFacts::block_low))]
fn long<V: Vector>(kernel: V, secret: Secret<'_>, input: &[u8]) -> u64
    requires { 240 < length input.now }
    ensures { result ≡ xxh3_64 0 (secret_bytes secret.entry) input.now }
{
    Algorithm(kernel).oneshot(secret, input, Finalize64)
}

// Returns the hash under the seed 0 of chunks of this many bytes.
#[inline(always)]
fn stream<V: Vector>(kernel: V, input: &[u8], piece: usize) -> u64 {
    let mut core = RawHasherCore::new(SecretBuffer::default());
    for part in input.chunks(piece.max(1)) {
        core.write_with(kernel, part);
    }
    core.finish_with(kernel, Finalize64)
}

/// Returns the hash under the seed 0 by the plain kernel.
#[unsafe(no_mangle)]
pub extern "C" fn twox_xxh3_64_scalar(input: &Input, len: usize) -> u64
    ensures { result ≡ xxh3_64 0 default_secret (take (min len (2 ^ 26)) input.now) }
{
    oneshot(scalar::Impl {}, &input[..len.min(ROOM)])
}

/// Returns the hash under the seed 0 by the kernel of two words.
#[unsafe(no_mangle)]
pub extern "C" fn twox_xxh3_64_lanes2(input: &Input, len: usize) -> u64
    ensures { result ≡ xxh3_64 0 default_secret (take (min len (2 ^ 26)) input.now) }
{
    oneshot(lanes2::Impl {}, &input[..len.min(ROOM)])
}

/// Returns the hash under the seed 0 by the kernel of four words.
#[unsafe(no_mangle)]
pub extern "C" fn twox_xxh3_64_lanes4(input: &Input, len: usize) -> u64
    ensures { result ≡ xxh3_64 0 default_secret (take (min len (2 ^ 26)) input.now) }
{
    oneshot(lanes4::Impl {}, &input[..len.min(ROOM)])
}

/// Returns the hash under the seed 0 by the kernel of split products.
#[unsafe(no_mangle)]
pub extern "C" fn twox_xxh3_64_split2(input: &Input, len: usize) -> u64
    ensures { result ≡ xxh3_64 0 default_secret (take (min len (2 ^ 26)) input.now) }
{
    oneshot(split2::Impl {}, &input[..len.min(ROOM)])
}

/// Returns the hash under the seed 0, in chunks of this many bytes, by the plain kernel.
#[unsafe(no_mangle)]
pub extern "C" fn twox_xxh3_64_stream_scalar(input: &Input, len: usize, piece: usize) -> u64 {
    stream(scalar::Impl {}, &input[..len.min(ROOM)], piece)
}

/// Returns the hash under the seed 0, in chunks of this many bytes, by the kernel of two words.
#[unsafe(no_mangle)]
pub extern "C" fn twox_xxh3_64_stream_lanes2(input: &Input, len: usize, piece: usize) -> u64 {
    stream(lanes2::Impl {}, &input[..len.min(ROOM)], piece)
}

/// Returns the hash under the seed 0, in chunks of this many bytes, by the kernel of four words.
#[unsafe(no_mangle)]
pub extern "C" fn twox_xxh3_64_stream_lanes4(input: &Input, len: usize, piece: usize) -> u64 {
    stream(lanes4::Impl {}, &input[..len.min(ROOM)], piece)
}

/// Returns the hash under the seed 0, in chunks of this many bytes, by the kernel of split products.
#[unsafe(no_mangle)]
pub extern "C" fn twox_xxh3_64_stream_split2(input: &Input, len: usize, piece: usize) -> u64 {
    stream(split2::Impl {}, &input[..len.min(ROOM)], piece)
}
