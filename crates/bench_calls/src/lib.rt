//! Exports for the benchmark in C: streams that hash the input in chunks, with a call for each chunk.
//!
//! A separate crate, since a function with one caller is inlined, as those in the streams of `bench_exports` are. The
//! input is passed as there.
#![tactic(auto)]

use twox_core::width_128::{Wide, halves};
use twox_hash::xxhash3::{DefaultSecret, SecretBuffer};
use twox_hash::{XxHash32, XxHash64, xxhash3_64, xxhash3_128};

/// Size of the buffer of the input; of a longer one the front is hashed.
pub const ROOM: usize = 67_108_864;

/// The buffer of the input.
pub type Input = [u8; ROOM];

#[inline(never)]
fn write_32(hasher: &mut XxHash32, piece: &[u8]) {
    hasher.write(piece);
}

#[inline(never)]
fn write_64(hasher: &mut XxHash64, piece: &[u8]) {
    hasher.write(piece);
}

#[inline(never)]
fn write_3_64(hasher: &mut xxhash3_64::RawHasher<DefaultSecret>, piece: &[u8]) {
    hasher.write(piece);
}

#[inline(never)]
fn write_3_128(hasher: &mut xxhash3_128::RawHasher<DefaultSecret>, piece: &[u8]) {
    hasher.write(piece);
}

/// Returns the hash under the seed 0 of the input in chunks of this many bytes.
#[unsafe(no_mangle)]
pub extern "C" fn twox_xxh32_stream_called(input: &Input, len: usize, piece: usize) -> u32 {
    let mut hasher = XxHash32::with_seed(0);
    for part in input[..len.min(ROOM)].chunks(piece.max(1)) {
        write_32(&mut hasher, part);
    }
    hasher.finish_32()
}

/// Returns the hash under the seed 0 of the input in chunks of this many bytes.
#[unsafe(no_mangle)]
pub extern "C" fn twox_xxh64_stream_called(input: &Input, len: usize, piece: usize) -> u64 {
    let mut hasher = XxHash64::with_seed(0);
    for part in input[..len.min(ROOM)].chunks(piece.max(1)) {
        write_64(&mut hasher, part);
    }
    hasher.finish()
}

/// Returns the hash under the seed 0 of the input in chunks of this many bytes.
#[unsafe(no_mangle)]
pub extern "C" fn twox_xxh3_64_stream_called(input: &Input, len: usize, piece: usize) -> u64 {
    let mut hasher = xxhash3_64::RawHasher::new(SecretBuffer::default());
    for part in input[..len.min(ROOM)].chunks(piece.max(1)) {
        write_3_64(&mut hasher, part);
    }
    hasher.finish()
}

/// Returns the hash under the seed 0 of the input in chunks of this many bytes.
#[unsafe(no_mangle)]
pub extern "C" fn twox_xxh3_128_stream_called(input: &Input, len: usize, piece: usize) -> Wide {
    let mut hasher = xxhash3_128::RawHasher::new(SecretBuffer::default());
    for part in input[..len.min(ROOM)].chunks(piece.max(1)) {
        write_3_128(&mut hasher, part);
    }
    halves(hasher.finish_128())
}
