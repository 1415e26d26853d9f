//! Every constructor with a seed, under seeds of few bits and of all: each succeeds, and its value is the one-shot's,
//! which other tests compare with outside vectors. So is that of a copy.

use crate::inputs::{between, first, generated};
use crate::streams::{Stream, beside_64, beside_128, seeded_64, seeded_128};
use std::alloc::Global;
use std::boxed::BoxedSlice;
use twox_hash::xxhash3::{AllocRawHasher, FixedBuffer, RawHasherCore, SecretBuffer};
use twox_hash::{XxHash3_64, XxHash3_128, xxhash3_64, xxhash3_128};

type Own = BoxedSlice<u8, Global>;

type Narrow = XxHash3_64<Global>;

type Wide = XxHash3_128<Global>;

type Core = AllocRawHasher<Global>;

const SEEDS: [u64; 5] = [0, 1, 1 << 32, 1 << 63, u64::MAX];

// True if the stream was made and has this value after the input in two chunks, and so has a copy that was made between
// them.
fn has<S: Stream + Drop>(made: Option<S>, input: &[u8], value: u128) -> bool {
    let Some(mut stream) = made else {
        return false;
    };
    let (head, tail) = input.split_at(input.len() / 2);
    stream.take(head);
    let Ok(mut copy) = stream.copy() else {
        return false;
    };
    stream.take(tail);
    copy.take(tail);
    stream.value() == value && copy.value() == value
}

fn over<S: FixedBuffer>(buffer: SecretBuffer<S>) -> xxhash3_64::RawHasher<S> {
    xxhash3_64::RawHasher::new(buffer)
}

fn wide_over<S: FixedBuffer>(buffer: SecretBuffer<S>) -> xxhash3_128::RawHasher<S> {
    xxhash3_128::RawHasher::new(buffer)
}

// Raw streams over a buffer, if there is one.
fn raw<S: FixedBuffer>(made: Option<SecretBuffer<S>>) -> Option<xxhash3_64::RawHasher<S>> {
    Some(over(made?))
}

fn raw_wide<S: FixedBuffer>(made: Option<SecretBuffer<S>>) -> Option<xxhash3_128::RawHasher<S>> {
    Some(wide_over(made?))
}

fn buffer(alloc: Global, seed: u64) -> Option<SecretBuffer<Own>> {
    SecretBuffer::allocate_with_seed(alloc, seed).ok()
}

fn copied_buffer(alloc: Global, seed: u64) -> Option<SecretBuffer<Own>> {
    buffer(alloc, seed)?.clone().ok()
}

fn array(seed: u64) -> Option<SecretBuffer<[u8; 192]>> {
    SecretBuffer::with_seed(seed, [0; 192]).ok()
}

fn array_core(seed: u64) -> Option<RawHasherCore<[u8; 192]>> {
    Some(RawHasherCore::new(array(seed)?))
}

fn seeded_have(alloc: Global, seed: u64, input: &[u8]) -> bool {
    let value = seeded_64(seed, input);
    has(XxHash3_64::with_seed(alloc, seed).ok(), input, value)
        && has(Core::allocate_with_seed(alloc, seed).ok(), input, value)
        && has(raw(buffer(alloc, seed)), input, value)
        && has(raw(array(seed)), input, value)
        && has(array_core(seed), input, value)
        && has(raw(copied_buffer(alloc, seed)), input, value)
}

fn seeded_have_128(alloc: Global, seed: u64, input: &[u8]) -> bool {
    let value = seeded_128(seed, input);
    has(XxHash3_128::with_seed(alloc, seed).ok(), input, value)
        && has(raw_wide(buffer(alloc, seed)), input, value)
        && has(raw_wide(array(seed)), input, value)
}

fn all_seeded_have(alloc: Global, seed: u64, input: &[u8]) -> bool {
    seeded_have(alloc, seed, input) && seeded_have_128(alloc, seed, input)
}

#[test]
fn under_each_seed(rt: HostRuntime) {
    let bytes = generated();
    for seed in SEEDS {
        for count in [400, 20] {
            assert!(rt;
                all_seeded_have(rt.alloc(), seed, first(&bytes, count)),
                "{seed}, {count} bytes"
            );
        }
    }
}

fn own(alloc: Global, secret: &[u8]) -> Option<Own> {
    BoxedSlice::from_slice(alloc, secret).ok()
}

fn narrow(alloc: Global, seed: u64, secret: &[u8]) -> Option<Narrow> {
    XxHash3_64::with_seed_and_secret(seed, own(alloc, secret)?).ok()
}

fn wide(alloc: Global, seed: u64, secret: &[u8]) -> Option<Wide> {
    XxHash3_128::with_seed_and_secret(seed, own(alloc, secret)?).ok()
}

fn core(alloc: Global, seed: u64, secret: &[u8]) -> Option<Core> {
    Core::allocate_with_seed_and_secret(seed, own(alloc, secret)?).ok()
}

fn held(alloc: Global, seed: u64, secret: &[u8]) -> Option<SecretBuffer<Own>> {
    SecretBuffer::new(seed, own(alloc, secret)?).ok()
}

fn allocated(alloc: Global, seed: u64, secret: &[u8]) -> Option<SecretBuffer<Own>> {
    SecretBuffer::allocate_with_seed_and_secret(seed, own(alloc, secret)?).ok()
}

fn beside_have(alloc: Global, seed: u64, secret: &[u8], input: &[u8]) -> bool {
    let Some(value) = beside_64(seed, secret, input) else {
        return false;
    };
    has(narrow(alloc, seed, secret), input, value)
        && has(core(alloc, seed, secret), input, value)
        && has(raw(held(alloc, seed, secret)), input, value)
        && has(raw(allocated(alloc, seed, secret)), input, value)
}

fn beside_have_128(alloc: Global, seed: u64, secret: &[u8], input: &[u8]) -> bool {
    let Some(value) = beside_128(seed, secret, input) else {
        return false;
    };
    has(wide(alloc, seed, secret), input, value)
        && has(raw_wide(held(alloc, seed, secret)), input, value)
}

fn all_beside_have(alloc: Global, seed: u64, secret: &[u8], input: &[u8]) -> bool {
    beside_have(alloc, seed, secret, input) && beside_have_128(alloc, seed, secret, input)
}

// Above 240 bytes the secret is used, and up to there the seed.
#[test]
fn under_each_seed_beside_a_secret(rt: HostRuntime) {
    let bytes = generated();
    let secret = between(&bytes, 1000, 1150);
    for seed in SEEDS {
        for count in [400, 20] {
            assert!(rt;
                all_beside_have(rt.alloc(), seed, secret, first(&bytes, count)),
                "{seed}, {count} bytes"
            );
        }
    }
}
