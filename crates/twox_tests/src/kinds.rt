//! A stream of each kind, with its value after an input in chunks.

use std::alloc::Global;
use std::boxed::BoxedSlice;
use theorems::StreamingHasher;
use twox_hash::xxhash3::{FixedBuffer, SecretBuffer};
use twox_hash::{XxHash3_64, XxHash3_128, xxhash3_64, xxhash3_128};

pub(crate) type Own = BoxedSlice<u8, Global>;

// A chunk, and then chunks of one size, or of one byte if that is 0.
#[derive(Clone, Copy)]
pub(crate) struct Pieces<'a> {
    pub(crate) head: &'a [u8],
    pub(crate) tail: &'a [u8],
    pub(crate) size: usize,
}

pub(crate) fn in_pieces(input: &[u8], size: usize) -> Pieces<'_> {
    Pieces {
        head: &[],
        tail: input,
        size,
    }
}

// The 64-bit and the 128-bit value of an input.
#[derive(Clone, Copy)]
pub(crate) struct Values {
    pub(crate) narrow: u64,
    pub(crate) wide: u128,
}

// True if the stream was made, and has this value after the input.
pub(crate) fn has<S: StreamingHasher + Drop>(
    made: Option<S>,
    input: Pieces<'_>,
    value: S::Value,
) -> bool {
    let Some(mut stream) = made else {
        return false;
    };
    stream.update(input.head);
    for piece in input.tail.chunks(input.size.max(1)) {
        stream.update(piece);
    }
    stream.digest() == value
}

// Raw streams over a buffer, if there is one.
pub(crate) fn raw<S: FixedBuffer>(
    made: Option<SecretBuffer<S>>,
) -> Option<xxhash3_64::RawHasher<S>> {
    Some(xxhash3_64::RawHasher::new(made?))
}

pub(crate) fn raw_wide<S: FixedBuffer>(
    made: Option<SecretBuffer<S>>,
) -> Option<xxhash3_128::RawHasher<S>> {
    Some(xxhash3_128::RawHasher::new(made?))
}

fn default(alloc: Global) -> Option<SecretBuffer<Own>> {
    SecretBuffer::allocate_default(alloc).ok()
}

fn seeded(alloc: Global, seed: u64) -> Option<SecretBuffer<Own>> {
    SecretBuffer::allocate_with_seed(alloc, seed).ok()
}

// True if each kind of stream has the value of its width: of no seed, of a seed, of only a secret, and of both.
pub(crate) fn default_have(alloc: Global, input: Pieces<'_>, values: Values) -> bool {
    has(XxHash3_64::new(alloc).ok(), input, values.narrow)
        && has(XxHash3_128::default(alloc).ok(), input, values.wide)
        && has(raw(default(alloc)), input, values.narrow)
        && has(raw_wide(default(alloc)), input, values.wide)
}

pub(crate) fn seeded_have(alloc: Global, seed: u64, input: Pieces<'_>, values: Values) -> bool {
    has(
        XxHash3_64::with_seed(alloc, seed).ok(),
        input,
        values.narrow,
    ) && has(XxHash3_128::with_seed(alloc, seed).ok(), input, values.wide)
        && has(raw(seeded(alloc, seed)), input, values.narrow)
        && has(raw_wide(seeded(alloc, seed)), input, values.wide)
}

fn own(alloc: Global, secret: &[u8]) -> Option<Own> {
    BoxedSlice::from_slice(alloc, secret).ok()
}

pub(crate) fn keyed(alloc: Global, secret: &[u8]) -> Option<SecretBuffer<Own>> {
    SecretBuffer::with_secret(own(alloc, secret)?).ok()
}

pub(crate) fn keyed_boxed(alloc: Global, secret: &[u8]) -> Option<XxHash3_64<Global>> {
    XxHash3_64::with_secret(own(alloc, secret)?).ok()
}

pub(crate) fn keyed_boxed_wide(alloc: Global, secret: &[u8]) -> Option<XxHash3_128<Global>> {
    XxHash3_128::with_secret(own(alloc, secret)?).ok()
}

pub(crate) fn keyed_have_64(alloc: Global, secret: &[u8], input: Pieces<'_>, value: u64) -> bool {
    has(keyed_boxed(alloc, secret), input, value) && has(raw(keyed(alloc, secret)), input, value)
}

pub(crate) fn keyed_have_128(alloc: Global, secret: &[u8], input: Pieces<'_>, value: u128) -> bool {
    has(keyed_boxed_wide(alloc, secret), input, value)
        && has(raw_wide(keyed(alloc, secret)), input, value)
}

fn beside(alloc: Global, seed: u64, secret: &[u8]) -> Option<SecretBuffer<Own>> {
    SecretBuffer::new(seed, own(alloc, secret)?).ok()
}

fn boxed_beside(alloc: Global, seed: u64, secret: &[u8]) -> Option<XxHash3_64<Global>> {
    XxHash3_64::with_seed_and_secret(seed, own(alloc, secret)?).ok()
}

pub(crate) fn boxed_wide_beside(
    alloc: Global,
    seed: u64,
    secret: &[u8],
) -> Option<XxHash3_128<Global>> {
    XxHash3_128::with_seed_and_secret(seed, own(alloc, secret)?).ok()
}

pub(crate) fn beside_have_64(
    alloc: Global,
    seed: u64,
    secret: &[u8],
    input: Pieces<'_>,
    value: u64,
) -> bool {
    has(boxed_beside(alloc, seed, secret), input, value)
        && has(raw(beside(alloc, seed, secret)), input, value)
}

pub(crate) fn beside_have_128(
    alloc: Global,
    seed: u64,
    secret: &[u8],
    input: Pieces<'_>,
    value: u128,
) -> bool {
    has(boxed_wide_beside(alloc, seed, secret), input, value)
        && has(raw_wide(beside(alloc, seed, secret)), input, value)
}

// The values of one-shots under a seed and a secret of valid length.
pub(crate) fn values_beside(seed: u64, secret: &[u8], input: &[u8]) -> Option<Values> {
    Some(Values {
        narrow: XxHash3_64::oneshot_with_seed_and_secret(seed, secret, input).ok()?,
        wide: XxHash3_128::oneshot_with_seed_and_secret(seed, secret, input).ok()?,
    })
}

// True if streams that hash this input in such chunks have the values of the whole.
pub(crate) fn beside_are_the_oneshot(
    alloc: Global,
    seed: u64,
    secret: &[u8],
    input: Pieces<'_>,
    whole: &[u8],
) -> bool {
    let Some(values) = values_beside(seed, secret, whole) else {
        return false;
    };
    beside_have_64(alloc, seed, secret, input, values.narrow)
        && beside_have_128(alloc, seed, secret, input, values.wide)
}
