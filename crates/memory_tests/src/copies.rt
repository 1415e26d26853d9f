//! Copies of XXH3 streams of each kind, which are independent. Each expected value is one that the tests of the Rust
//! crate `twox-hash` expect, or that of the one-shot, which other tests compare with those.

use crate::inputs::{between, first, generated};
use crate::streams::{Stream, after, copy_after, seeded_64, seeded_128};
use std::alloc::{AllocError, Global};
use std::test::Fail;
use twox_hash::xxhash3::{DEFAULT_SECRET_RAW, RawHasherCore, SecretBuffer};
use twox_hash::{XxHash3_64, XxHash3_128, xxhash3_64, xxhash3_128};

type Raw = xxhash3_64::RawHasher<[u8; 192]>;

type RawWide = xxhash3_128::RawHasher<[u8; 192]>;

type Core = RawHasherCore<[u8; 192]>;

pub(crate) fn raw() -> Raw {
    xxhash3_64::RawHasher::new(SecretBuffer::default())
}

pub(crate) fn raw_wide() -> RawWide {
    xxhash3_128::RawHasher::new(SecretBuffer::default())
}

pub(crate) fn core() -> Core {
    RawHasherCore::new(SecretBuffer::default())
}

pub(crate) fn boxed(alloc: Global) -> Result<XxHash3_64<Global>, AllocError> {
    XxHash3_64::new(alloc)
}

pub(crate) fn boxed_wide(alloc: Global) -> Result<XxHash3_128<Global>, AllocError> {
    XxHash3_128::default(alloc)
}

const VALUE_OF_1024: u128 = 0xe5d7_8baf_a45b_2aa5;

const WIDE_VALUE_OF_1024: u128 = 0xd0ac_1f7b_93bf_57b9_e5d7_8baf_a45b_2aa5;

// True if a copy after 600 bytes that continues to 1,024 has this value, and the stream is unchanged.
fn goes_on<S: Stream + Drop>(made: Result<S, AllocError>, value_of_600: u128, value: u128) -> bool {
    let Ok(mut stream) = made else {
        return false;
    };
    let bytes = generated();
    stream.take(first(&bytes, 600));
    let copied = copy_after(&stream, between(&bytes, 600, 1024));
    copied == Ok(value) && stream.value() == value_of_600
}

#[test]
fn copies_of_each_kind(rt: HostRuntime) {
    let half = seeded_64(0, first(&generated(), 600));
    assert!(rt; goes_on(Ok(raw()), half, VALUE_OF_1024));
    assert!(rt; goes_on(Ok(core()), half, VALUE_OF_1024));
    assert!(rt; goes_on(boxed(rt.alloc()), half, VALUE_OF_1024));
}

#[test]
fn copies_of_each_kind_of_128_bits(rt: HostRuntime) {
    let half = seeded_128(0, first(&generated(), 600));
    assert!(rt; goes_on(Ok(raw_wide()), half, WIDE_VALUE_OF_1024));
    assert!(rt; goes_on(boxed_wide(rt.alloc()), half, WIDE_VALUE_OF_1024));
}

// True if a copy has the stream's value, and another value with one more byte, which the stream doesn't take.
fn copy_has<S: Stream + Drop>(stream: S, input: &[u8], value: u128) -> Result<bool, AllocError> {
    let stream = after(stream, input);
    Ok(
        copy_after(&stream, &[])? == value
            && copy_after(&stream, &[1])? != value
            && stream.value() == value,
    )
}

#[test]
fn copies_without_more_bytes(rt: HostRuntime) -> Result<(), Fail> {
    let bytes = generated();
    let (narrow, wide) = (first(&bytes, 241), first(&bytes, 244));
    assert!(rt; copy_has(boxed(rt.alloc())?, narrow, 0x02e8_cd95_421c_6d02)?);
    assert!(rt; copy_has(raw_wide(), wide, 0x3ff4_93d7_a813_7ab6_bc17_c91e_c3cf_8d7f)?);
    Ok(())
}

#[test]
fn copies_of_secret_buffers(rt: HostRuntime) -> Result<(), Fail> {
    let copy = SecretBuffer::default().clone()?;
    assert!(rt; copy.into_secret() == DEFAULT_SECRET_RAW);
    Ok(())
}
