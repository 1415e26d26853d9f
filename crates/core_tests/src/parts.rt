//! The parts of XXH3: derived secrets, stripes, the shortest inputs. Each expected value is one that the tests of the
//! Rust crate `twox-hash` expect, or follows from the xxHash specification by hand.

use std::test::Fail;
use twox_core::xxhash3::{
    DEFAULT_SECRET_RAW, Secret, derive_secret, impl_1_to_3_bytes_combined, stripes_with_tail,
};

// The beginnings of the secrets of the seeds 1 and 2^64-1.
const OF_ONE: [u8; 16] = [
    0xb9, 0xfe, 0x6c, 0x39, 0x23, 0xa4, 0x4b, 0xbe, 0x7b, 0x01, 0x81, 0x2c, 0xf7, 0x21, 0xad, 0x1c,
];

const OF_THE_GREATEST: [u8; 16] = [
    0xb7, 0xfe, 0x6c, 0x39, 0x23, 0xa4, 0x4b, 0xbe, 0x7d, 0x01, 0x81, 0x2c, 0xf7, 0x21, 0xad, 0x1c,
];

fn begins_with(secret: &[u8; 192], begin: &[u8; 16]) -> bool {
    &secret[..16] == begin.as_slice()
}

fn derive(seed: u64, secret: &mut [u8; 192]) {
    derive_secret(seed, secret);
}

#[test]
fn derived_secrets(rt: HostRuntime) {
    let mut secret = DEFAULT_SECRET_RAW;
    derive(1, &mut secret);
    assert!(rt; begins_with(&secret, &OF_ONE));
    derive(u64::MAX, &mut secret);
    assert!(rt; secret == DEFAULT_SECRET_RAW);
    derive(u64::MAX, &mut secret);
    assert!(rt; begins_with(&secret, &OF_THE_GREATEST));
}

// Number of places of a secret of this many zeros.
fn places(length: usize) -> Result<usize, Fail> {
    Ok(Secret::new(&[0; 300][..length.min(300)])?.n_stripes())
}

// Number of whole stripes before the last one, and of the bytes after them.
fn stripes_and_tail(length: usize) -> (usize, usize) {
    let (whole, rest) = stripes_with_tail(&[0; 200][..length.min(200)]);
    (whole.len(), rest.len())
}

#[test]
fn places_of_secrets(rt: HostRuntime) -> Result<(), Fail> {
    assert!(rt; places(136)? == 9);
    assert!(rt; places(137)? == 9);
    assert!(rt; places(143)? == 9);
    assert!(rt; places(144)? == 10);
    assert!(rt; places(192)? == 16);
    assert!(rt; places(300)? == 29);
    Ok(())
}

#[test]
fn stripes_of_blocks(rt: HostRuntime) {
    assert!(rt; stripes_and_tail(0) == (0, 0));
    assert!(rt; stripes_and_tail(64) == (0, 64));
    assert!(rt; stripes_and_tail(128) == (1, 64));
    assert!(rt; stripes_and_tail(129) == (2, 1));
}

#[test]
fn one_to_three_bytes_combined(rt: HostRuntime) {
    assert!(rt; impl_1_to_3_bytes_combined(&[0]) == 0x0000_0100);
    assert!(rt; impl_1_to_3_bytes_combined(&[0, 1, 2]) == 0x0100_0302);
}
