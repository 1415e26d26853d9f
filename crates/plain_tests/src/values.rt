//! Values of XXH32 and XXH64. Each expected value is one that the tests of the Rust crate `twox-hash` expect, one that
//! the C library prints, or follows from the xxHash specification by hand.

use twox_plain::by_stripes;
use twox_plain::xxhash32::Hasher as XxHash32;
use twox_plain::xxhash64::Hasher as XxHash64;

pub(crate) const HELLO: &[u8] = b"Hello, world!\0";

const OTHER_SEED_32: u32 = 0x42c9_1977;

const OTHER_SEED_64: u64 = 0xae05_4331_1b70_2d91;

// seeds for which adding the last prime, and then the length 1, overflows the width
const FULL_SEED_32: u32 = 0xe9a9_984e;

const FULL_SEED_64: u64 = 0xd82b_14d0_e9a9_983a;

// The bytes 0, 1, 2 and so on.
pub(crate) fn bytes_from_0<const N: usize>() -> [u8; N] {
    let mut bytes = [0; N];
    for i in 0..N {
        bytes[i] = (i % 256) as u8;
    }
    bytes
}

fn says_32(hasher: &XxHash32, seed: u32, len: u64, value: u32) -> bool {
    hasher.finish_32() == value
        && hasher.finish() == u64::from(value)
        && hasher.seed() == seed
        && hasher.total_len() == len
        && u64::from(hasher.total_len_32()) == len
}

fn says_64(hasher: &XxHash64, seed: u64, len: u64, value: u64) -> bool {
    hasher.finish() == value && hasher.seed() == seed && hasher.total_len() == len
}

// At once, and byte by byte after an empty chunk.
fn has_value_32(seed: u32, input: &[u8], value: u32) -> bool {
    let mut hasher = XxHash32::with_seed(seed);
    hasher.write(&[]);
    for piece in input.chunks(1) {
        hasher.write(piece);
    }
    XxHash32::oneshot(seed, input) == value && says_32(&hasher, seed, input.len() as u64, value)
}

fn has_value_64(seed: u64, input: &[u8], value: u64) -> bool {
    let mut hasher = XxHash64::with_seed(seed);
    hasher.write(&[]);
    for piece in input.chunks(1) {
        hasher.write(piece);
    }
    XxHash64::oneshot(seed, input) == value && says_64(&hasher, seed, input.len() as u64, value)
}

#[test]
fn values_of_32_bits(rt: HostRuntime) {
    let hundred: [u8; 100] = bytes_from_0();
    assert!(rt; has_value_32(0, &[], 0x02cc_5d05));
    assert!(rt; has_value_32(0, &[42], 0xe0fe_705f));
    assert!(rt; has_value_32(0, HELLO, 0x9e5e_7e93));
    assert!(rt; has_value_32(0, &hundred, 0x7f89_ba44));
    assert!(rt; has_value_32(FULL_SEED_32, b"x", 0x9010_bbab));
    assert!(rt; has_value_32(OTHER_SEED_32, &[], 0xd6bf_8459));
    assert!(rt; has_value_32(OTHER_SEED_32, &hundred, 0x6d2f_6c17));
}

#[test]
fn values_of_64_bits(rt: HostRuntime) {
    let hundred: [u8; 100] = bytes_from_0();
    assert!(rt; has_value_64(0, &[], 0xef46_db37_51d8_e999));
    assert!(rt; has_value_64(0, &[42], 0x0a9e_dece_beb0_3ae4));
    assert!(rt; has_value_64(0, HELLO, 0x7b06_c531_ea43_e89f));
    assert!(rt; has_value_64(0, &hundred, 0x6ac1_e580_3216_6597));
    assert!(rt; has_value_64(1234, b"some bytes", 0xeab5_5659_a496_d78b));
    assert!(rt; has_value_64(FULL_SEED_64, b"x", 0xf953_d52c_12a9_f5fb));
    assert!(rt; has_value_64(OTHER_SEED_64, &[], 0x4b6a_04fc_df7a_4672));
    assert!(rt; has_value_64(OTHER_SEED_64, &hundred, 0x567e_355e_0682_e1f1));
}

#[test]
fn values_of_32_bits_by_stripes(rt: HostRuntime) {
    let hundred: [u8; 100] = bytes_from_0();
    assert!(rt; by_stripes::oneshot(0, &hundred) == 0x7f89_ba44);
    let mut hasher = XxHash32::with_seed(OTHER_SEED_32);
    by_stripes::write(&mut hasher, &hundred);
    assert!(rt; hasher.finish_32() == 0x6d2f_6c17);
}

#[test]
fn pieces(rt: HostRuntime) {
    let mut hasher = XxHash64::with_seed(1234);
    hasher.write(b"some");
    hasher.write(b"");
    hasher.write(b" ");
    hasher.write(b"bytes");
    assert!(rt; hasher.finish() == 0xeab5_5659_a496_d78b);
    assert!(rt; XxHash32::default().finish_32() == 0x02cc_5d05);
    assert!(rt; XxHash64::default().finish() == 0xef46_db37_51d8_e999);
}
