//! A changed word is detected: no value here is the original's.

use crate::values::bytes_from_0;
use twox_plain::xxhash32::Hasher as XxHash32;
use twox_plain::xxhash64::Hasher as XxHash64;

// Returns the value of the bytes 0 to 99, with some bits of one byte changed.
fn turned_32(byte: usize, bits: u8) -> u32 {
    let mut bytes: [u8; 100] = bytes_from_0();
    bytes[byte % 100] ^= bits;
    XxHash32::oneshot(0, &bytes)
}

fn turned_64(byte: usize, bits: u8) -> u64 {
    let mut bytes: [u8; 100] = bytes_from_0();
    bytes[byte % 100] ^= bits;
    XxHash64::oneshot(0, &bytes)
}

#[test]
fn a_bit_of_each_word_at_32_bits(rt: HostRuntime) {
    for word in 0..25usize {
        let byte = word.wrapping_mul(4);
        assert!(rt; turned_32(byte, 1) != 0x7f89_ba44);
        assert!(rt; turned_32(byte.wrapping_add(3), 0x80) != 0x7f89_ba44);
    }
}

#[test]
fn each_bit_of_the_last_word_at_64_bits(rt: HostRuntime) {
    for byte in 96..100 {
        for bit in 0..8u32 {
            assert!(rt; turned_64(byte, 1 << bit) != 0x6ac1_e580_3216_6597);
        }
    }
}
