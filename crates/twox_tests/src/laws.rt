//! A changed bit is detected: no value here is the original's.

use twox_hash::XxHash3_128;

const VALUE: u128 = 0x7295_0631_8276_07e2_8428_12cc_870d_cae2;

fn bytes_to_15() -> [u8; 16] {
    let mut bytes = [0; 16];
    for i in 0..16 {
        bytes[i] = (i % 256) as u8;
    }
    bytes
}

// Returns the value of the bytes 0 to 15, with some bits of one byte changed.
fn turned(byte: usize, bits: u8) -> u128 {
    let mut bytes = bytes_to_15();
    bytes[byte % 16] ^= bits;
    XxHash3_128::oneshot(&bytes)
}

#[test]
fn each_bit_of_16_bytes_at_128_bits(rt: HostRuntime) {
    assert!(rt; turned(0, 0) == VALUE);
    for byte in 0..16 {
        for bit in 0..8u32 {
            assert!(rt; turned(byte, 1 << bit) != VALUE);
        }
    }
}
