//! The kernels of XXH3 by name. Expected values are computed from the formulas of the specification.

ghost use Rattle.std.specs.Prelude.{◌≤◌};

use twox_core::xxhash3::large::{halves4, lanes2, lanes4, lanes8, scalar, split2};
use twox_core::xxhash3::{Kernel, Vector};

// Zeros except the eight-byte word `at`.
fn with_word(at: usize, word: u64) -> [u8; 64]
    requires { at ≤ 7 }
{
    let mut bytes = [0; 64];
    bytes[8 * at..8 * at + 8].copy_from_slice(&word.to_le_bytes());
    bytes
}

// The words 1 to 8.
fn counting_words() -> [u8; 64] {
    let mut stripe = [0; 64];
    for i in 0..8 {
        stripe[8 * i] = (i + 1) as u8;
    }
    stripe
}

// Returns accumulators of 0 after a stripe under a secret.
fn accumulators_after<V: Vector>(v: V, stripe: &[u8; 64], secret: &[u8; 64]) -> [u64; 8] {
    let mut acc = [0; 8];
    v.accumulate(&mut acc, stripe, secret);
    acc
}

// A word is added to its neighbour's lane, and the product of its halves to its own.
fn accumulates<V: Vector>(v: V) -> bool {
    let zeros = [0; 64];
    let first = accumulators_after(v, &with_word(0, 0x0000_0002_0000_0003), &zeros);
    let all = accumulators_after(v, &counting_words(), &zeros);
    let key = accumulators_after(v, &zeros, &with_word(7, 0x0000_0003_0000_0005));
    first == [6, 0x0000_0002_0000_0003, 0, 0, 0, 0, 0, 0]
        && all == [2, 1, 4, 3, 6, 5, 8, 7]
        && key == [0, 0, 0, 0, 0, 0, 0, 15]
}

fn scrambled<V: Vector>(v: V, accumulators: [u64; 8]) -> [u64; 8] {
    let mut acc = accumulators;
    v.round_scramble(&mut acc, &[0; 64]);
    acc
}

fn scrambles<V: Vector>(v: V) -> bool {
    let one = scrambled(v, [1 << 32, 0, 0, 0, 0, 0, 0, 0]);
    let all = scrambled(v, [1 << 63; 8]);
    one == [0x9e37_79b1_0000_0000, 0, 0, 0, 0, 0, 0, 0] && all == [0x8000_9e37_79b1_0000; 8]
}

#[test]
fn each_kernel_accumulates(rt: HostRuntime) {
    assert!(rt; accumulates(scalar::Impl {}));
    assert!(rt; accumulates(lanes2::Impl {}));
    assert!(rt; accumulates(lanes4::Impl {}));
    assert!(rt; accumulates(lanes8::Impl {}));
    assert!(rt; accumulates(split2::Impl {}));
    assert!(rt; accumulates(halves4::Impl {}));
    assert!(rt; accumulates(Kernel {}));
}

#[test]
fn each_kernel_scrambles(rt: HostRuntime) {
    assert!(rt; scrambles(scalar::Impl {}));
    assert!(rt; scrambles(lanes2::Impl {}));
    assert!(rt; scrambles(lanes4::Impl {}));
    assert!(rt; scrambles(lanes8::Impl {}));
    assert!(rt; scrambles(split2::Impl {}));
    assert!(rt; scrambles(halves4::Impl {}));
    assert!(rt; scrambles(Kernel {}));
}

fn products(pair: [u64; 2], factor: u32) -> [u64; 2] {
    split2::mul_u32_u64(pair, factor)
}

#[test]
fn split_products(rt: HostRuntime) {
    let pair = products([0x0000_0002_0000_0003, u64::MAX], 0x9e37_79b1);
    assert!(rt; pair == [0x3c6e_f363_daa6_6d13, 0xffff_ffff_61c8_864f]);
    assert!(rt; products([u64::MAX, 5], 0) == [0, 0]);
    assert!(rt; products([1 << 63, 7], 1) == [1 << 63, 7]);
}
