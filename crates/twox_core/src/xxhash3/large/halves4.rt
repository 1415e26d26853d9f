//! The kernel that works on four accumulators at a time and multiplies the halves of a word as words of 32 bits, by
//! `std::simd`: WebAssembly has an instruction for that product, and needs many for a product of words of 64 bits.

ghost use Rattle.std.specs.Prelude.{◌≡◌, ◌/◌, ◌%◌, ◌^◌, [], ◌∷◌, slice_index};
ghost use Rattle.twox_core.specs.Kernel.{four, scramble_with_word};

use super::four::{HalvesProducts, accumulate_by_fours};
use super::word::words;
use crate::xxhash3::Vector;
use crate::xxhash3::primes::PRIME32_1;
use std::simd::{u32x4, u64x2, u64x4};

/// The kernel of four accumulators at a time that multiplies halves of words.
#[derive(Clone, Copy)]
pub struct Impl;

impl Vector for Impl {
    #[tactic(auto, unfolding(crate::specs::Long::scramble_one))]
    #[inline(always)]
    fn round_scramble(&self, acc: &mut [u64; 8], secret_end: &[u8; 64]) {
        let [a, b, c, d, e, f, g, h] = *acc;
        let [a, b, c, d] = scramble_four([a, b, c, d], words(secret_end, 0));
        let [e, f, g, h] = scramble_four([e, f, g, h], words(secret_end, 4));
        *acc = [a, b, c, d, e, f, g, h];
    }

    #[inline(always)]
    fn accumulate(&self, acc: &mut [u64; 8], stripe: &[u8; 64], secret: &[u8; 64]) {
        accumulate_by_fours(Products {}, acc, stripe, secret);
    }
}

// Products of words of 32 bits.
#[derive(Clone, Copy)]
struct Products;

impl HalvesProducts for Products {
    // Joins the halves of two vectors before widening them: from the halves of one LLVM would make a mask and a shift
    // again, and from these no product of words of 32 bits.
    #[inline(always)]
    fn halves_products(&self, words: [u64; 4], keys: [u64; 4]) -> [u64; 4] {
        let [w0, w1, w2, w3] = words;
        let [k0, k1, k2, k3] = keys;
        let values = u64x4::from_array([w0, w1, w2, w3]) ^ u64x4::from_array([k0, k1, k2, k3]);
        let [v0, v1, v2, v3] = values.to_array();
        let [l0, h0, l1, h1] = halves_of([v0, v1]);
        let [l2, h2, l3, h3] = halves_of([v2, v3]);
        let front = u32x4::from_array([l0, h0, l1, h1]);
        let back = u32x4::from_array([l2, h2, l3, h3]);
        let low = front.shuffle(back, [0, 2, 4, 6]).cast::<u64>();
        let high = front.shuffle(back, [1, 3, 5, 7]).cast::<u64>();
        (low * high).to_array()
    }
}

// Splits two words into their halves, the lower one first.
#[tactic(auto, using(crate::proofs::HalvesFacts::split_two))]
#[inline]
fn halves_of(words: [u64; 2]) -> [u32; 4]
    ensures { result ≡ slice_index words 0 % 2 ^ 32 ∷ slice_index words 0 / 2 ^ 32
        ∷ slice_index words 1 % 2 ^ 32 ∷ slice_index words 1 / 2 ^ 32 ∷ [] }
{
    let [a, b] = words;
    u32x4::from_le_bytes(u64x2::from_array([a, b]).to_le_bytes()).to_array()
}

#[inline]
fn scramble_four(acc: [u64; 4], keys: [u64; 4]) -> [u64; 4]
    ensures { result ≡ four (λ i. scramble_with_word (slice_index acc i) (slice_index keys i)) }
{
    let [a0, a1, a2, a3] = acc;
    let [k0, k1, k2, k3] = keys;
    let acc = u64x4::from_array([a0, a1, a2, a3]);
    let keys = u64x4::from_array([k0, k1, k2, k3]);
    ((acc ^ (acc >> u64x4::splat(47)) ^ keys) * u64x4::splat(PRIME32_1)).to_array()
}
