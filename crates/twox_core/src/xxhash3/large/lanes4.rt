//! The kernel that works on four accumulators at a time, by `std::simd`.

ghost use Rattle.std.specs.Prelude.{◌≡◌, ◌+◌, ◌*◌, ◌/◌, ◌%◌, ◌^◌, [], ◌∷◌, slice_index};
ghost use Rattle.twox_core.specs.Kernel.{four, scramble_with_word};
ghost use Rattle.twox_core.specs.Primes.{prime32_1};

use super::four::{HalvesProducts, accumulate_by_fours, accumulate_four_by_four};
use super::word::words;
use crate::xxhash3::Vector;
use crate::xxhash3::primes::PRIME32_1;
use std::simd::{u32x8, u64x4};

/// The kernel of four accumulators at a time.
#[derive(Clone, Copy)]
pub struct Impl;

impl Vector for Impl {
    #[tactic(auto, unfolding(crate::specs::Long::scramble_one))]
    #[inline(always)]
    fn round_scramble(&self, acc: &mut [u64; 8], secret_end: &[u8; 64]) {
        let [a, b, c, d, e, f, g, h] = *acc;
        let [a, b, c, d] = scramble_four([a, b, c, d], words(secret_end, 0));
        let [e, f, g, h] = scramble_four([e, f, g, h], words(secret_end, 4));
        *acc = [a, b, c, d, e, f, g, h];
    }

    #[inline(always)]
    fn accumulate(&self, acc: &mut [u64; 8], stripe: &[u8; 64], secret: &[u8; 64]) {
        accumulate_by_fours(Products {}, acc, stripe, secret);
    }

    #[tactic(auto, unfolding(crate::specs::Long::accumulate_one, crate::specs::Ending::accumulate_block))]
    #[inline(always)]
    fn accumulate_four_stripes(&self, acc: &mut [u64; 8], stripes: &[u8; 256], secret: &[u8; 88]) {
        let [a, b, c, d, e, f, g, h] = *acc;
        let [a, b, c, d] = accumulate_four_by_four(Products {}, [a, b, c, d], stripes, secret, 0);
        let [e, f, g, h] = accumulate_four_by_four(Products {}, [e, f, g, h], stripes, secret, 4);
        *acc = [a, b, c, d, e, f, g, h];
    }

    // A build for vectors of 512 bits returns `true` instead (`assembly/wide.py`). No clause fixes the result, so each
    // caller is proved for both.
    #[inline(always)]
    fn is_widened(&self) -> bool {
        false
    }
}

// Products of words of 64 bits whose upper halves are 0.
#[derive(Clone, Copy)]
struct Products;

impl HalvesProducts for Products {
    #[inline(always)]
    fn halves_products(&self, words: [u64; 4], keys: [u64; 4]) -> [u64; 4] {
        let [w0, w1, w2, w3] = words;
        let [k0, k1, k2, k3] = keys;
        let values = u64x4::from_array([w0, w1, w2, w3]) ^ u64x4::from_array([k0, k1, k2, k3]);
        let high = values >> u64x4::splat(32);
        let low = values & u64x4::splat(0xffff_ffff);
        (low * high).to_array()
    }
}

#[inline]
fn scramble_four(acc: [u64; 4], keys: [u64; 4]) -> [u64; 4]
    ensures { result ≡ four (λ i. scramble_with_word (slice_index acc i) (slice_index keys i)) }
{
    let [a0, a1, a2, a3] = acc;
    let [k0, k1, k2, k3] = keys;
    let acc = u64x4::from_array([a0, a1, a2, a3]);
    let keys = u64x4::from_array([k0, k1, k2, k3]);
    times_prime((acc ^ (acc >> u64x4::splat(47)) ^ keys).to_array())
}

// Multiplies each word by the prime, modulo 2^64. Most processors have no vector product of 64 bits, and on 64-bit ARM
// LLVM makes one outside of vectors. So the upper half is multiplied as a word of 32 bits, in place.
#[inline]
fn times_prime(words: [u64; 4]) -> [u64; 4]
    ensures { result ≡ slice_index words 0 * prime32_1 % 2 ^ 64
        ∷ slice_index words 1 * prime32_1 % 2 ^ 64
        ∷ slice_index words 2 * prime32_1 % 2 ^ 64
        ∷ slice_index words 3 * prime32_1 % 2 ^ 64 ∷ [] }
{
    let prime = PRIME32_1 as u32;
    let factors = u32x8::from_array([0, prime, 0, prime, 0, prime, 0, prime]);
    let [a, b, c, d] = joined((halves_of(words) * factors).to_array());
    let upper = u64x4::from_array([a, b, c, d]);
    let [a, b, c, d] = words;
    let lower = u64x4::from_array([a, b, c, d]) & u64x4::splat(0xffff_ffff);
    (upper + lower * u64x4::splat(PRIME32_1)).to_array()
}

// Splits each word into its halves, the lower one first.
#[tactic(auto, using(crate::proofs::HalvesFacts::split_four))]
#[inline]
fn halves_of(words: [u64; 4]) -> u32x8
    ensures { result ≡ slice_index words 0 % 2 ^ 32 ∷ slice_index words 0 / 2 ^ 32
        ∷ slice_index words 1 % 2 ^ 32 ∷ slice_index words 1 / 2 ^ 32
        ∷ slice_index words 2 % 2 ^ 32 ∷ slice_index words 2 / 2 ^ 32
        ∷ slice_index words 3 % 2 ^ 32 ∷ slice_index words 3 / 2 ^ 32 ∷ [] }
{
    let [a, b, c, d] = words;
    u32x8::from_le_bytes(u64x4::from_array([a, b, c, d]).to_le_bytes())
}

// Joins the halves to words.
#[tactic(auto, using(crate::proofs::HalvesFacts::join_eight))]
#[inline]
fn joined(halves: [u32; 8]) -> [u64; 4]
    ensures { result ≡ (slice_index halves 0 + 2 ^ 32 * slice_index halves 1)
        ∷ (slice_index halves 2 + 2 ^ 32 * slice_index halves 3)
        ∷ (slice_index halves 4 + 2 ^ 32 * slice_index halves 5)
        ∷ (slice_index halves 6 + 2 ^ 32 * slice_index halves 7) ∷ [] }
{
    let [a, b, c, d, e, f, g, h] = halves;
    let halves = u32x8::from_array([a, b, c, d, e, f, g, h]);
    u64x4::from_le_bytes(halves.to_le_bytes()).to_array()
}
