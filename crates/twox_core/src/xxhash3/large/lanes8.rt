//! The kernel that works on all eight accumulators at once, by `std::simd`, for vectors of 512 bits.

ghost use Rattle.std.specs.Prelude.{◌≡◌, ◌+◌, ◌*◌, ◌%◌, ◌^◌, slice_index, bit_xor};
ghost use Rattle.twox_core.specs.Kernel.{eight, sum_with_words_at, sum_with_four_stripes, scramble_with_word};
ghost use Rattle.twox_core.specs.Long.{halves_product};

use super::word::all_words;
use crate::xxhash3::Vector;
use crate::xxhash3::parts::array_at;
use crate::xxhash3::primes::PRIME32_1;
use std::simd::u64x8;

/// The kernel of eight accumulators at a time.
#[derive(Clone, Copy)]
pub struct Impl;

impl Vector for Impl {
    #[tactic(auto, unfolding(crate::specs::Long::scramble_one))]
    #[inline(always)]
    fn round_scramble(&self, acc: &mut [u64; 8], secret_end: &[u8; 64]) {
        *acc = scramble_eight(*acc, all_words(secret_end));
    }

    #[tactic(auto, unfolding(crate::specs::Long::accumulate_one))]
    #[inline(always)]
    fn accumulate(&self, acc: &mut [u64; 8], stripe: &[u8; 64], secret: &[u8; 64]) {
        *acc = accumulate_eight(*acc, all_words(stripe), all_words(secret));
    }

    #[tactic(auto, unfolding(crate::specs::Long::accumulate_one, crate::specs::Ending::accumulate_block))]
    #[inline(always)]
    fn accumulate_four_stripes(&self, acc: &mut [u64; 8], stripes: &[u8; 256], secret: &[u8; 88]) {
        *acc = accumulate_eight_by_four(*acc, stripes, secret);
    }
}

// Accumulates into eight accumulators: adds to each its neighbour's word and the product of the halves of its own word
// under its key.
#[inline]
fn accumulate_eight(acc: [u64; 8], words: [u64; 8], keys: [u64; 8]) -> [u64; 8]
    ensures { result ≡ eight (sum_with_words_at acc words keys) }
{
    sum(sum(acc, exchanged(words)), halves_products(words, keys))
}

// Accumulates four stripes into eight accumulators. Sums the words in place, so that neighbours exchange them once.
#[tactic(auto, using(crate::proofs::KernelFacts::four_sums))]
#[inline(always)]
fn accumulate_eight_by_four(acc: [u64; 8], stripes: &[u8; 256], secret: &[u8; 88]) -> [u64; 8]
    ensures { result ≡ eight (λ i. sum_with_four_stripes (slice_index acc i) stripes.now secret.now
        (8 * i) (8 * bit_xor i 1)) }
{
    let first = all_words(array_at(stripes, 0));
    let first_product = halves_products(first, all_words(array_at(secret, 0)));
    let second = all_words(array_at(stripes, 64));
    let second_product = halves_products(second, all_words(array_at(secret, 8)));
    let third = all_words(array_at(stripes, 128));
    let third_product = halves_products(third, all_words(array_at(secret, 16)));
    let fourth = all_words(array_at(stripes, 192));
    let fourth_product = halves_products(fourth, all_words(array_at(secret, 24)));
    let front = sum(sum(acc, first_product), second_product);
    let own = sum(sum(front, third_product), fourth_product);
    sum(own, exchanged(sum(sum(sum(first, second), third), fourth)))
}

// Returns the product of the halves of each word under its key.
#[inline]
fn halves_products(words: [u64; 8], keys: [u64; 8]) -> [u64; 8]
    ensures { result
        ≡ eight (λ i. halves_product (bit_xor (slice_index words i) (slice_index keys i)) % 2 ^ 64) }
{
    let [w0, w1, w2, w3, w4, w5, w6, w7] = words;
    let [k0, k1, k2, k3, k4, k5, k6, k7] = keys;
    let words = u64x8::from_array([w0, w1, w2, w3, w4, w5, w6, w7]);
    let values = words ^ u64x8::from_array([k0, k1, k2, k3, k4, k5, k6, k7]);
    let high = values >> u64x8::splat(32);
    let low = values & u64x8::splat(0xffff_ffff);
    (low * high).to_array()
}

#[inline]
fn sum(a: [u64; 8], b: [u64; 8]) -> [u64; 8]
    ensures { result ≡ eight (λ i. (slice_index a i + slice_index b i) % 2 ^ 64) }
{
    let [a0, a1, a2, a3, a4, a5, a6, a7] = a;
    let [b0, b1, b2, b3, b4, b5, b6, b7] = b;
    let a = u64x8::from_array([a0, a1, a2, a3, a4, a5, a6, a7]);
    (a + u64x8::from_array([b0, b1, b2, b3, b4, b5, b6, b7])).to_array()
}

// Swaps each word with its neighbour.
#[inline]
fn exchanged(words: [u64; 8]) -> [u64; 8]
    ensures { result ≡ eight (λ i. slice_index words (bit_xor i 1)) }
{
    let [a, b, c, d, e, f, g, h] = words;
    let words = u64x8::from_array([a, b, c, d, e, f, g, h]);
    words.swizzle([1, 0, 3, 2, 5, 4, 7, 6]).to_array()
}

#[inline]
fn scramble_eight(acc: [u64; 8], keys: [u64; 8]) -> [u64; 8]
    ensures { result ≡ eight (λ i. scramble_with_word (slice_index acc i) (slice_index keys i)) }
{
    let [a0, a1, a2, a3, a4, a5, a6, a7] = acc;
    let [k0, k1, k2, k3, k4, k5, k6, k7] = keys;
    let acc = u64x8::from_array([a0, a1, a2, a3, a4, a5, a6, a7]);
    let keys = u64x8::from_array([k0, k1, k2, k3, k4, k5, k6, k7]);
    ((acc ^ (acc >> u64x8::splat(47)) ^ keys) * u64x8::splat(PRIME32_1)).to_array()
}
