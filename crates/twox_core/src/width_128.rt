//! XXH3 128-bit: the ranges of lengths, the finalizer, and the one-shots of every length.

ghost use Rattle.std.specs.Prelude.{◌≡◌, ◌+◌, ◌-◌, ◌*◌, ◌/◌, ◌^◌, ◌<◌, ◌≤◌, ℕ, List, bit_xor, length};
ghost use Rattle.twox_words.specs.Word.{low64, high64};
ghost use Rattle.twox_core.specs.Ending.{finalize_128};
ghost use Rattle.twox_core.specs.Middle.{merge_high, merge_low, first_17_to_128, second_17_to_128};
ghost use Rattle.twox_core.specs.Primes.{prime64_1};
ghost use Rattle.twox_core.specs.Secret.{default_secret, derived_secret};
ghost use Rattle.twox_core.specs.SecretBytes.{secret_bytes};
ghost use Rattle.twox_core.specs.Short.{combined_bytes, high_0, low_0, high_4_to_8, low_4_to_8, product_4_to_8, product_9_to_16, high_1_to_3, low_1_to_3};
ghost use Rattle.twox_core.specs.Steps.{add64, avalanche, mix, mul64, word64};
ghost use Rattle.twox_core.specs.Value.{effective_secret, high_in, low_in, range_of, steps_of, xxh3_128};

use crate::xxhash3::primes::{PRIME_MX2, PRIME32_2, PRIME64_1, PRIME64_2, PRIME64_4};
use crate::xxhash3::{
    Algorithm, AnyLength, CUTOFF, DEFAULT_SECRET_LENGTH, DEFAULT_SEED, DefaultLength, Derived,
    Finalize, Kernel, MANY_BYTES, Secret, Vector, avalanche, avalanche_xxh64, chunks_17_to_128,
    default_secret, derived_secret, expect_middle, full_product, impl_1_to_3_bytes_combined,
    is_widened, mix_step, oneshot_widened, pairs_of_u64_bytes, to_u64s,
};
use twox_words::words::{Halves, IntoU64, IntoU128, bp_as_chunks, u32_at, u64_at};

/// Finalizes 128-bit values, of short and of long inputs.
#[derive(Clone, Copy)]
pub struct Finalize128;

impl Finalize for Finalize128 {
    type Output = u128;

    ghost small_of = { λ _ s seed m. xxh3_128 seed s m };

    ghost large_of = { λ _ a b t s n. finalize_128 a b t s n };

    #[inline(always)]
    fn small(&self, secret: Secret<'_>, seed: u64, input: &[u8]) -> u128 {
        oneshot_short(secret, seed, input).into_u128()
    }

    #[inline(always)]
    fn large(
        &self,
        v: impl Vector,
        acc: [u64; 8],
        last_block: &[u8],
        last_stripe: &[u8; 64],
        secret: Secret<'_>,
        len: u64,
    ) -> u128 {
        Algorithm(v).finalize_128(acc, last_block, last_stripe, secret, len)
    }
}

/// Returns the value with the default secret and the seed 0.
///
/// Each range above 64 bytes is a separate call: they need more registers than are free, so shorter inputs save none.
#[inline(always)]
pub fn oneshot(input: &[u8]) -> Wide
    ensures { result.high * 2 ^ 64 + result.low
        ≡ xxh3_128 0 default_secret input.now }
{
    if input.len() <= 16 {
        impl_0_to_16_bytes(default_secret(), DEFAULT_SEED, input)
    } else if input.len() <= 64 {
        impl_17_to_64_bytes(default_secret(), DEFAULT_SEED, input)
    } else if input.len() <= 128 {
        oneshot_65_to_128(input)
    } else if input.len() <= CUTOFF {
        oneshot_129_to_240(input)
    } else {
        oneshot_long(default_secret(), input)
    }
}

#[inline(never)]
fn oneshot_65_to_128(input: &[u8]) -> Wide
    requires some { 64 < length input.now }
    requires few { length input.now ≤ 128 }
    ensures { result.high * 2 ^ 64 + result.low
        ≡ xxh3_128 0 default_secret input.now }
{
    impl_65_to_128_bytes(default_secret(), DEFAULT_SEED, input)
}

#[inline(never)]
fn oneshot_129_to_240(input: &[u8]) -> Wide
    requires some { 129 ≤ length input.now }
    requires few { length input.now ≤ 240 }
    ensures { result.high * 2 ^ 64 + result.low
        ≡ xxh3_128 0 default_secret input.now }
{
    impl_129_to_240_bytes(default_secret(), DEFAULT_SEED, input)
}

/// Returns the value with a seed: up to 240 bytes with the default secret, above that with the one derived from the
/// seed.
#[inline(always)]
#[tactic(auto, unfolding(crate::specs::Value::effective_secret))]
pub fn oneshot_with_seed(seed: u64, input: &[u8]) -> Wide
    ensures { result.high * 2 ^ 64 + result.low
        ≡ xxh3_128 seed (effective_secret (derived_secret seed) input.now) input.now }
{
    if input.len() <= 16 {
        impl_0_to_16_bytes(default_secret(), seed, input)
    } else if input.len() <= 64 {
        impl_17_to_64_bytes(default_secret(), seed, input)
    } else if input.len() <= 128 {
        oneshot_with_seed_65_to_128(input, seed)
    } else if input.len() <= CUTOFF {
        oneshot_with_seed_129_to_240(input, seed)
    } else {
        oneshot_long_with_seed(seed, input)
    }
}

// The seed comes last, as in C's calls, so no register moves on the way.
#[inline(never)]
#[tactic(auto, unfolding(crate::specs::Value::effective_secret))]
fn oneshot_with_seed_65_to_128(input: &[u8], seed: u64) -> Wide
    requires some { 64 < length input.now }
    requires few { length input.now ≤ 128 }
    ensures { result.high * 2 ^ 64 + result.low
        ≡ xxh3_128 seed (effective_secret (derived_secret seed) input.now) input.now }
{
    impl_65_to_128_bytes(default_secret(), seed, input)
}

#[inline(never)]
#[tactic(auto, unfolding(crate::specs::Value::effective_secret))]
fn oneshot_with_seed_129_to_240(input: &[u8], seed: u64) -> Wide
    requires some { 129 ≤ length input.now }
    requires few { length input.now ≤ 240 }
    ensures { result.high * 2 ^ 64 + result.low
        ≡ xxh3_128 seed (effective_secret (derived_secret seed) input.now) input.now }
{
    impl_129_to_240_bytes(default_secret(), seed, input)
}

/// Returns the value with a secret and the seed 0.
#[inline(always)]
pub fn oneshot_with_secret(secret: Secret<'_>, input: &[u8]) -> Wide
    ensures { result.high * 2 ^ 64 + result.low
        ≡ xxh3_128 0 (secret_bytes secret.entry) input.now }
{
    if input.len() <= 16 {
        impl_0_to_16_bytes(secret, DEFAULT_SEED, input)
    } else if input.len() <= 64 {
        impl_17_to_64_bytes(secret, DEFAULT_SEED, input)
    } else if input.len() <= 128 {
        oneshot_with_secret_65_to_128(input, secret)
    } else if input.len() <= CUTOFF {
        oneshot_with_secret_129_to_240(input, secret)
    } else {
        oneshot_long(secret, input)
    }
}

#[inline(never)]
fn oneshot_with_secret_65_to_128(input: &[u8], secret: Secret<'_>) -> Wide
    requires some { 64 < length input.now }
    requires few { length input.now ≤ 128 }
    ensures { result.high * 2 ^ 64 + result.low
        ≡ xxh3_128 0 (secret_bytes secret.entry) input.now }
{
    impl_65_to_128_bytes(secret, DEFAULT_SEED, input)
}

#[inline(never)]
fn oneshot_with_secret_129_to_240(input: &[u8], secret: Secret<'_>) -> Wide
    requires some { 129 ≤ length input.now }
    requires few { length input.now ≤ 240 }
    ensures { result.high * 2 ^ 64 + result.low
        ≡ xxh3_128 0 (secret_bytes secret.entry) input.now }
{
    impl_129_to_240_bytes(secret, DEFAULT_SEED, input)
}

/// Returns the value above 240 bytes, with a secret. No seed is used, so it is the value for every seed.
///
/// A separate call, so that short inputs don't pay for the stack frame of long ones. If the secret's length is known,
/// nothing is divided or tested for it.
#[inline(never)]
pub fn oneshot_long(secret: Secret<'_>, input: &[u8]) -> Wide
    requires { 240 < length input.now }
    ensures { (any : ℕ) → result.high * 2 ^ 64 + result.low
        ≡ xxh3_128 any (secret_bytes secret.entry) input.now }
{
    if secret.len() == DEFAULT_SECRET_LENGTH {
        if is_widened(input) {
            oneshot_by_eight_lanes(secret, input)
        } else {
            oneshot_above_240::<DefaultLength>(secret, input)
        }
    } else {
        oneshot_long_of_any_length(secret, input)
    }
}

// A tail call, so that the default length keeps no register for the division.
#[inline(never)]
fn oneshot_long_of_any_length(secret: Secret<'_>, input: &[u8]) -> Wide
    requires { 240 < length input.now }
    ensures { (any : ℕ) → result.high * 2 ^ 64 + result.low
        ≡ xxh3_128 any (secret_bytes secret.entry) input.now }
{
    oneshot_above_240::<AnyLength>(secret, input)
}

// Each `Caller` has its own copy of the code: see `Algorithm::oneshot_of`.
#[inline(always)]
#[tactic(auto, using(crate::proofs::ValueLaws::long_128, crate::proofs::EndingFacts::block_both))]
fn oneshot_above_240<Caller>(secret: Secret<'_>, input: &[u8]) -> Wide
    requires { 240 < length input.now }
    ensures { (any : ℕ) → result.high * 2 ^ 64 + result.low
        ≡ xxh3_128 any (secret_bytes secret.entry) input.now }
{
    if input.len() < MANY_BYTES {
        let algorithm = Algorithm(Kernel {});
        halves(algorithm.oneshot_of::<Finalize128, Caller, false>(secret, input, Finalize128))
    } else {
        oneshot_many(secret, input)
    }
}

// Hashes many bytes, as a tail call of `oneshot_above_240`, which then keeps no register for them.
#[inline(never)]
#[tactic(auto, using(crate::proofs::ValueLaws::long_128, crate::proofs::EndingFacts::block_both))]
fn oneshot_many(secret: Secret<'_>, input: &[u8]) -> Wide
    requires { 240 < length input.now }
    ensures { (any : ℕ) → result.high * 2 ^ 64 + result.low
        ≡ xxh3_128 any (secret_bytes secret.entry) input.now }
{
    let algorithm = Algorithm(Kernel {});
    halves(algorithm.oneshot_of::<Finalize128, AnyLength, true>(secret, input, Finalize128))
}

// Hashes by eight lanes, as another tail call, of `oneshot_long`.
#[inline(never)]
#[tactic(auto, using(crate::proofs::ValueLaws::long_128, crate::proofs::EndingFacts::taken_both))]
fn oneshot_by_eight_lanes(secret: Secret<'_>, input: &[u8]) -> Wide
    requires long { 240 < length input.now }
    requires all { length (secret_bytes secret) ≡ 192 }
    ensures { (any : ℕ) → result.high * 2 ^ 64 + result.low
        ≡ xxh3_128 any (secret_bytes secret.entry) input.now }
{
    halves(oneshot_widened(secret, input, Finalize128))
}

// Hashes long inputs with the secret derived from the seed. The seed 0 derives the default one.
#[inline(always)]
#[tactic(auto, using(crate::proofs::Vectors::derived_secret_none))]
fn oneshot_long_with_seed(seed: u64, input: &[u8]) -> Wide
    requires { 240 < length input.now }
    ensures { (any : ℕ) → result.high * 2 ^ 64 + result.low
        ≡ xxh3_128 any (derived_secret seed) input.now }
{
    if seed == DEFAULT_SEED {
        oneshot_long(default_secret(), input)
    } else if is_widened(input) {
        oneshot_derived_by_eight_lanes(seed, input)
    } else {
        oneshot_long_derived(seed, input)
    }
}

// The derived secret is on the stack. Built in place, it is known to have 192 bytes, so nothing tests that.
#[inline(never)]
fn oneshot_long_derived(seed: u64, input: &[u8]) -> Wide
    requires { 240 < length input.now }
    ensures { (any : ℕ) → result.high * 2 ^ 64 + result.low
        ≡ xxh3_128 any (derived_secret seed) input.now }
{
    let secret = derived_secret(seed);
    oneshot_above_240::<Derived>(Secret::new(&secret).unwrap(), input)
}

// Hashes inputs that eight lanes take. A separate function, so that callers with fewer bytes save no register for this
// call.
#[inline(never)]
#[tactic(auto, using(crate::proofs::ValueLaws::long_128, crate::proofs::EndingFacts::taken_both))]
fn oneshot_derived_by_eight_lanes(seed: u64, input: &[u8]) -> Wide
    requires { 240 < length input.now }
    ensures { (any : ℕ) → result.high * 2 ^ 64 + result.low
        ≡ xxh3_128 any (derived_secret seed) input.now }
{
    let derived = derived_secret(seed);
    halves(oneshot_widened(Secret::new(&derived).unwrap(), input, Finalize128))
}

/// A 128-bit value as its halves.
///
/// Only the callers join them, so that callers that need the halves, such as the exports for C, can tail call the
/// function that returns them.
#[derive(Clone, Copy)]
#[repr(C)]
pub struct Wide {
    /// The low 64 bits.
    pub low: u64,
    /// The high 64 bits.
    pub high: u64,
}

/// Splits the value into its halves.
#[inline(always)]
pub fn halves(value: u128) -> Wide
    ensures { result.high * 2 ^ 64 + result.low ≡ value }
{
    Wide {
        low: value.lower_half(),
        high: value.upper_half(),
    }
}

impl IntoU128 for Wide {
    ghost number = { λ x. x.high * 2 ^ 64 + x.low };

    #[inline(always)]
    fn into_u128(self) -> u128 {
        self.high.into_u128() << 64 | self.low.into_u128()
    }
}

/// Returns the value up to 240 bytes, with a secret and a seed.
#[inline(always)]
pub fn oneshot_short(secret: Secret<'_>, seed: u64, input: &[u8]) -> Wide
    requires { length input.now ≤ 240 }
    ensures { result.high * 2 ^ 64 + result.low
        ≡ xxh3_128 seed (secret_bytes secret.entry) input.now }
{
    if input.len() <= 16 {
        impl_0_to_16_bytes(secret, seed, input)
    } else if input.len() <= 64 {
        impl_17_to_64_bytes(secret, seed, input)
    } else if input.len() <= 128 {
        impl_65_to_128_bytes(secret, seed, input)
    } else {
        short_129_to_240(secret, seed, input)
    }
}

#[inline(never)]
fn short_129_to_240(secret: Secret<'_>, seed: u64, input: &[u8]) -> Wide
    requires some { 129 ≤ length input.now }
    requires few { length input.now ≤ 240 }
    ensures { result.high * 2 ^ 64 + result.low
        ≡ xxh3_128 seed (secret_bytes secret.entry) input.now }
{
    impl_129_to_240_bytes(secret, seed, input)
}

#[inline(always)]
#[tactic(auto, unfolding(crate::specs::Value::xxh3_128, crate::specs::Value::range_of, crate::specs::Value::low_in, crate::specs::Value::high_in))]
fn impl_0_to_16_bytes(secret: Secret<'_>, seed: u64, input: &[u8]) -> Wide
    requires { length input.now ≤ 16 }
    ensures { result.high * 2 ^ 64 + result.low
        ≡ xxh3_128 seed (secret_bytes secret.entry) input.now }
{
    if input.len() >= 9 {
        impl_9_to_16_bytes(secret, seed, input)
    } else if input.len() >= 4 {
        impl_4_to_8_bytes(secret, seed, input)
    } else if input.len() >= 1 {
        impl_1_to_3_bytes(secret, seed, input)
    } else {
        impl_0_bytes(secret, seed)
    }
}

#[inline(always)]
#[tactic(auto, unfolding(crate::specs::Short::low_0, crate::specs::Short::high_0))]
fn impl_0_bytes(secret: Secret<'_>, seed: u64) -> Wide
    ensures low { result.low ≡ low_0 seed (secret_bytes secret.entry) }
    ensures high { result.high ≡ high_0 seed (secret_bytes secret.entry) }
{
    let words = secret.for_128().words_for_0();
    let low = avalanche_xxh64(seed ^ words[0] ^ words[1]);
    let high = avalanche_xxh64(seed ^ words[2] ^ words[3]);
    Wide { low, high }
}

#[inline(always)]
#[tactic(auto, unfolding(crate::specs::Short::low_1_to_3, crate::specs::Short::high_1_to_3))]
fn impl_1_to_3_bytes(secret: Secret<'_>, seed: u64, input: &[u8]) -> Wide
    requires some { 1 ≤ length input.now }
    requires few { length input.now ≤ 3 }
    ensures low { result.low
        ≡ low_1_to_3 seed (secret_bytes secret.entry) (combined_bytes input.now) }
    ensures high { result.high
        ≡ high_1_to_3 seed (secret_bytes secret.entry) (combined_bytes input.now) }
{
    let combined_bytes = impl_1_to_3_bytes_combined(input);
    let words = secret.for_128().words_for_1_to_3();
    let low_key = (words[0] ^ words[1]).into_u64();
    let high_key = (words[2] ^ words[3]).into_u64();
    let low = low_key.wrapping_add(seed) ^ combined_bytes.into_u64();
    let high = high_key.wrapping_sub(seed) ^ combined_bytes.swap_bytes().rotate_left(13).into_u64();
    Wide {
        low: avalanche_xxh64(low),
        high: avalanche_xxh64(high),
    }
}

#[inline(always)]
#[tactic(auto, unfolding(crate::specs::Short::low_4_to_8, crate::specs::Short::high_4_to_8, crate::specs::Short::product_4_to_8, crate::specs::Short::mixed_seed))]
fn impl_4_to_8_bytes(secret: Secret<'_>, seed: u64, input: &[u8]) -> Wide
    requires some { 4 ≤ length input.now }
    requires few { length input.now ≤ 8 }
    ensures low { result.low
        ≡ low_4_to_8 (product_4_to_8 seed (secret_bytes secret.entry) input.now) }
    ensures high { result.high
        ≡ high_4_to_8 (product_4_to_8 seed (secret_bytes secret.entry) input.now) }
{
    let first = u32_at(input, 0);
    let last = u32_at(input, input.len() - 4);
    let mixed_seed = seed ^ (seed.lower_half().swap_bytes().into_u64() << 32);
    let words = secret.for_128().words_for_4_to_8();
    let combined_bytes = first.into_u64() | (last.into_u64() << 32);
    let lhs = (words[0] ^ words[1]).wrapping_add(mixed_seed) ^ combined_bytes;
    let rhs = PRIME64_1.wrapping_add(input.len().into_u64() << 2);
    let product = full_product(lhs, rhs);

    let high = product.upper_half().wrapping_add(product.lower_half() << 1);
    let low = product.lower_half() ^ (high >> 3);
    let low = low ^ (low >> 35);
    let low = low.wrapping_mul(PRIME_MX2);
    Wide {
        low: low ^ (low >> 28),
        high: avalanche(high),
    }
}

#[inline(always)]
#[tactic(auto, unfolding(crate::specs::Short::product_9_to_16, crate::specs::Short::both_words_9_to_16, crate::specs::Short::high_word_9_to_16, crate::specs::Short::low_word_9_to_16, crate::specs::Short::first_9_to_16, crate::specs::Short::second_9_to_16))]
fn impl_9_to_16_bytes(secret: Secret<'_>, seed: u64, input: &[u8]) -> Wide
    requires some { 9 ≤ length input.now }
    requires few { length input.now ≤ 16 }
    ensures low { result.low
        ≡ avalanche (low64 (product_9_to_16 seed (secret_bytes secret.entry) input.now)) }
    ensures high { result.high
        ≡ avalanche (high64 (product_9_to_16 seed (secret_bytes secret.entry) input.now)) }
{
    let first = u64_at(input, 0);
    let last = u64_at(input, input.len() - 8);
    let words = secret.for_128().words_for_9_to_16();
    let one = (words[0] ^ words[1]).wrapping_sub(seed) ^ first ^ last;
    let two = (words[2] ^ words[3]).wrapping_add(seed) ^ last;
    let product = full_product(one, PRIME64_1);
    let low = product
        .lower_half()
        .wrapping_add((input.len() - 1).into_u64() << 54);
    // The lower half of `two` counts times the prime, and the upper half unmultiplied.
    let high = product
        .upper_half()
        .wrapping_add(two)
        .wrapping_add(two.lower_half().into_u64().wrapping_mul(PRIME32_2 - 1));
    let low = low ^ high.swap_bytes();
    let product = Wide { low, high }
        .into_u128()
        .wrapping_mul(PRIME64_2.into_u128());
    Wide {
        low: avalanche(product.lower_half()),
        high: avalanche(product.upper_half()),
    }
}

// The two accumulators for 17 to 240 bytes.
#[derive(Clone, Copy)]
struct Accumulators {
    first: u64,
    second: u64,
}

// Returns the accumulators before the first chunk.
#[inline(always)]
fn initial_accumulators(input: &[u8]) -> Accumulators
    ensures first { result.first ≡ mul64 (length input.now) prime64_1 }
    ensures second { result.second ≡ 0 }
{
    Accumulators {
        first: input.len().into_u64().wrapping_mul(PRIME64_1),
        second: 0,
    }
}

// Returns an accumulator after the 16 bytes `own` under the secret's, and then the words of the 16 bytes `other`.
#[inline(always)]
fn accumulator_step(
    accumulator: u64,
    own: &[u8; 16],
    words: &[u8; 16],
    other: &[u8; 16],
    seed: u64,
) -> u64
    ensures { let sum = add64 (word64 other.now 0) (word64 other.now 8) in
        result ≡ bit_xor (add64 accumulator (mix own.now 0 words.now 0 seed)) sum }
{
    let other = to_u64s(other);
    accumulator.wrapping_add(mix_step(own, words, seed)) ^ other[0].wrapping_add(other[1])
}

// Returns the accumulators after chunk `c` from the front and from the back, if there is one.
#[inline(always)]
fn mix_two_chunks(
    accumulators: Accumulators,
    secret: Secret<'_>,
    seed: u64,
    input: &[u8],
    c: usize,
) -> Accumulators
    requires some { 17 ≤ length input.now }
    requires few { length input.now ≤ 128 }
    requires chunk { c < 4 }
    ensures first { let s = secret_bytes secret.entry in
        let n = steps_of input.now in
        accumulators.first ≡ first_17_to_128 seed s input.now n (n - 1 - c) → result.first ≡ first_17_to_128 seed s input.now n (n - c) }
    ensures second { let s = secret_bytes secret.entry in
        let n = steps_of input.now in
        accumulators.second ≡ second_17_to_128 seed s input.now n (n - 1 - c) → result.second ≡ second_17_to_128 seed s input.now n (n - c) }
{
    if input.len() <= 32 * c {
        return accumulators;
    }
    let (forward, backward, words) = chunks_17_to_128(secret, input, c);
    Accumulators {
        first: accumulator_step(accumulators.first, forward, &words[0], backward, seed),
        second: accumulator_step(accumulators.second, backward, &words[1], forward, seed),
    }
}

// Up to 64 bytes have only the last two steps.
#[inline(always)]
fn impl_17_to_64_bytes(secret: Secret<'_>, seed: u64, input: &[u8]) -> Wide
    requires some { 17 ≤ length input.now }
    requires few { length input.now ≤ 64 }
    ensures { result.high * 2 ^ 64 + result.low
        ≡ xxh3_128 seed (secret_bytes secret.entry) input.now }
{
    let accumulators = mix_two_chunks(initial_accumulators(input), secret, seed, input, 1);
    mix_last(accumulators, secret, seed, input)
}

#[inline(always)]
fn impl_65_to_128_bytes(secret: Secret<'_>, seed: u64, input: &[u8]) -> Wide
    requires some { 65 ≤ length input.now }
    requires few { length input.now ≤ 128 }
    ensures { result.high * 2 ^ 64 + result.low
        ≡ xxh3_128 seed (secret_bytes secret.entry) input.now }
{
    let accumulators = mix_above_32(initial_accumulators(input), secret, seed, input);
    mix_last(accumulators, secret, seed, input)
}

// Returns the accumulators after all steps except the last, from those before the first.
#[inline(always)]
fn mix_above_32(initial: Accumulators, secret: Secret<'_>, seed: u64, input: &[u8]) -> Accumulators
    requires some { 17 ≤ length input.now }
    requires few { length input.now ≤ 128 }
    ensures first { let s = secret_bytes secret.entry in
        let n = steps_of input.now in
        initial.first ≡ first_17_to_128 seed s input.now n 0
        → result.first ≡ first_17_to_128 seed s input.now n (n - 1) }
    ensures second { let s = secret_bytes secret.entry in
        let n = steps_of input.now in
        initial.second ≡ second_17_to_128 seed s input.now n 0
        → result.second ≡ second_17_to_128 seed s input.now n (n - 1) }
{
    let mut accumulators = initial;
    for step in 0..3 {
        accumulators = mix_two_chunks(accumulators, secret, seed, input, 3 - step);
    }
    accumulators
}

// Returns the value from the accumulators before the last step, which takes the chunks at both ends.
#[inline(always)]
fn mix_last(accumulators: Accumulators, secret: Secret<'_>, seed: u64, input: &[u8]) -> Wide
    requires some { 17 ≤ length input.now }
    requires few { length input.now ≤ 128 }
    ensures { let s = secret_bytes secret.entry in
        let n = steps_of input.now in
        accumulators.first ≡ first_17_to_128 seed s input.now n (n - 1)
        → accumulators.second ≡ second_17_to_128 seed s input.now n (n - 1)
        → result.high * 2 ^ 64 + result.low
        ≡ xxh3_128 seed s input.now }
{
    let accumulators = mix_two_chunks(accumulators, secret, seed, input, 0);
    finalize_medium(accumulators, input.len().into_u64(), seed)
}

// Inlined into a function for each kind of call, since a known seed of 0 saves two steps in each product.
#[inline(always)]
fn impl_129_to_240_bytes(secret: Secret<'_>, seed: u64, input: &[u8]) -> Wide
    requires some { 129 ≤ length input.now }
    requires few { length input.now ≤ 240 }
    ensures { result.high * 2 ^ 64 + result.low
        ≡ xxh3_128 seed (secret_bytes secret.entry) input.now }
{
    expect_middle(input, secret);
    let pairs = pairs_of_u64_bytes(input);
    let Accumulators {
        mut first,
        mut second,
    } = initial_accumulators(input);

    let words = secret.for_128().words_for_129_to_240_part1();
    'early: for p in 0..4 {
        first = accumulator_step(first, &pairs[p][0], &words[p][0], &pairs[p][1], seed);
        second = accumulator_step(second, &pairs[p][1], &words[p][1], &pairs[p][0], seed);
    }
    first = avalanche(first);
    second = avalanche(second);

    let words = secret.for_128().words_for_129_to_240_part2();
    'later: for p in 0..pairs.len() - 4 {
        first = accumulator_step(
            first,
            &pairs[4 + p][0],
            &words[p][0],
            &pairs[4 + p][1],
            seed,
        );
        second = accumulator_step(
            second,
            &pairs[4 + p][1],
            &words[p][1],
            &pairs[4 + p][0],
            seed,
        );
    }

    // the halves of the last 32 bytes are swapped, and the seed is negated
    let (_, tail) = input.split_at(input.len() - 32);
    let (tail, _) = bp_as_chunks(tail);
    let words = secret.for_128().words_for_129_to_240_part3();
    let negated = seed.wrapping_neg();
    let accumulators = Accumulators {
        first: accumulator_step(first, &tail[1], &words[0], &tail[0], negated),
        second: accumulator_step(second, &tail[0], &words[1], &tail[1], negated),
    };
    finalize_medium(accumulators, input.len().into_u64(), seed)
}

// Returns the value of the accumulators.
#[inline(always)]
#[tactic(auto, unfolding(crate::specs::Middle::merge_low, crate::specs::Middle::merge_high))]
fn finalize_medium(accumulators: Accumulators, input_len: u64, seed: u64) -> Wide
    ensures low { result.low ≡ merge_low accumulators.first accumulators.second }
    ensures high { result.high ≡ merge_high seed input_len accumulators.first accumulators.second }
{
    let low = accumulators.first.wrapping_add(accumulators.second);
    let high = accumulators
        .first
        .wrapping_mul(PRIME64_1)
        .wrapping_add(accumulators.second.wrapping_mul(PRIME64_4))
        .wrapping_add(input_len.wrapping_sub(seed).wrapping_mul(PRIME64_2));
    Wide {
        low: avalanche(low),
        high: avalanche(high).wrapping_neg(),
    }
}
