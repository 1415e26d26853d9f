//! The library's main theorem, as functions with contracts: for every seed, secret of at least 136 bytes, kernel and
//! list of chunks, at any point a hasher returns the definition applied to all bytes written so far, and so does every
//! one-shot that is not refused.
//!
//! An XXH3 stream that was made with only a secret uses it at every length. Any other stream uses the default secret
//! with its seed up to 240 bytes, and above that the secret that it holds, with no seed.
//!
//! A reader who trusts the definitions and this file needs to read few other contracts: what `SecretBuffer::new`,
//! `with_seed`, `with_secret` and `default` hold, the `bytes` of the four buffers, and what `Finalize` requires of an
//! implementation. Each `.._of_pieces` hashes some chunks, returns the value, hashes more and returns the value again:
//! by `AreValuesOf` these are the definition's values of all bytes written by then. Everything is proved from the
//! public contracts of `twox_hash` and two lemmas on the definitions (`LongValues` of `twox_core`).
#![tactic(auto)]

ghost use Rattle.std.specs.Prelude.{◌≡◌, ◌++◌, ◌↔◌, ◌≤◌, ◌<◌, ℕ, Option, Some, List, [], IfOk, IfSome, IsErr, IsSome, length, map};
ghost use Rattle.std.specs.List.{concat};
ghost use Rattle.std.specs.Box.{boxed_slice_items};
ghost use Rattle.twox_hash.specs.Word.{counted};
ghost use Rattle.twox_hash.specs.Xxh32.{xxh32};
ghost use Rattle.twox_hash.specs.Xxh64.{xxh64};
ghost use Rattle.twox_hash.specs.Value.{short_secret, stream_64, stream_128, stream_seed, xxh3_64, xxh3_128};
ghost use Rattle.twox_hash.specs.Secret.{default_secret, derived_secret};
ghost use Rattle.twox_hash.specs.SecretBytes.{secret_bytes};
ghost use Rattle.twox_hash.specs.Ending.{stream_accumulators, stream_block, last_stripe};
ghost use Rattle.twox_hash.specs.Record32 as Record32;
ghost use Rattle.twox_hash.specs.Record64 as Record64;
ghost use Rattle.twox_hash.specs.Represents.{Represents};
ghost use Rattle.twox_hash.specs.StreamState.{own};
ghost use Rattle.theorems.specs.Values.{AreValuesOf, joined};

use std::alloc::{AllocError, Allocator};
use std::boxed::BoxedSlice;
use std::hash;
use twox_hash::xxhash3::{
    Algorithm, Finalize, FixedBuffer, OneshotWithSecretError, RawHasherCore, Secret, SecretBuffer,
    Vector,
};
use twox_hash::xxhash3_64::Finalize64;
use twox_hash::xxhash3_128::Finalize128;
use twox_hash::{XxHash3_64, XxHash3_128, XxHash32, XxHash64, xxhash3_64, xxhash3_128};

// ---- any hasher

/// A hasher of any algorithm: the lists of bytes that it follows, and its value of a list.
pub trait StreamingHasher {
    /// The type of the value.
    type Value: Copy + PartialEq;

    // The hasher has hashed a list, with a seed, if there is one, and a secret. The plain hashes have no secret.
    ghost follows: { Self → Option ℕ → List ℕ → List ℕ → Type 0 };

    // The value of a list, with a seed and a secret.
    ghost value: { Option ℕ → List ℕ → List ℕ → Self.Value };

    /// Hashes a chunk.
    fn update(&mut self, piece: &[u8])
        ensures { (seed : Option ℕ) (s m : List ℕ) → follows self.old seed s m
            → follows self.new seed s (m ++ piece.now) };

    /// Returns the value of the chunks so far.
    fn digest(&self) -> Self::Value
        ensures { (seed : Option ℕ) (s m : List ℕ) → follows self.now seed s m
            → result ≡ value seed s m };
}

impl StreamingHasher for XxHash32 {
    type Value = u32;

    ghost follows = { λ h seed _ m. (seed ≡ Some h.seed) × Record32.Represents h m };

    ghost value = { λ seed _ m. xxh32 (stream_seed seed) m };

    fn update(&mut self, piece: &[u8]) {
        self.write(piece);
    }

    fn digest(&self) -> u32 {
        self.finish_32()
    }
}

impl StreamingHasher for XxHash64 {
    type Value = u64;

    ghost follows = { λ h seed _ m. (seed ≡ Some h.seed) × Record64.Represents h m };

    ghost value = { λ seed _ m. xxh64 (stream_seed seed) m };

    fn update(&mut self, piece: &[u8]) {
        self.write(piece);
    }

    fn digest(&self) -> u64 {
        self.finish()
    }
}

impl<S: FixedBuffer> StreamingHasher for xxhash3_64::RawHasher<S> {
    type Value = u64;

    ghost follows = { λ h seed s m. Represents S.bytes h seed s m };

    ghost value = { stream_64 };

    fn update(&mut self, piece: &[u8]) {
        self.write(piece);
    }

    fn digest(&self) -> u64 {
        self.finish()
    }
}

impl<A: Allocator> StreamingHasher for XxHash3_64<A> {
    type Value = u64;

    ghost follows = { λ h seed s m. Represents boxed_slice_items h seed s m };

    ghost value = { stream_64 };

    fn update(&mut self, piece: &[u8]) {
        self.write(piece);
    }

    fn digest(&self) -> u64 {
        self.finish()
    }
}

impl<A: Allocator> StreamingHasher for xxhash3_64::LazyHasher<A> {
    type Value = u64;

    ghost follows = { λ h seed s m. Represents own h seed s m };

    ghost value = { stream_64 };

    fn update(&mut self, piece: &[u8]) {
        self.write(piece);
    }

    fn digest(&self) -> u64 {
        self.finish()
    }
}

impl<S: FixedBuffer> StreamingHasher for xxhash3_128::RawHasher<S> {
    type Value = u128;

    ghost follows = { λ h seed s m. Represents S.bytes h seed s m };

    ghost value = { stream_128 };

    fn update(&mut self, piece: &[u8]) {
        self.write(piece);
    }

    fn digest(&self) -> u128 {
        self.finish_128()
    }
}

impl<A: Allocator> StreamingHasher for XxHash3_128<A> {
    type Value = u128;

    ghost follows = { λ h seed s m. Represents boxed_slice_items h seed s m };

    ghost value = { stream_128 };

    fn update(&mut self, piece: &[u8]) {
        self.write(piece);
    }

    fn digest(&self) -> u128 {
        self.finish_128()
    }
}

impl<A: Allocator> StreamingHasher for xxhash3_128::LazyHasher<A> {
    type Value = u128;

    ghost follows = { λ h seed s m. Represents own h seed s m };

    ghost value = { stream_128 };

    fn update(&mut self, piece: &[u8]) {
        self.write(piece);
    }

    fn digest(&self) -> u128 {
        self.finish_128()
    }
}

// Hashes the chunks, one after another.
fn update_all<H: StreamingHasher>(hasher: &mut H, pieces: &[&[u8]])
    ensures { (seed : Option ℕ) (s m : List ℕ) → H.follows hasher.old seed s m
        → H.follows hasher.new seed s (m ++ joined pieces.now) }
{
    for piece in pieces {
        hasher.update(piece);
    }
}

// Returns the values after some chunks, and after more.
fn digests<H: StreamingHasher>(
    hasher: &mut H,
    first: &[&[u8]],
    rest: &[&[u8]],
) -> (H::Value, H::Value)
    ensures { (seed : Option ℕ) (s : List ℕ) → H.follows hasher.old seed s []
        → AreValuesOf (H.value seed s) first.now rest.now result }
{
    update_all(hasher, first);
    let then = hasher.digest();
    update_all(hasher, rest);
    (then, hasher.digest())
}

// ---- XXH32 and XXH64

/// XXH32 of chunks.
pub fn xxh32_of_pieces(seed: u32, first: &[&[u8]], rest: &[&[u8]]) -> (u32, u32)
    ensures { AreValuesOf (xxh32 seed) first.now rest.now result }
{
    digests(&mut XxHash32::with_seed(seed), first, rest)
}

/// XXH32 of chunks, with the seed 0.
pub fn xxh32_default_of_pieces(first: &[&[u8]], rest: &[&[u8]]) -> (u32, u32)
    ensures { AreValuesOf (xxh32 0) first.now rest.now result }
{
    digests(&mut XxHash32::default(), first, rest)
}

/// XXH32 of bytes at once.
pub fn xxh32_at_once(seed: u32, input: &[u8]) -> u32
    ensures { result ≡ xxh32 seed input.now }
{
    XxHash32::oneshot(seed, input)
}

/// XXH64 of chunks.
pub fn xxh64_of_pieces(seed: u64, first: &[&[u8]], rest: &[&[u8]]) -> (u64, u64)
    ensures { AreValuesOf (xxh64 seed) first.now rest.now result }
{
    digests(&mut XxHash64::with_seed(seed), first, rest)
}

/// XXH64 of chunks, with the seed 0.
pub fn xxh64_default_of_pieces(first: &[&[u8]], rest: &[&[u8]]) -> (u64, u64)
    ensures { AreValuesOf (xxh64 0) first.now rest.now result }
{
    digests(&mut XxHash64::default(), first, rest)
}

/// XXH64 of bytes at once.
pub fn xxh64_at_once(seed: u64, input: &[u8]) -> u64
    ensures { result ≡ xxh64 seed input.now }
{
    XxHash64::oneshot(seed, input)
}

// ---- XXH3 64-bit

/// A stream over any buffer, made with a seed or with only a secret, as the buffer was.
pub fn xxh3_64_of_pieces<S: FixedBuffer + Drop>(
    secret: SecretBuffer<S>,
    first: &[&[u8]],
    rest: &[&[u8]],
) -> (u64, u64)
    ensures { let s = S.bytes secret.secret in
        AreValuesOf (stream_64 secret.seed s) first.now rest.now result }
{
    digests(&mut xxhash3_64::RawHasher::new(secret), first, rest)
}

/// A stream with an allocated secret, with the seed 0 and the default secret.
pub fn xxh3_64_boxed_of_pieces<A: Allocator>(
    alloc: A,
    first: &[&[u8]],
    rest: &[&[u8]],
) -> Result<(u64, u64), AllocError>
    ensures { IfOk result (AreValuesOf (stream_64 (Some 0) default_secret) first.now rest.now) }
{
    let mut hasher = XxHash3_64::new(alloc)?;
    Ok(digests(&mut hasher, first, rest))
}

/// A 64-bit stream with an allocated secret, by `default`: the seed 0 and the default secret.
pub fn xxh3_64_default_of_pieces<A: Allocator>(
    alloc: A,
    first: &[&[u8]],
    rest: &[&[u8]],
) -> Result<(u64, u64), AllocError>
    ensures { IfOk result (AreValuesOf (stream_64 (Some 0) default_secret) first.now rest.now) }
{
    let mut hasher = XxHash3_64::default(alloc)?;
    Ok(digests(&mut hasher, first, rest))
}

/// A stream with an allocated secret, with a seed and the secret derived from it.
pub fn xxh3_64_seeded_of_pieces<A: Allocator>(
    alloc: A,
    seed: u64,
    first: &[&[u8]],
    rest: &[&[u8]],
) -> Result<(u64, u64), AllocError>
    ensures { let s = derived_secret seed in
        IfOk result (AreValuesOf (stream_64 (Some seed) s) first.now rest.now) }
{
    let mut hasher = XxHash3_64::with_seed(alloc, seed)?;
    Ok(digests(&mut hasher, first, rest))
}

/// A stream with a seed and a boxed secret of the caller: accepted from 136 bytes on.
pub fn xxh3_64_seeded_and_keyed_of_pieces<A: Allocator>(
    seed: u64,
    secret: BoxedSlice<u8, A>,
    first: &[&[u8]],
    rest: &[&[u8]],
) -> Option<(u64, u64)>
    ensures accepted { IsSome result ↔ (136 ≤ length (boxed_slice_items secret)) }
    ensures values { let s = boxed_slice_items secret in
        IfSome result (AreValuesOf (stream_64 (Some seed) s) first.now rest.now) }
{
    let mut hasher = XxHash3_64::with_seed_and_secret(seed, secret).ok()?;
    Some(digests(&mut hasher, first, rest))
}

/// A stream with only a boxed secret of the caller: accepted from 136 bytes on.
pub fn xxh3_64_keyed_of_pieces<A: Allocator>(
    secret: BoxedSlice<u8, A>,
    first: &[&[u8]],
    rest: &[&[u8]],
) -> Option<(u64, u64)>
    ensures accepted { IsSome result ↔ (136 ≤ length (boxed_slice_items secret)) }
    ensures values { let s = boxed_slice_items secret in
        IfSome result (AreValuesOf (xxh3_64 0 s) first.now rest.now) }
{
    let mut hasher = XxHash3_64::with_secret(secret).ok()?;
    Some(digests(&mut hasher, first, rest))
}

/// A stream that derives its secret whenever it has an effect, by `new`: the seed 0 and the default secret.
pub fn xxh3_64_lazy_of_pieces<A: Allocator>(alloc: A, first: &[&[u8]], rest: &[&[u8]]) -> (u64, u64)
    ensures { AreValuesOf (stream_64 (Some 0) default_secret) first.now rest.now result }
{
    digests(&mut xxhash3_64::LazyHasher::new(alloc), first, rest)
}

/// A stream that derives its secret whenever it has an effect, with a seed.
pub fn xxh3_64_lazy_seeded_of_pieces<A: Allocator>(
    alloc: A,
    seed: u64,
    first: &[&[u8]],
    rest: &[&[u8]],
) -> (u64, u64)
    ensures { AreValuesOf (stream_64 (Some seed) (derived_secret seed)) first.now rest.now result }
{
    digests(
        &mut xxhash3_64::LazyHasher::with_seed(alloc, seed),
        first,
        rest,
    )
}

/// The same type of stream with a seed and a boxed secret of the caller: accepted from 136 bytes on.
pub fn xxh3_64_lazy_seeded_and_keyed_of_pieces<A: Allocator>(
    seed: u64,
    secret: BoxedSlice<u8, A>,
    first: &[&[u8]],
    rest: &[&[u8]],
) -> Option<(u64, u64)>
    ensures accepted { IsSome result ↔ (136 ≤ length (boxed_slice_items secret)) }
    ensures values { let s = boxed_slice_items secret in
        IfSome result (AreValuesOf (stream_64 (Some seed) s) first.now rest.now) }
{
    let mut hasher = xxhash3_64::LazyHasher::with_seed_and_secret(seed, secret).ok()?;
    Some(digests(&mut hasher, first, rest))
}

/// All bytes at once, with the default secret and the seed 0.
pub fn xxh3_64_at_once(input: &[u8]) -> u64
    ensures { result ≡ xxh3_64 0 default_secret input.now }
{
    XxHash3_64::oneshot(input)
}

/// All bytes at once, with a seed: as a stream with the secret derived from it.
pub fn xxh3_64_seeded_at_once(seed: u64, input: &[u8]) -> u64
    ensures { result ≡ stream_64 (Some seed) (derived_secret seed) input.now }
{
    XxHash3_64::oneshot_with_seed(seed, input)
}

/// All bytes at once, with only a secret.
pub fn xxh3_64_keyed_at_once(secret: &[u8], input: &[u8]) -> Result<u64, OneshotWithSecretError>
    ensures refused { IsErr result ↔ (length secret.now < 136) }
    ensures value { IfOk result (λ value. value ≡ xxh3_64 0 secret.now input.now) }
{
    XxHash3_64::oneshot_with_secret(secret, input)
}

/// All bytes at once, with a seed and a secret: as a stream with both.
pub fn xxh3_64_seeded_and_keyed_at_once(
    seed: u64,
    secret: &[u8],
    input: &[u8],
) -> Result<u64, OneshotWithSecretError>
    ensures refused { IsErr result ↔ ((240 < length input.now) × (length secret.now < 136)) }
    ensures value { IfOk result (λ value. value ≡ stream_64 (Some seed) secret.now input.now) }
{
    XxHash3_64::oneshot_with_seed_and_secret(seed, secret, input)
}

/// More than 240 bytes at once, by any kernel: the value under every seed, since none is used.
#[tactic(auto, using(twox_core::proofs::LongValues::block_value_64))]
pub fn xxh3_64_over<V: Vector>(v: V, secret: Secret<'_>, input: &[u8]) -> u64
    requires { 240 < length input.now }
    ensures { let s = secret_bytes secret.entry in (seed : ℕ) → result ≡ xxh3_64 seed s input.now }
{
    Algorithm(v).oneshot(secret, input, Finalize64)
}

// ---- XXH3 128-bit

/// A stream over any buffer, made with a seed or with only a secret, as the buffer was.
pub fn xxh3_128_of_pieces<S: FixedBuffer + Drop>(
    secret: SecretBuffer<S>,
    first: &[&[u8]],
    rest: &[&[u8]],
) -> (u128, u128)
    ensures { let s = S.bytes secret.secret in
        AreValuesOf (stream_128 secret.seed s) first.now rest.now result }
{
    digests(&mut xxhash3_128::RawHasher::new(secret), first, rest)
}

/// A stream with an allocated secret, with the seed 0 and the default secret.
pub fn xxh3_128_boxed_of_pieces<A: Allocator>(
    alloc: A,
    first: &[&[u8]],
    rest: &[&[u8]],
) -> Result<(u128, u128), AllocError>
    ensures { IfOk result (AreValuesOf (stream_128 (Some 0) default_secret) first.now rest.now) }
{
    let mut hasher = XxHash3_128::new(alloc)?;
    Ok(digests(&mut hasher, first, rest))
}

/// A 128-bit stream with an allocated secret, by `default`: the seed 0 and the default secret.
pub fn xxh3_128_default_of_pieces<A: Allocator>(
    alloc: A,
    first: &[&[u8]],
    rest: &[&[u8]],
) -> Result<(u128, u128), AllocError>
    ensures { IfOk result (AreValuesOf (stream_128 (Some 0) default_secret) first.now rest.now) }
{
    let mut hasher = XxHash3_128::default(alloc)?;
    Ok(digests(&mut hasher, first, rest))
}

/// A stream with an allocated secret, with a seed and the secret derived from it.
pub fn xxh3_128_seeded_of_pieces<A: Allocator>(
    alloc: A,
    seed: u64,
    first: &[&[u8]],
    rest: &[&[u8]],
) -> Result<(u128, u128), AllocError>
    ensures { let s = derived_secret seed in
        IfOk result (AreValuesOf (stream_128 (Some seed) s) first.now rest.now) }
{
    let mut hasher = XxHash3_128::with_seed(alloc, seed)?;
    Ok(digests(&mut hasher, first, rest))
}

/// A stream with a seed and a boxed secret of the caller: accepted from 136 bytes on.
pub fn xxh3_128_seeded_and_keyed_of_pieces<A: Allocator>(
    seed: u64,
    secret: BoxedSlice<u8, A>,
    first: &[&[u8]],
    rest: &[&[u8]],
) -> Option<(u128, u128)>
    ensures accepted { IsSome result ↔ (136 ≤ length (boxed_slice_items secret)) }
    ensures values { let s = boxed_slice_items secret in
        IfSome result (AreValuesOf (stream_128 (Some seed) s) first.now rest.now) }
{
    let mut hasher = XxHash3_128::with_seed_and_secret(seed, secret).ok()?;
    Some(digests(&mut hasher, first, rest))
}

/// A stream with only a boxed secret of the caller: accepted from 136 bytes on.
pub fn xxh3_128_keyed_of_pieces<A: Allocator>(
    secret: BoxedSlice<u8, A>,
    first: &[&[u8]],
    rest: &[&[u8]],
) -> Option<(u128, u128)>
    ensures accepted { IsSome result ↔ (136 ≤ length (boxed_slice_items secret)) }
    ensures values { let s = boxed_slice_items secret in
        IfSome result (AreValuesOf (xxh3_128 0 s) first.now rest.now) }
{
    let mut hasher = XxHash3_128::with_secret(secret).ok()?;
    Some(digests(&mut hasher, first, rest))
}

/// A stream that derives its secret whenever it has an effect, by `new`: the seed 0 and the default secret.
pub fn xxh3_128_lazy_of_pieces<A: Allocator>(
    alloc: A,
    first: &[&[u8]],
    rest: &[&[u8]],
) -> (u128, u128)
    ensures { AreValuesOf (stream_128 (Some 0) default_secret) first.now rest.now result }
{
    digests(&mut xxhash3_128::LazyHasher::new(alloc), first, rest)
}

/// A stream that derives its secret whenever it has an effect, with a seed.
pub fn xxh3_128_lazy_seeded_of_pieces<A: Allocator>(
    alloc: A,
    seed: u64,
    first: &[&[u8]],
    rest: &[&[u8]],
) -> (u128, u128)
    ensures { AreValuesOf (stream_128 (Some seed) (derived_secret seed)) first.now rest.now result }
{
    digests(
        &mut xxhash3_128::LazyHasher::with_seed(alloc, seed),
        first,
        rest,
    )
}

/// The same type of stream with a seed and a boxed secret of the caller: accepted from 136 bytes on.
pub fn xxh3_128_lazy_seeded_and_keyed_of_pieces<A: Allocator>(
    seed: u64,
    secret: BoxedSlice<u8, A>,
    first: &[&[u8]],
    rest: &[&[u8]],
) -> Option<(u128, u128)>
    ensures accepted { IsSome result ↔ (136 ≤ length (boxed_slice_items secret)) }
    ensures values { let s = boxed_slice_items secret in
        IfSome result (AreValuesOf (stream_128 (Some seed) s) first.now rest.now) }
{
    let mut hasher = xxhash3_128::LazyHasher::with_seed_and_secret(seed, secret).ok()?;
    Some(digests(&mut hasher, first, rest))
}

/// All bytes at once, with the default secret and the seed 0.
pub fn xxh3_128_at_once(input: &[u8]) -> u128
    ensures { result ≡ xxh3_128 0 default_secret input.now }
{
    XxHash3_128::oneshot(input)
}

/// All bytes at once, with a seed: as a stream with the secret derived from it.
pub fn xxh3_128_seeded_at_once(seed: u64, input: &[u8]) -> u128
    ensures { result ≡ stream_128 (Some seed) (derived_secret seed) input.now }
{
    XxHash3_128::oneshot_with_seed(seed, input)
}

/// All bytes at once, with only a secret.
pub fn xxh3_128_keyed_at_once(secret: &[u8], input: &[u8]) -> Result<u128, OneshotWithSecretError>
    ensures refused { IsErr result ↔ (length secret.now < 136) }
    ensures value { IfOk result (λ value. value ≡ xxh3_128 0 secret.now input.now) }
{
    XxHash3_128::oneshot_with_secret(secret, input)
}

/// All bytes at once, with a seed and a secret: as a stream with both.
pub fn xxh3_128_seeded_and_keyed_at_once(
    seed: u64,
    secret: &[u8],
    input: &[u8],
) -> Result<u128, OneshotWithSecretError>
    ensures refused { IsErr result ↔ ((240 < length input.now) × (length secret.now < 136)) }
    ensures value { IfOk result (λ value. value ≡ stream_128 (Some seed) secret.now input.now) }
{
    XxHash3_128::oneshot_with_seed_and_secret(seed, secret, input)
}

/// More than 240 bytes at once, by any kernel: the value under every seed, since none is used.
#[tactic(auto, using(twox_core::proofs::LongValues::block_value_128))]
pub fn xxh3_128_over<V: Vector>(v: V, secret: Secret<'_>, input: &[u8]) -> u128
    requires { 240 < length input.now }
    ensures { let s = secret_bytes secret.entry in (seed : ℕ) → result ≡ xxh3_128 seed s input.now }
{
    Algorithm(v).oneshot(secret, input, Finalize128)
}

// ---- the standard `Hasher`

/// XXH3 64-bit by the calls of the standard `Hasher`.
pub fn xxh3_64_by_standard_calls<S: FixedBuffer + Drop>(
    secret: SecretBuffer<S>,
    input: &[u8],
) -> u64
    ensures { result ≡ stream_64 secret.seed (S.bytes secret.secret) input.now }
{
    let mut raw_hasher = xxhash3_64::RawHasher::new(secret);
    hash::Hasher::write(&mut raw_hasher, input);
    hash::Hasher::finish(&raw_hasher)
}

/// One chunk of XXH3 64-bit, by the standard library's `Hasher`, with an allocated secret.
pub fn xxh3_64_boxed_by_standard_calls<A: Allocator>(
    alloc: A,
    seed: u64,
    input: &[u8],
) -> Result<u64, AllocError>
    ensures { IfOk result (λ value. value ≡ stream_64 (Some seed) (derived_secret seed) input.now) }
{
    let mut hasher = XxHash3_64::with_seed(alloc, seed)?;
    hash::Hasher::write(&mut hasher, input);
    Ok(hash::Hasher::finish(&hasher))
}

// ---- the core, by kernels that change from chunk to chunk, for any finalizer

// Hashes each chunk by either kernel, as its flag selects.
fn write_all<S: FixedBuffer, V: Vector, W: Vector>(
    core: &mut RawHasherCore<S>,
    v: V,
    w: W,
    pieces: &[(bool, &[u8])],
)
    ensures { (seed : Option ℕ) (s m : List ℕ) → Represents S.bytes core.old seed s m
        → Represents S.bytes core.new seed s (m ++ concat (map (λ piece. piece.1.now) pieces.now)) }
{
    for piece in pieces {
        if piece.0 {
            core.write_with(v, piece.1);
        } else {
            core.write_with(w, piece.1);
        }
    }
}

/// A core over any buffer, by two kernels in turn, and a third for the value of any finalizer: up to 240 bytes it is
/// the finalizer's value for short inputs, and above that its value for long ones.
pub fn core_of_pieces<S: FixedBuffer + Drop, V: Vector, W: Vector, X: Vector, F: Finalize + Drop>(
    secret: SecretBuffer<S>,
    v: V,
    w: W,
    x: X,
    finalize: F,
    pieces: &[(bool, &[u8])],
) -> F::Output
    ensures short { let m = concat (map (λ piece. piece.1.now) pieces.now) in
        let s = short_secret secret.seed (S.bytes secret.secret) in
        length m ≤ 240 → result ≡ F.small_of finalize s (stream_seed secret.seed) m }
    ensures long { let m = concat (map (λ piece. piece.1.now) pieces.now) in
        let s = S.bytes secret.secret in
        let n = counted (length m) in
        240 < length m
        → result ≡ F.large_of finalize (stream_accumulators s m) (stream_block m) (last_stripe m) s n }
{
    let mut core = RawHasherCore::new(secret);
    write_all(&mut core, v, w, pieces);
    core.finish_with(x, finalize)
}
