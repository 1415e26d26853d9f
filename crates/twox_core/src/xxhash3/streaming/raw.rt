//! The streaming core of both widths.

ghost use Rattle.std.specs.Prelude.{◌≡◌, ℕ, Option, List, [], ◌++◌, ◌+◌, ◌*◌, ◌^◌, ◌<◌, ◌≤◌, length};

use super::core_state::CoreState;
use super::{BUFFERED_BYTES, ClonedBuffer, FixedBuffer, SecretBuffer, SecretTooShortError};
use crate::xxhash3::{Finalize, Kernel, Vector};
use std::alloc::{AllocError, Allocator};
use std::boxed::BoxedSlice;
use std::marker::Model;

/// A stream of bytes whose value any finalizer (`Finalize`) can return at any moment.
///
/// Its type fixes its size: 608 bytes, of which the buffer is `BUFFERED_BYTES`, and those of the secret buffer.
#[derive(Drop)]
pub struct RawHasherCore<S: FixedBuffer> {
    secret_buffer: SecretBuffer<S>,
    state: CoreState,
}

impl<S: FixedBuffer> Model for RawHasherCore<S> {
    ghost use Rattle.std.specs.Prelude.{◌≤◌, ◌<◌, min, length};
    ghost use Rattle.twox_core.specs.Long.{stripes_of};
    ghost use Rattle.twox_core.specs.CoreView.{CoreView};

    ghost Value = { CoreView S };

    ghost view = { λ h. record { key = h.secret_buffer; state = h.state } };

    ghost invariant = { λ h. (136 ≤ length (S.bytes h.secret_buffer.secret) → h.state.counts.taken.stripes.current_stripe < stripes_of (S.bytes h.secret_buffer.secret))
        × (h.state.counts.buffer_usage ≤ 512) × (min h.state.counts.total_bytes 1 ≤ h.state.counts.buffer_usage) };
}

impl<S: FixedBuffer> RawHasherCore<S> {
    ghost use Rattle.std.specs.Prelude.{◌≡◌, ℕ, Option, List, [], ◌++◌, ◌+◌, ◌*◌, ◌^◌, ◌<◌, ◌≤◌, length};
    ghost use Rattle.twox_words.specs.Word.{counted};
    ghost use Rattle.twox_core.specs.Value.{short_secret, stream_seed};
    ghost use Rattle.twox_core.specs.Ending.{stream_accumulators, stream_block, last_stripe};
    ghost use Rattle.twox_core.specs.CoreView.{total_of, done_of, buffered_of};
    ghost use Rattle.twox_core.specs.AfterWrite.{core_after_write};
    ghost use Rattle.twox_core.specs.Finish.{core_finish};
    ghost use Rattle.twox_core.specs.Represents.{Represents, TakesPiece};

    /// Creates a stream of no bytes.
    #[tactic(auto, using(crate::proofs::StreamFacts::stands_fresh))]
    pub fn new(secret_buffer: SecretBuffer<S>) -> RawHasherCore<S>
        ensures { Represents S.bytes result secret_buffer.seed (S.bytes secret_buffer.secret) [] }
    {
        RawHasherCore {
            secret_buffer,
            state: CoreState::new(),
        }
    }

    /// Hashes a chunk after the bytes before.
    #[inline]
    pub fn write(&mut self, input: &[u8])
        ensures message { TakesPiece S.bytes self.old self.new input.now }
        ensures in_place { BUFFERED_BYTES < length input.now
            → (64 ≤ buffered_of self.new) × (buffered_of self.new ≤ 127) }
        ensures exact { self.new ≡ core_after_write S.bytes self.old input.now }
    {
        self.state.take(input, self.secret_buffer.secret());
    }

    /// Hashes the bytes of an array after the bytes before, as [`RawHasherCore::write`] does.
    #[inline(always)]
    pub fn write_array<const N: usize>(&mut self, bytes: &[u8; N])
        ensures message { TakesPiece S.bytes self.old self.new bytes.now }
        ensures exact { self.new ≡ core_after_write S.bytes self.old bytes.now }
    {
        self.state.take_array(bytes, self.secret_buffer.secret());
    }

    /// Hashes a chunk after the bytes before, with a kernel. Each call may use another kernel.
    #[inline]
    pub fn write_with(&mut self, v: impl Vector, input: &[u8])
        ensures message { TakesPiece S.bytes self.old self.new input.now }
        ensures in_place { BUFFERED_BYTES < length input.now
            → (64 ≤ buffered_of self.new) × (buffered_of self.new ≤ 127) }
        ensures exact { self.new ≡ core_after_write S.bytes self.old input.now }
    {
        self.state.write(v, input, self.secret_buffer.secret());
    }

    /// Returns the value of the bytes taken so far, by `finalize`. Doesn't change the stream. Above 240 bytes it uses
    /// the stream's secret. Up to 240 bytes it uses the default secret and the stream's seed or, if the stream was made
    /// with only a secret, that secret and the seed 0.
    #[inline]
    pub fn finish<F: Finalize + Drop>(&self, finalize: F) -> F::Output
        ensures short { (seed : Option ℕ) (s m : List ℕ) → Represents S.bytes self.now seed s m
            → length m ≤ 240
            → result ≡ F.small_of finalize (short_secret seed s) (stream_seed seed) m }
        ensures long { (seed : Option ℕ) (s m : List ℕ) → Represents S.bytes self.now seed s m
            → 240 < length m
            → result ≡ F.large_of finalize (stream_accumulators s m) (stream_block m) (last_stripe m) s (counted (length m)) }
        ensures exact { result
            ≡ core_finish (F.small_of finalize) (F.large_of finalize) S.bytes self.now }
    {
        let secret = self.secret_buffer.secret();
        self.state
            .finish_key(Kernel {}, &finalize, self.secret_buffer.seed(), secret)
    }

    /// Does the same as [`RawHasherCore::finish`], with a kernel that the caller chooses. Each call may use another
    /// kernel.
    #[inline]
    pub fn finish_with<F: Finalize + Drop>(&self, v: impl Vector, finalize: F) -> F::Output
        ensures short { (seed : Option ℕ) (s m : List ℕ) → Represents S.bytes self.now seed s m
            → length m ≤ 240
            → result ≡ F.small_of finalize (short_secret seed s) (stream_seed seed) m }
        ensures long { (seed : Option ℕ) (s m : List ℕ) → Represents S.bytes self.now seed s m
            → 240 < length m
            → result ≡ F.large_of finalize (stream_accumulators s m) (stream_block m) (last_stripe m) s (counted (length m)) }
        ensures exact { result
            ≡ core_finish (F.small_of finalize) (F.large_of finalize) S.bytes self.now }
    {
        let secret = self.secret_buffer.secret();
        self.state
            .finish(v, &finalize, self.secret_buffer.seed(), secret)
    }

    /// Total bytes taken, saturating at 2^64 - 1.
    #[tactic(auto, using(crate::proofs::StreamFacts::stands_count))]
    pub fn total_len(&self) -> u64
        ensures exact { result ≡ total_of self.now }
        ensures message { (seed : Option ℕ) (s m : List ℕ) → Represents S.bytes self.now seed s m
            → result ≡ counted (length m) }
    {
        self.state.counts.total_bytes
    }

    /// Number of stripes that the accumulators have taken, saturating at 2^64 - 1.
    ///
    /// With the bytes that `buffered` counts, these are all bytes taken so far.
    #[tactic(auto, using(crate::proofs::StreamFacts::stands_all))]
    pub fn stripes_done(&self) -> u64
        ensures exact { result ≡ done_of self.now }
        ensures all { (seed : Option ℕ) (s m : List ℕ) → Represents S.bytes self.now seed s m
            → length m < 2 ^ 64
            → 64 * result + buffered_of self.now ≡ length m }
    {
        self.state.counts.taken.count
    }

    /// Number of bytes buffered: none before the first byte, and then from 1 to `BUFFERED_BYTES`.
    #[tactic(auto, using(crate::proofs::StreamFacts::stands_none, crate::proofs::StreamFacts::stands_some, crate::proofs::StreamFacts::stands_all))]
    pub fn buffered(&self) -> usize
        ensures exact { result ≡ buffered_of self.now }
        ensures within { result ≤ BUFFERED_BYTES }
        ensures none { (seed : Option ℕ) (s : List ℕ) → Represents S.bytes self.now seed s []
            → result ≡ 0 }
        ensures some { (seed : Option ℕ) (s m : List ℕ) → Represents S.bytes self.now seed s m
            → 0 < length m → 0 < result }
        ensures all { (seed : Option ℕ) (s m : List ℕ) → Represents S.bytes self.now seed s m
            → length m < 2 ^ 64
            → 64 * done_of self.now + result ≡ length m }
    {
        self.state.counts.buffer_usage
    }

    /// Returns the secret.
    #[tactic(auto, using(crate::proofs::StreamFacts::stands_secret))]
    pub fn into_secret(self) -> S
        ensures exact { result ≡ self.key.secret }
        ensures message { (seed : Option ℕ) (s m : List ℕ) → Represents S.bytes self seed s m
            → S.bytes result ≡ s }
    {
        let RawHasherCore {
            secret_buffer,
            state: _,
        } = self;
        secret_buffer.into_secret()
    }
}

impl<S: ClonedBuffer> Clone for RawHasherCore<S> {
    ghost use Rattle.twox_core.specs.Represents.{IsCopy};

    ghost is_clone = { λ a b. IsCopy S.FixedBuffer.bytes a b };

    ghost is_infallible = { λ h. S.Clone.is_infallible h.key.secret };

    fn clone(&self) -> Result<RawHasherCore<S>, AllocError> {
        let secret_buffer = self.secret_buffer.clone()?;
        Ok(RawHasherCore {
            secret_buffer,
            state: self.state,
        })
    }
}

/// A stream whose secret is allocated.
pub type AllocRawHasher<A> = RawHasherCore<BoxedSlice<u8, A>>;

impl<A: Allocator> AllocRawHasher<A> {
    ghost use Rattle.std.specs.Prelude.{◌≡◌, [], ◌<◌, ◌≤◌, length, IfOk, MatchResult};
    ghost use Rattle.std.specs.Box.{boxed_slice_items};
    ghost use Rattle.twox_core.specs.Represents.{Represents};
    ghost use Rattle.twox_core.specs.Secret.{default_secret, derived_secret};

    /// Creates a stream with the seed 0 and the default secret.
    ///
    /// # Errors
    ///
    /// `AllocError` if out of memory.
    pub fn allocate_default(alloc: A) -> Result<AllocRawHasher<A>, AllocError>
        ensures { IfOk result (λ h. Represents boxed_slice_items h (Some 0) default_secret []) }
    {
        Ok(RawHasherCore::new(SecretBuffer::allocate_default(alloc)?))
    }

    /// Creates a stream with the seed and the secret derived from it.
    ///
    /// # Errors
    ///
    /// `AllocError` if out of memory.
    pub fn allocate_with_seed(alloc: A, seed: u64) -> Result<AllocRawHasher<A>, AllocError>
        ensures { let s = derived_secret seed in
            IfOk result (λ h. Represents boxed_slice_items h (Some seed) s []) }
    {
        Ok(RawHasherCore::new(SecretBuffer::allocate_with_seed(alloc, seed)?))
    }

    /// Creates a stream with the seed and the secret. Allocates nothing.
    ///
    /// # Errors
    ///
    /// Returns the secret in the error if it has fewer than 136 bytes.
    pub fn allocate_with_seed_and_secret(
        seed: u64,
        secret: BoxedSlice<u8, A>,
    ) -> Result<AllocRawHasher<A>, SecretTooShortError<BoxedSlice<u8, A>>>
        ensures { MatchResult result
            (λ h. (136 ≤ length (boxed_slice_items secret)) × Represents boxed_slice_items h (Some seed) (boxed_slice_items secret) [])
            (λ e. (length (boxed_slice_items secret) < 136) × (e ≡ secret)) }
    {
        let secret_buffer = SecretBuffer::allocate_with_seed_and_secret(seed, secret)?;
        Ok(RawHasherCore::new(secret_buffer))
    }

    /// Creates a stream with only the secret, used at every length with the seed 0. Allocates nothing.
    ///
    /// # Errors
    ///
    /// Returns the secret in the error if it has fewer than 136 bytes.
    pub fn allocate_with_secret(
        secret: BoxedSlice<u8, A>,
    ) -> Result<AllocRawHasher<A>, SecretTooShortError<BoxedSlice<u8, A>>>
        ensures { let s = boxed_slice_items secret in
            MatchResult result (λ h. (136 ≤ length s) × Represents boxed_slice_items h None s [])
            (λ e. (length s < 136) × (e ≡ secret)) }
    {
        let secret_buffer = SecretBuffer::allocate_with_secret(secret)?;
        Ok(RawHasherCore::new(secret_buffer))
    }
}
