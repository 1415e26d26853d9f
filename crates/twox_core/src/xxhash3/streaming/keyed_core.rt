//! The streaming core over a key, which is a few bytes before its buffer begins.

ghost use Rattle.std.specs.Prelude.{◌≡◌, ◌≤◌, length};
ghost use Rattle.std.specs.Box.{boxed_slice_items};

use super::stream_state::StreamState;
use super::{ClonedKey, FixedBuffer, Key, LazyKey, SecretBuffer};
use crate::xxhash3::Finalize;
use std::alloc::{AllocError, Allocator};
use std::boxed::BoxedSlice;
use std::marker::Model;

/// A stream of bytes whose value any finalizer (`Finalize`) can return at any moment.
///
/// Up to 128 bytes are only stored. A buffer and accumulators begin with the first chunk for which these have no room.
#[derive(Drop)]
pub struct KeyedCore<K: Key> {
    key: K,
    state: StreamState,
}

impl<K: Key> Model for KeyedCore<K> {
    ghost use Rattle.std.specs.Prelude.{◌≤◌};
    ghost use Rattle.twox_core.specs.CoreView.{CoreView};
    ghost use Rattle.twox_core.specs.InRange.{IsInRange};
    ghost use Rattle.twox_core.specs.StreamState.{IsShort, state_of};

    ghost Value = { CoreView K.Held };

    ghost view = { λ h. record { key = K.key h.key; state = state_of h.state } };

    ghost invariant = { λ h. IsInRange (K.bytes (K.key h.key).secret) (state_of h.state) × IsShort h.state };
}

impl<K: Key> KeyedCore<K> {
    ghost use Rattle.std.specs.Prelude.{◌≡◌, ℕ, Option, List, [], ◌++◌, ◌+◌, ◌*◌, ◌^◌, ◌<◌, ◌≤◌, length};
    ghost use Rattle.twox_words.specs.Word.{counted};
    ghost use Rattle.twox_core.specs.Value.{short_secret, stream_seed};
    ghost use Rattle.twox_core.specs.Ending.{stream_accumulators, stream_block, last_stripe};
    ghost use Rattle.twox_core.specs.AfterWrite.{core_after_write};
    ghost use Rattle.twox_core.specs.CoreView.{CoreView};
    ghost use Rattle.twox_core.specs.Finish.{core_finish};
    ghost use Rattle.twox_core.specs.Represents.{Represents, TakesPiece};

    // Creates a stream of no bytes.
    #[inline(always)]
    fn over(key: K) -> KeyedCore<K>
        requires { 136 ≤ length (K.bytes (K.key key).secret) }
        ensures { Represents K.bytes result (K.key key).seed (K.bytes (K.key key).secret) [] }
    {
        KeyedCore {
            key,
            state: StreamState::new(),
        }
    }

    /// Hashes a chunk after the bytes before.
    #[inline(always)]
    pub fn write(&mut self, input: &[u8])
        ensures message { TakesPiece K.bytes self.old self.new input.now }
        ensures exact { self.new ≡ core_after_write K.bytes self.old input.now }
    {
        if !self.state.hold(input) {
            self.write_far(input);
        }
    }

    /// Hashes the bytes of an array after the bytes before, as [`KeyedCore::write`] does.
    #[inline(always)]
    pub fn write_array<const N: usize>(&mut self, bytes: &[u8; N])
        ensures message { TakesPiece K.bytes self.old self.new bytes.now }
        ensures exact { self.new ≡ core_after_write K.bytes self.old bytes.now }
    {
        if !self.state.hold_array(bytes) {
            self.write_any(&bytes[..]);
        }
    }

    // Separate function, so that short streams pay for nothing in it.
    #[inline(never)]
    fn write_any(&mut self, input: &[u8])
        ensures message { TakesPiece K.bytes self.old self.new input.now }
        ensures exact { self.new ≡ core_after_write K.bytes self.old input.now }
    {
        self.write(input);
    }

    // Separate function, so that chunks that fit the buffer pay for nothing in it.
    #[inline(never)]
    fn write_far(&mut self, input: &[u8])
        ensures message { TakesPiece K.bytes self.old self.new input.now }
        ensures exact { self.new ≡ core_after_write K.bytes self.old input.now }
    {
        self.key.write(&mut self.state, input);
    }

    /// Returns the value of the bytes taken so far, by `finalize`. Doesn't change the stream. Above 240 bytes it uses
    /// the stream's secret. Up to 240 bytes it uses the default secret and the stream's seed or, if the stream was made
    /// with only a secret, that secret and the seed 0.
    #[inline(always)]
    pub fn finish<F: Finalize + Drop>(&self, finalize: F) -> F::Output
        ensures short { (seed : Option ℕ) (s m : List ℕ) → Represents K.bytes self.now seed s m
            → length m ≤ 240
            → result ≡ F.small_of finalize (short_secret seed s) (stream_seed seed) m }
        ensures long { (seed : Option ℕ) (s m : List ℕ) → Represents K.bytes self.now seed s m
            → 240 < length m
            → result ≡ F.large_of finalize (stream_accumulators s m) (stream_block m) (last_stripe m) s (counted (length m)) }
        ensures exact { result
            ≡ core_finish (F.small_of finalize) (F.large_of finalize) K.bytes self.now }
    {
        self.key.finish(&self.state, &finalize)
    }
}

impl<S: FixedBuffer> KeyedCore<SecretBuffer<S>> {
    ghost use Rattle.std.specs.Prelude.{◌≡◌, ℕ, Option, List, []};
    ghost use Rattle.twox_core.specs.CoreView.{CoreView};
    ghost use Rattle.twox_core.specs.Represents.{Represents};

    /// Creates a stream of no bytes.
    #[inline(always)]
    pub fn new(secret_buffer: SecretBuffer<S>) -> KeyedCore<SecretBuffer<S>>
        ensures { Represents S.bytes result secret_buffer.seed (S.bytes secret_buffer.secret) [] }
    {
        KeyedCore::over(secret_buffer)
    }

    /// Returns the secret.
    #[tactic(auto, using(crate::proofs::StreamFacts::stands_secret))]
    pub fn into_secret(self) -> S
        ensures exact { result ≡ self.key.secret }
        ensures message { (seed : Option ℕ) (s m : List ℕ) → Represents S.bytes self seed s m
            → S.bytes result ≡ s }
    {
        let KeyedCore { key, state: _ } = self;
        key.into_secret()
    }
}

impl<A: Allocator> KeyedCore<LazyKey<A>> {
    ghost use Rattle.std.specs.Prelude.{◌≡◌, ℕ, Option, Some, List, [], IfOk};
    ghost use Rattle.std.specs.Box.{boxed_slice_items};
    ghost use Rattle.twox_core.specs.CoreView.{CoreView};
    ghost use Rattle.twox_core.specs.Represents.{Represents};
    ghost use Rattle.twox_core.specs.Secret.{derived_secret};
    ghost use Rattle.twox_core.specs.StreamState.{own};

    /// Creates a stream of no bytes, with the seed and the secret derived from it. Allocates nothing.
    #[inline(always)]
    pub fn with_seed(alloc: A, seed: u64) -> KeyedCore<LazyKey<A>>
        ensures { Represents own result (Some seed) (derived_secret seed) [] }
    {
        KeyedCore::over(LazyKey::Derived(seed, alloc))
    }

    /// Creates a stream of no bytes, with the seed and the secret of the buffer. Allocates nothing.
    pub fn given(secret_buffer: SecretBuffer<BoxedSlice<u8, A>>) -> KeyedCore<LazyKey<A>>
        ensures { let s = boxed_slice_items secret_buffer.secret in
            Represents own result secret_buffer.seed s [] }
    {
        secret_buffer.show_length();
        KeyedCore::over(LazyKey::Given(secret_buffer))
    }

    /// Returns the secret.
    ///
    /// # Errors
    ///
    /// `AllocError` if it is derived, and out of memory.
    pub fn into_secret(self) -> Result<BoxedSlice<u8, A>, AllocError>
        ensures { IfOk result (λ b. boxed_slice_items b ≡ self.key.secret) }
    {
        let KeyedCore { key, state: _ } = self;
        key.into_secret()
    }
}

impl<K: ClonedKey> Clone for KeyedCore<K> {
    ghost use Rattle.twox_core.specs.Represents.{IsCopy};

    ghost is_clone = { λ a b. IsCopy K.Key.bytes a b };

    fn clone(&self) -> Result<KeyedCore<K>, AllocError> {
        let key = self.key.clone()?;
        Ok(KeyedCore {
            key,
            state: self.state,
        })
    }
}
