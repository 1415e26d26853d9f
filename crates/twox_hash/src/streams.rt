//! Code shared by the streams of both widths: a core that takes the bytes, and the finalizer that computes the value.
//! Each width's module adds its names, `Hasher`, `LazyHasher` and `RawHasher`, and its last call.

use std::alloc::{AllocError, Allocator, Global};
use std::boxed::BoxedSlice;
use std::marker::{Model, PhantomData};
use twox_core::xxhash3::{
    ClonedBuffer, ClonedKey, DEFAULT_SEED, Finalize, FixedBuffer, Key, KeyedCore, LazyKey,
    RawHasherCore, SecretBuffer, SecretTooShortError,
};

/// A stream over a secret of the caller. Allocates nothing. Its names are `xxhash3_64::RawHasher` and
/// `xxhash3_128::RawHasher`.
#[derive(Drop)]
pub struct RawStream<F: Finalize, S: FixedBuffer> {
    core: RawHasherCore<S>,
    finalizer: PhantomData<F>,
}

impl<F: Finalize, S: FixedBuffer> Model for RawStream<F, S> {
    ghost use Rattle.twox_core.specs.CoreView.{CoreView};

    ghost Value = { CoreView S };

    ghost view = { λ h. h.core };
}

impl<F: Finalize, S: FixedBuffer> RawStream<F, S> {
    ghost use Rattle.std.specs.Prelude.{◌≡◌, ℕ, Option, List, []};
    ghost use Rattle.twox_core.specs.CoreView.{CoreView};
    ghost use Rattle.twox_core.specs.AfterWrite.{core_after_write};
    ghost use Rattle.twox_core.specs.Represents.{Represents, TakesPiece};

    /// Creates a stream of no bytes, with the seed and the secret of the buffer.
    pub fn new(secret_buffer: SecretBuffer<S>) -> RawStream<F, S>
        ensures { Represents S.bytes result secret_buffer.seed (S.bytes secret_buffer.secret) [] }
    {
        RawStream {
            core: RawHasherCore::new(secret_buffer),
            finalizer: PhantomData,
        }
    }

    /// Hashes a chunk after the bytes before.
    #[inline]
    pub fn write(&mut self, input: &[u8])
        ensures message { TakesPiece S.bytes self.old self.new input.now }
        ensures exact { self.new ≡ core_after_write S.bytes self.old input.now }
    {
        self.core.write(input);
    }

    /// Hashes the bytes of an array after the bytes before, as `write` does.
    #[inline(always)]
    pub fn write_array<const N: usize>(&mut self, bytes: &[u8; N])
        ensures message { TakesPiece S.bytes self.old self.new bytes.now }
        ensures exact { self.new ≡ core_after_write S.bytes self.old bytes.now }
    {
        self.core.write_array(bytes);
    }

    /// Returns the secret that was passed in.
    pub fn into_secret(self) -> S
        ensures exact { result ≡ self.key.secret }
        ensures message { (seed : Option ℕ) (s m : List ℕ) → Represents S.bytes self seed s m
            → S.bytes result ≡ s }
    {
        let RawStream { core, finalizer: _ } = self;
        core.into_secret()
    }

    // Borrows the core, for the last call of a width.
    #[inline(always)]
    pub(crate) fn core(&self) -> &RawHasherCore<S>
        ensures { result.now ≡ self.now }
    {
        &self.core
    }
}

impl<F: Finalize, S: ClonedBuffer> Clone for RawStream<F, S> {
    ghost use Rattle.twox_core.specs.Represents.{IsCopy};

    ghost is_clone = { λ a b. IsCopy S.FixedBuffer.bytes a b };

    ghost is_infallible = { λ h. S.Clone.is_infallible h.key.secret };

    fn clone(&self) -> Result<RawStream<F, S>, AllocError> {
        let core = self.core.clone()?;
        Ok(RawStream {
            core,
            finalizer: PhantomData,
        })
    }
}

/// A stream over a key. Its names are `Hasher` and `LazyHasher` of `xxhash3_64` and `xxhash3_128`.
#[derive(Drop)]
pub struct KeyedStream<F: Finalize, K: Key> {
    inner: KeyedCore<K>,
    finalizer: PhantomData<F>,
}

impl<F: Finalize, K: Key> Model for KeyedStream<F, K> {
    ghost use Rattle.twox_core.specs.CoreView.{CoreView};

    ghost Value = { CoreView K.Held };

    ghost view = { λ h. h.inner };
}

impl<F: Finalize, K: Key> KeyedStream<F, K> {
    ghost use Rattle.std.specs.Prelude.{◌≡◌, ℕ, Option, List};
    ghost use Rattle.twox_core.specs.CoreView.{CoreView};
    ghost use Rattle.twox_core.specs.AfterWrite.{core_after_write};
    ghost use Rattle.twox_core.specs.Represents.{Represents, TakesPiece};

    #[inline(always)]
    fn over(inner: KeyedCore<K>) -> KeyedStream<F, K>
        ensures { result ≡ inner }
    {
        KeyedStream {
            inner,
            finalizer: PhantomData,
        }
    }

    /// Hashes a chunk after the bytes before.
    #[inline]
    pub fn write(&mut self, input: &[u8])
        ensures message { TakesPiece K.bytes self.old self.new input.now }
        ensures exact { self.new ≡ core_after_write K.bytes self.old input.now }
    {
        self.inner.write(input);
    }

    /// Hashes the bytes of an array after the bytes before, as `write` does.
    #[inline(always)]
    pub fn write_array<const N: usize>(&mut self, bytes: &[u8; N])
        ensures message { TakesPiece K.bytes self.old self.new bytes.now }
        ensures exact { self.new ≡ core_after_write K.bytes self.old bytes.now }
    {
        self.inner.write_array(bytes);
    }

    // Borrows the core, for the last call of a width.
    #[inline(always)]
    pub(crate) fn inner(&self) -> &KeyedCore<K>
        ensures { result.now ≡ self.now }
    {
        &self.inner
    }
}

/// A stream whose secret is allocated: `xxhash3_64::Hasher` and `xxhash3_128::Hasher`.
pub type BoxedStream<F, A = Global> = KeyedStream<F, SecretBuffer<BoxedSlice<u8, A>>>;

impl<F: Finalize, A: Allocator> BoxedStream<F, A> {
    ghost use Rattle.std.specs.Prelude.{◌≡◌, ℕ, Option, List, [], ◌<◌, ◌≤◌, length, IfOk, MatchResult};
    ghost use Rattle.std.specs.Box.{boxed_slice_items};
    ghost use Rattle.twox_core.specs.Secret.{default_secret, derived_secret};
    ghost use Rattle.twox_core.specs.CoreView.{CoreView};
    ghost use Rattle.twox_core.specs.Represents.{Represents};

    /// Creates a stream of no bytes, with the seed 0 and the default secret.
    ///
    /// # Errors
    ///
    /// `AllocError` if out of memory.
    pub fn new(alloc: A) -> Result<BoxedStream<F, A>, AllocError>
        ensures { IfOk result (λ h. Represents boxed_slice_items h (Some 0) default_secret []) }
    {
        let buffer = SecretBuffer::allocate_default(alloc)?;
        Ok(KeyedStream::over(KeyedCore::new(buffer)))
    }

    /// Creates a stream of no bytes, with the seed 0 and the default secret, as [`BoxedStream::new`] does.
    ///
    /// # Errors
    ///
    /// `AllocError` if out of memory.
    pub fn default(alloc: A) -> Result<BoxedStream<F, A>, AllocError>
        ensures { IfOk result (λ h. Represents boxed_slice_items h (Some 0) default_secret []) }
    {
        BoxedStream::new(alloc)
    }

    /// Creates a stream of no bytes, with the seed and the secret derived from it.
    ///
    /// # Errors
    ///
    /// `AllocError` if out of memory.
    pub fn with_seed(alloc: A, seed: u64) -> Result<BoxedStream<F, A>, AllocError>
        ensures { let s = derived_secret seed in
            IfOk result (λ h. Represents boxed_slice_items h (Some seed) s []) }
    {
        let buffer = SecretBuffer::allocate_with_seed(alloc, seed)?;
        Ok(KeyedStream::over(KeyedCore::new(buffer)))
    }

    /// Creates a stream of no bytes, with the seed and the secret. Allocates nothing.
    ///
    /// # Errors
    ///
    /// Returns the secret in the error if it has fewer than 136 bytes.
    pub fn with_seed_and_secret(
        seed: u64,
        secret: BoxedSlice<u8, A>,
    ) -> Result<BoxedStream<F, A>, SecretTooShortError<BoxedSlice<u8, A>>>
        ensures { let s = boxed_slice_items secret in
            MatchResult result (λ h. (136 ≤ length s) × Represents boxed_slice_items h (Some seed) s [])
            (λ e. (length s < 136) × (e ≡ secret)) }
    {
        let buffer = SecretBuffer::allocate_with_seed_and_secret(seed, secret)?;
        Ok(KeyedStream::over(KeyedCore::new(buffer)))
    }

    /// Creates a stream of no bytes, with only the secret, which it uses at every length with the seed 0. Allocates
    /// nothing.
    ///
    /// # Errors
    ///
    /// Returns the secret in the error if it has fewer than 136 bytes.
    pub fn with_secret(
        secret: BoxedSlice<u8, A>,
    ) -> Result<BoxedStream<F, A>, SecretTooShortError<BoxedSlice<u8, A>>>
        ensures { let s = boxed_slice_items secret in
            MatchResult result (λ h. (136 ≤ length s) × Represents boxed_slice_items h None s [])
            (λ e. (length s < 136) × (e ≡ secret)) }
    {
        let buffer = SecretBuffer::allocate_with_secret(secret)?;
        Ok(KeyedStream::over(KeyedCore::new(buffer)))
    }

    /// Returns the secret that was passed in or derived.
    pub fn into_secret(self) -> BoxedSlice<u8, A>
        ensures exact { result ≡ self.key.secret }
        ensures message { (seed : Option ℕ) (s m : List ℕ)
            → Represents boxed_slice_items self seed s m
            → boxed_slice_items result ≡ s }
    {
        let KeyedStream {
            inner,
            finalizer: _,
        } = self;
        inner.into_secret()
    }
}

/// A stream that derives its secret whenever it has an effect: `xxhash3_64::LazyHasher` and `xxhash3_128::LazyHasher`.
pub type LazyStream<F, A = Global> = KeyedStream<F, LazyKey<A>>;

impl<F: Finalize, A: Allocator> LazyStream<F, A> {
    ghost use Rattle.std.specs.Prelude.{◌≡◌, ℕ, Option, List, [], ◌<◌, ◌≤◌, length, IfOk, MatchResult};
    ghost use Rattle.std.specs.Box.{boxed_slice_items};
    ghost use Rattle.twox_core.specs.CoreView.{CoreView};
    ghost use Rattle.twox_core.specs.Represents.{Represents};
    ghost use Rattle.twox_core.specs.Secret.{default_secret, derived_secret};
    ghost use Rattle.twox_core.specs.StreamState.{own};

    /// Creates a stream of no bytes, with the seed 0 and the default secret. Allocates nothing.
    #[inline(always)]
    #[tactic(auto, using(twox_core::proofs::Vectors::derived_secret_none))]
    pub fn new(alloc: A) -> LazyStream<F, A>
        ensures { Represents own result (Some 0) default_secret [] }
    {
        KeyedStream::over(KeyedCore::with_seed(alloc, DEFAULT_SEED))
    }

    /// Creates a stream of no bytes, with the seed and the secret derived from it. Allocates nothing.
    #[inline(always)]
    pub fn with_seed(alloc: A, seed: u64) -> LazyStream<F, A>
        ensures { Represents own result (Some seed) (derived_secret seed) [] }
    {
        KeyedStream::over(KeyedCore::with_seed(alloc, seed))
    }

    /// Creates a stream of no bytes, with the seed and the secret. Allocates nothing.
    ///
    /// # Errors
    ///
    /// Returns the secret in the error if it has fewer than 136 bytes.
    pub fn with_seed_and_secret(
        seed: u64,
        secret: BoxedSlice<u8, A>,
    ) -> Result<LazyStream<F, A>, SecretTooShortError<BoxedSlice<u8, A>>>
        ensures { let s = boxed_slice_items secret in
            MatchResult result (λ h. (136 ≤ length s) × Represents own h (Some seed) s [])
            (λ e. (length s < 136) × (e ≡ secret)) }
    {
        let given = SecretBuffer::allocate_with_seed_and_secret(seed, secret)?;
        Ok(KeyedStream::over(KeyedCore::given(given)))
    }

    /// Returns the secret that was passed in or is derived from the seed.
    ///
    /// # Errors
    ///
    /// `AllocError` if it is derived, and out of memory.
    #[tactic(auto, unfolding(twox_core::specs::Represents::Represents))]
    pub fn into_secret(self) -> Result<BoxedSlice<u8, A>, AllocError>
        ensures exact { IfOk result (λ b. boxed_slice_items b ≡ self.key.secret) }
        ensures message { (seed : Option ℕ) (s m : List ℕ)
            → Represents own self seed s m
            → IfOk result (λ b. boxed_slice_items b ≡ s) }
    {
        let KeyedStream {
            inner: keyed,
            finalizer: _,
        } = self;
        keyed.into_secret()
    }
}

impl<F: Finalize, K: ClonedKey> Clone for KeyedStream<F, K> {
    ghost use Rattle.twox_core.specs.Represents.{IsCopy};

    ghost is_clone = { λ a b. IsCopy K.Key.bytes a b };

    fn clone(&self) -> Result<KeyedStream<F, K>, AllocError> {
        let inner = self.inner.clone()?;
        Ok(KeyedStream::over(inner))
    }
}
