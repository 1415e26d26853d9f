//! A stored secret with its seed, and the errors for a secret of the wrong length.

ghost use Rattle.std.specs.Prelude.{◌≡◌, ◌≤◌, length};
ghost use Rattle.twox_core.specs.SecretBytes.{secret_bytes};

use super::{ClonedBuffer, FixedBuffer, FixedMutBuffer};
use crate::xxhash3::{
    DEFAULT_SECRET_LENGTH, DEFAULT_SECRET_RAW, DEFAULT_SEED, DefaultSecret, SECRET_MINIMUM_LENGTH,
    Secret, derived_secret,
};
use std::alloc::{AllocError, Allocator};
use std::boxed::BoxedSlice;
use std::error::Error;
use std::fmt;
use std::marker::Model;

/// A secret of at least 136 bytes, and its seed, if it was made with one.
///
/// A stream over a buffer that was made with a seed hashes up to 240 bytes with the default secret and the seed, and
/// more with the secret. A stream over a buffer that was made with only a secret uses that at every length.
#[derive(Drop)]
pub struct SecretBuffer<S: FixedBuffer> {
    seed: Option<u64>,
    secret: S,
}

impl<S: FixedBuffer> Model for SecretBuffer<S> {
    ghost use Rattle.std.specs.Prelude.{◌≤◌, length};
    ghost use Rattle.twox_core.specs.StreamKey.{StreamKey};

    ghost Value = { StreamKey S };

    ghost view = { λ b. record { seed = b.seed; secret = b.secret } };

    ghost invariant = { λ b. 136 ≤ length (S.bytes b.secret) };
}

impl<S: FixedBuffer> SecretBuffer<S> {
    ghost use Rattle.std.specs.Prelude.{◌≡◌, ◌<◌, ◌≤◌, length, MatchResult};
    ghost use Rattle.twox_core.specs.StreamKey.{StreamKey};
    ghost use Rattle.twox_core.specs.SecretBytes.{secret_bytes};

    /// Stores the seed and the secret as they are.
    ///
    /// # Errors
    ///
    /// Returns the secret in the error if it has fewer than 136 bytes.
    pub fn new(seed: u64, secret: S) -> Result<SecretBuffer<S>, SecretTooShortError<S>>
        ensures { MatchResult result (λ b. (136 ≤ length (S.bytes secret)) × (b.seed
            ≡ Some seed) × (b.secret ≡ secret))
            (λ e. (length (S.bytes secret) < 136) × (e ≡ secret)) }
    {
        SecretBuffer::checked(Some(seed), secret)
    }

    /// Stores only the secret, used at every length with the seed 0.
    ///
    /// # Errors
    ///
    /// Returns the secret in the error if it has fewer than 136 bytes.
    pub fn with_secret(secret: S) -> Result<SecretBuffer<S>, SecretTooShortError<S>>
        ensures { let s = S.bytes secret in
            MatchResult result (λ b. (136 ≤ length s) × (b.seed ≡ None) × (b.secret ≡ secret))
            (λ e. (length s < 136) × (e ≡ secret)) }
    {
        SecretBuffer::checked(None, secret)
    }

    // Stores both, if the secret has its minimum length.
    fn checked(seed: Option<u64>, secret: S) -> Result<SecretBuffer<S>, SecretTooShortError<S>>
        ensures { let s = S.bytes secret in
            MatchResult result (λ b. (136 ≤ length s) × (b.seed ≡ seed) × (b.secret ≡ secret))
            (λ e. (length s < 136) × (e ≡ secret)) }
    {
        if secret.as_ref().len() >= SECRET_MINIMUM_LENGTH {
            Ok(SecretBuffer { seed, secret })
        } else {
            Err(SecretTooShortError { secret })
        }
    }

    /// Returns the secret.
    pub fn into_secret(self) -> S
        ensures { result ≡ self.secret }
    {
        let SecretBuffer { seed: _, secret } = self;
        secret
    }

    // Shows that the secret has its minimum length.
    #[inline(always)]
    pub(super) fn show_length(&self)
        ensures { 136 ≤ length (S.bytes self.now.secret) }
    {
        let _ = &self.seed;
    }

    // Returns the seed, if the buffer was made with one.
    #[inline(always)]
    pub(super) fn seed(&self) -> Option<u64>
        ensures { result ≡ self.now.seed }
    {
        self.seed
    }

    // Borrows the secret.
    #[inline(always)]
    pub(super) fn secret(&self) -> Secret<'_>
        ensures { secret_bytes result ≡ S.bytes self.now.secret }
    {
        secret_of(self.secret.as_ref())
    }
}

// Wraps the bytes of a buffer.
#[inline(always)]
fn secret_of(bytes: &[u8]) -> Secret<'_>
    requires { 136 ≤ length bytes.now }
    ensures { secret_bytes result ≡ bytes.now }
{
    Secret::new(bytes).unwrap()
}

impl<S: FixedMutBuffer> SecretBuffer<S> {
    ghost use Rattle.std.specs.Prelude.{◌≡◌, ◌≢◌, length, MatchResult};
    ghost use Rattle.twox_core.specs.Secret.{derived_secret};
    ghost use Rattle.twox_core.specs.StreamKey.{StreamKey};

    /// Overwrites the buffer with the secret derived from the seed, and stores it.
    ///
    /// # Errors
    ///
    /// Returns the unchanged buffer in the error if it is not exactly 192 bytes long.
    pub fn with_seed(seed: u64, mut secret: S) -> Result<SecretBuffer<S>, SecretWithSeedError<S>>
        ensures { MatchResult result (λ b. (length (S.FixedBuffer.bytes secret) ≡ 192) × (b.seed
            ≡ Some seed) × (S.FixedBuffer.bytes b.secret ≡ derived_secret seed))
            (λ e. (length (S.FixedBuffer.bytes secret) ≢ 192) × (e ≡ secret)) }
    {
        if secret.as_ref().len() != DEFAULT_SECRET_LENGTH {
            return Err(SecretWithSeedError { secret });
        }
        secret.as_mut().copy_from_slice(&derived_secret(seed));
        Ok(SecretBuffer {
            seed: Some(seed),
            secret,
        })
    }
}

impl SecretBuffer<DefaultSecret> {
    ghost use Rattle.std.specs.Prelude.{◌≡◌};
    ghost use Rattle.twox_core.specs.Secret.{default_secret};
    ghost use Rattle.twox_core.specs.StreamKey.{StreamKey};

    /// Stores the seed 0 and the default secret.
    #[tactic(auto, unfolding(crate::specs::Secret::default_secret))]
    pub fn default() -> SecretBuffer<DefaultSecret>
        ensures seed { result.seed ≡ Some 0 }
        ensures secret { result.secret ≡ default_secret }
    {
        SecretBuffer {
            seed: Some(DEFAULT_SEED),
            secret: DEFAULT_SECRET_RAW,
        }
    }
}

impl SecretBuffer<&'static DefaultSecret> {
    ghost use Rattle.std.specs.Prelude.{◌≡◌};
    ghost use Rattle.twox_core.specs.Secret.{default_secret};
    ghost use Rattle.twox_core.specs.StreamKey.{StreamKey};

    /// Stores the seed 0, and borrows the default secret.
    #[tactic(auto, unfolding(crate::specs::Secret::default_secret))]
    pub const fn borrowed_default() -> SecretBuffer<&'static DefaultSecret>
        ensures seed { result.seed ≡ Some 0 }
        ensures secret { result.secret.now ≡ default_secret }
    {
        SecretBuffer {
            seed: Some(DEFAULT_SEED),
            secret: &DEFAULT_SECRET_RAW,
        }
    }
}

impl<A: Allocator> SecretBuffer<BoxedSlice<u8, A>> {
    ghost use Rattle.std.specs.Prelude.{◌≡◌, ◌<◌, ◌≤◌, length, IfOk, MatchResult};
    ghost use Rattle.std.specs.Box.{boxed_slice_items};
    ghost use Rattle.twox_core.specs.Secret.{default_secret, derived_secret};
    ghost use Rattle.twox_core.specs.StreamKey.{StreamKey};

    /// Stores the seed 0 and the default secret, allocated.
    ///
    /// # Errors
    ///
    /// `AllocError` if out of memory.
    #[tactic(auto, unfolding(crate::specs::Secret::default_secret))]
    pub fn allocate_default(alloc: A) -> Result<SecretBuffer<BoxedSlice<u8, A>>, AllocError>
        ensures { IfOk result (λ b. (b.seed ≡ Some 0) × (boxed_slice_items b.secret
            ≡ default_secret)) }
    {
        Ok(SecretBuffer {
            seed: Some(DEFAULT_SEED),
            secret: BoxedSlice::from_slice(alloc, &DEFAULT_SECRET_RAW)?,
        })
    }

    /// Stores the seed and the secret derived from it, allocated.
    ///
    /// # Errors
    ///
    /// `AllocError` if out of memory.
    pub fn allocate_with_seed(
        alloc: A,
        seed: u64,
    ) -> Result<SecretBuffer<BoxedSlice<u8, A>>, AllocError>
        ensures { IfOk result (λ b. (b.seed ≡ Some seed) × (boxed_slice_items b.secret
            ≡ derived_secret seed)) }
    {
        Ok(SecretBuffer {
            seed: Some(seed),
            secret: BoxedSlice::from_slice(alloc, &derived_secret(seed))?,
        })
    }

    /// Stores the seed and the secret as they are. Allocates nothing.
    ///
    /// # Errors
    ///
    /// Returns the secret in the error if it has fewer than 136 bytes.
    pub fn allocate_with_seed_and_secret(
        seed: u64,
        secret: BoxedSlice<u8, A>,
    ) -> Result<SecretBuffer<BoxedSlice<u8, A>>, SecretTooShortError<BoxedSlice<u8, A>>>
        ensures { MatchResult result (λ b. (136 ≤ length (boxed_slice_items secret)) × (b.seed
            ≡ Some seed) × (b.secret ≡ secret))
            (λ e. (length (boxed_slice_items secret) < 136) × (e ≡ secret)) }
    {
        SecretBuffer::new(seed, secret)
    }

    /// Stores only the secret, used at every length with the seed 0. Allocates nothing.
    ///
    /// # Errors
    ///
    /// Returns the secret in the error if it has fewer than 136 bytes.
    pub fn allocate_with_secret(
        secret: BoxedSlice<u8, A>,
    ) -> Result<SecretBuffer<BoxedSlice<u8, A>>, SecretTooShortError<BoxedSlice<u8, A>>>
        ensures { let s = boxed_slice_items secret in
            MatchResult result (λ b. (136 ≤ length s) × (b.seed ≡ None) × (b.secret ≡ secret))
            (λ e. (length s < 136) × (e ≡ secret)) }
    {
        SecretBuffer::with_secret(secret)
    }
}

impl<S: ClonedBuffer> Clone for SecretBuffer<S> {
    ghost use Rattle.std.specs.Prelude.{◌≡◌};
    ghost use Rattle.twox_core.specs.StreamKey.{StreamKey};

    ghost is_clone = { λ a b. (b.seed ≡ a.seed) × (S.FixedBuffer.bytes b.secret ≡ S.FixedBuffer.bytes a.secret) };

    ghost is_infallible = { λ b. S.Clone.is_infallible b.secret };

    fn clone(&self) -> Result<SecretBuffer<S>, AllocError> {
        let secret = self.secret.clone()?;
        Ok(SecretBuffer {
            seed: self.seed,
            secret,
        })
    }
}

/// The secret has fewer than 136 bytes.
#[derive(Drop)]
pub struct SecretTooShortError<S> {
    pub(crate) secret: S,
}

impl<S> Model for SecretTooShortError<S> {
    ghost Value = { S };

    ghost view = { λ e. e.secret };
}

impl<S> SecretTooShortError<S> {
    ghost use Rattle.std.specs.Prelude.{◌≡◌};

    /// Returns the secret that was passed in.
    pub fn into_secret(self) -> S
        ensures { result ≡ self }
    {
        let SecretTooShortError { secret } = self;
        secret
    }
}

impl<S> fmt::Debug for SecretTooShortError<S> {
    fn fmt<W: fmt::Write>(&self, f: &mut fmt::Formatter<W>) -> fmt::Result {
        f.write_str("SecretTooShortError")
    }
}

impl<S> fmt::Display for SecretTooShortError<S> {
    ghost use Rattle.std.specs.Prelude.{Some, codes};

    ghost output = { λ _. Some (codes "The secret must have at least 136 bytes") };

    fn fmt<W: fmt::Write>(&self, f: &mut fmt::Formatter<W>) -> fmt::Result {
        f.write_str("The secret must have at least 136 bytes")
    }
}

impl<S: Drop> Error for SecretTooShortError<S> {}

/// The buffer for a derived secret is not exactly 192 bytes long.
#[derive(Drop)]
pub struct SecretWithSeedError<S> {
    secret: S,
}

impl<S> Model for SecretWithSeedError<S> {
    ghost Value = { S };

    ghost view = { λ e. e.secret };
}

impl<S> SecretWithSeedError<S> {
    ghost use Rattle.std.specs.Prelude.{◌≡◌};

    /// Returns the buffer that was passed in.
    pub fn into_secret(self) -> S
        ensures { result ≡ self }
    {
        let SecretWithSeedError { secret } = self;
        secret
    }
}

impl<S> fmt::Debug for SecretWithSeedError<S> {
    fn fmt<W: fmt::Write>(&self, f: &mut fmt::Formatter<W>) -> fmt::Result {
        f.write_str("SecretWithSeedError")
    }
}

impl<S> fmt::Display for SecretWithSeedError<S> {
    ghost use Rattle.std.specs.Prelude.{Some, codes};

    ghost output = { λ _. Some (codes "The secret must be exactly 192 bytes") };

    fn fmt<W: fmt::Write>(&self, f: &mut fmt::Formatter<W>) -> fmt::Result {
        f.write_str("The secret must be exactly 192 bytes")
    }
}

impl<S: Drop> Error for SecretWithSeedError<S> {}
