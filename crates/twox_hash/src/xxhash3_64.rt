//! XXH3 64-bit.

ghost use Rattle.std.specs.Prelude.{◌≡◌, ◌↔◌, ◌<◌, length, IfOk, IsErr};
ghost use Rattle.twox_core.specs.Laws.{TellsOthers64};
ghost use Rattle.twox_core.specs.Secret.{default_secret, derived_secret};
ghost use Rattle.twox_core.specs.Value.{effective_secret, xxh3_64};

use crate::streams::{BoxedStream, KeyedStream, LazyStream, RawStream};
use std::alloc::Global;
use std::hash;
use twox_core::width_64;
pub use twox_core::width_64::Finalize64;
pub use twox_core::xxhash3::{
    ClonedBuffer, DEFAULT_SECRET_LENGTH, FixedBuffer, FixedMutBuffer, OneshotWithSecretError,
    SECRET_MINIMUM_LENGTH, SecretBuffer, SecretTooShortError, SecretWithSeedError,
};
use twox_core::xxhash3::{CUTOFF, Key, Secret, default_secret};

/// Calculates the 64-bit hash, of all bytes at once or of chunks one after another. The secret of a stream is
/// allocated.
///
/// ```text
/// let mut hasher = Hasher::with_seed(alloc, 7)?;
/// hasher.write(b"some ");
/// hasher.write(b"bytes");
/// assert_eq!(hasher.finish(), Hasher::oneshot_with_seed(7, b"some bytes"));
/// ```
pub type Hasher<A = Global> = BoxedStream<Finalize64, A>;

/// A stream that derives its secret from its seed whenever it has an effect, and allocates nothing for it.
///
/// ```text
/// let mut hasher = LazyHasher::with_seed(alloc, 7);
/// hasher.write(b"some bytes");
/// assert_eq!(hasher.finish(), Hasher::oneshot_with_seed(7, b"some bytes"));
/// ```
pub type LazyHasher<A = Global> = LazyStream<Finalize64, A>;

/// A stream over a secret of the caller. Allocates nothing.
///
/// ```text
/// let secret = SecretBuffer::with_seed(7, [0; DEFAULT_SECRET_LENGTH])?;
/// let mut hasher = RawHasher::new(secret);
/// hasher.write(b"some bytes");
/// assert_eq!(hasher.finish(), Hasher::oneshot_with_seed(7, b"some bytes"));
/// ```
pub type RawHasher<S> = RawStream<Finalize64, S>;

impl Hasher<Global> {
    /// Hashes all bytes at once, with the default secret and the seed 0.
    ///
    /// No two different inputs of 1 to 3 bytes have the same hash, nor have two of one length from 4 to 8. An input of
    /// up to 8 bytes has another hash under every other seed. All this is also true of the other one-shots, under their
    /// secrets.
    #[inline]
    pub fn oneshot(input: &[u8]) -> u64
        ensures value { result ≡ xxh3_64 0 default_secret input.now }
        ensures tells_others { TellsOthers64 0 default_secret input.now result }
    {
        width_64::oneshot(input)
    }

    /// Hashes all bytes at once, with a seed: up to 240 bytes with the default secret, above that with the secret
    /// derived from the seed.
    #[inline]
    pub fn oneshot_with_seed(seed: u64, input: &[u8]) -> u64
        ensures value { let s = effective_secret (derived_secret seed) input.now in
            result ≡ xxh3_64 seed s input.now }
        ensures tells_others { TellsOthers64 seed default_secret input.now result }
    {
        width_64::oneshot_with_seed(seed, input)
    }

    /// Hashes all bytes at once, with a secret and the seed 0, at every length.
    ///
    /// # Errors
    ///
    /// `OneshotWithSecretError` if the secret has fewer than 136 bytes.
    #[tactic(auto, using(twox_core::proofs::OneshotLaws::tells_others_64))]
    #[inline]
    pub fn oneshot_with_secret(secret: &[u8], input: &[u8]) -> Result<u64, OneshotWithSecretError>
        ensures refused { IsErr result ↔ (length secret.now < 136) }
        ensures value { IfOk result (λ x. x ≡ xxh3_64 0 secret.now input.now) }
        ensures tells_others { IfOk result (λ x. TellsOthers64 0 secret.now input.now x) }
    {
        let secret = Secret::new(secret)?;
        Ok(width_64::oneshot_with_secret(secret, input))
    }

    /// Hashes all bytes at once, with a seed and a secret, of which only one has an effect: up to 240 bytes the seed,
    /// with the default secret, whatever secret is passed; above that the secret.
    ///
    /// # Errors
    ///
    /// `OneshotWithSecretError` if the input has more than 240 bytes and the secret fewer than 136.
    #[inline]
    #[tactic(auto, unfolding(twox_core::specs::Value::effective_secret))]
    pub fn oneshot_with_seed_and_secret(
        seed: u64,
        secret: &[u8],
        input: &[u8],
    ) -> Result<u64, OneshotWithSecretError>
        ensures refused { IsErr result ↔ ((240 < length input.now) × (length secret.now < 136)) }
        ensures value { let s = effective_secret secret.now input.now in
            IfOk result (λ x. x ≡ xxh3_64 seed s input.now) }
        ensures tells_others { IfOk result (λ x. TellsOthers64 seed default_secret input.now x) }
    {
        if input.len() <= CUTOFF {
            return Ok(width_64::oneshot_short(default_secret(), seed, input));
        }
        let own = Secret::new(secret)?;
        Ok(width_64::oneshot_long(own, input))
    }
}

impl<K: Key> KeyedStream<Finalize64, K> {
    ghost use Rattle.std.specs.Prelude.{◌≡◌, ℕ, Option, List};
    ghost use Rattle.twox_core.specs.Value.{stream_64};
    ghost use Rattle.twox_core.specs.Represents.{Represents};
    ghost use Rattle.twox_hash.specs.Streams.{value_64};

    /// Returns the hash of the bytes written so far. More can be written afterwards. Up to 240 bytes it uses the
    /// default secret and the seed or, if the stream was made with only a secret, that secret and the seed 0; above
    /// that it uses the stream's secret and no seed.
    #[inline]
    #[tactic(auto, unfolding(crate::specs::Streams::value_64))]
    pub fn finish(&self) -> u64
        ensures message { (seed : Option ℕ) (s m : List ℕ)
            → Represents K.bytes self.now seed s m
            → result ≡ stream_64 seed s m }
        ensures exact { result ≡ value_64 K.bytes self.now }
    {
        self.inner().finish(Finalize64)
    }
}

impl<S: FixedBuffer> RawHasher<S> {
    ghost use Rattle.std.specs.Prelude.{◌≡◌, ℕ, Option, List};
    ghost use Rattle.twox_core.specs.Value.{stream_64};
    ghost use Rattle.twox_core.specs.Represents.{Represents};
    ghost use Rattle.twox_hash.specs.Streams.{value_64};

    /// Returns the hash of the bytes written so far. More can be written afterwards. Up to 240 bytes it uses the
    /// default secret and the seed or, if the stream was made with only a secret, that secret and the seed 0; above
    /// that it uses the stream's secret and no seed.
    #[inline]
    #[tactic(auto, unfolding(crate::specs::Streams::value_64))]
    pub fn finish(&self) -> u64
        ensures message { (seed : Option ℕ) (s m : List ℕ) → Represents S.bytes self.now seed s m
            → result ≡ stream_64 seed s m }
        ensures exact { result ≡ value_64 S.bytes self.now }
    {
        self.core().finish(Finalize64)
    }
}

impl<K: Key> hash::Hasher for KeyedStream<Finalize64, K> {
    ghost use Rattle.std.specs.Prelude.{◌≡◌, ℕ, Option, List};
    ghost use Rattle.twox_core.specs.Value.{stream_64};
    ghost use Rattle.twox_core.specs.Represents.{Represents, TakesPiece};
    ghost use Rattle.twox_core.specs.AfterWrite.{core_after_write};
    ghost use Rattle.twox_hash.specs.Streams.{value_64};

    ghost write = { λ h bytes. core_after_write K.bytes h bytes };

    ghost finish = { λ h. value_64 K.bytes h };

    fn finish(&self) -> u64
        ensures message { (seed : Option ℕ) (s m : List ℕ)
            → Represents K.bytes self.now seed s m
            → result ≡ stream_64 seed s m }
        ensures exact { result ≡ value_64 K.bytes self.now }
    {
        KeyedStream::finish(self)
    }

    fn write(&mut self, bytes: &[u8])
        ensures message { TakesPiece K.bytes self.old self.new bytes.now }
        ensures exact { self.new ≡ core_after_write K.bytes self.old bytes.now }
    {
        KeyedStream::write(self, bytes);
    }
}

impl<S: FixedBuffer> hash::Hasher for RawHasher<S> {
    ghost use Rattle.std.specs.Prelude.{◌≡◌, ℕ, Option, List};
    ghost use Rattle.twox_core.specs.Value.{stream_64};
    ghost use Rattle.twox_core.specs.Represents.{Represents, TakesPiece};
    ghost use Rattle.twox_core.specs.AfterWrite.{core_after_write};
    ghost use Rattle.twox_hash.specs.Streams.{value_64};

    ghost write = { λ h bytes. core_after_write S.bytes h bytes };

    ghost finish = { λ h. value_64 S.bytes h };

    fn finish(&self) -> u64
        ensures message { (seed : Option ℕ) (s m : List ℕ) → Represents S.bytes self.now seed s m
            → result ≡ stream_64 seed s m }
        ensures exact { result ≡ value_64 S.bytes self.now }
    {
        RawHasher::finish(self)
    }

    fn write(&mut self, bytes: &[u8])
        ensures message { TakesPiece S.bytes self.old self.new bytes.now }
        ensures exact { self.new ≡ core_after_write S.bytes self.old bytes.now }
    {
        RawStream::write(self, bytes);
    }
}
