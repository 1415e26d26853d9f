//! XXH3 128-bit.

ghost use Rattle.std.specs.Prelude.{◌≡◌, ◌↔◌, ◌<◌, length, IfOk, IsErr};
ghost use Rattle.twox_core.specs.Laws.{TellsOthers128, HasLowHalf64};
ghost use Rattle.twox_core.specs.Secret.{default_secret, derived_secret};
ghost use Rattle.twox_core.specs.Value.{effective_secret, xxh3_128};

use crate::streams::{BoxedStream, KeyedStream, LazyStream, RawStream};
use std::alloc::Global;
use twox_core::width_128;
pub use twox_core::width_128::Finalize128;
pub use twox_core::xxhash3::{
    ClonedBuffer, DEFAULT_SECRET_LENGTH, FixedBuffer, FixedMutBuffer, OneshotWithSecretError,
    SECRET_MINIMUM_LENGTH, SecretBuffer, SecretTooShortError, SecretWithSeedError,
};
use twox_core::xxhash3::{CUTOFF, Key, Secret, default_secret};
use twox_words::words::IntoU128;

/// Calculates the 128-bit hash, of all bytes at once or of chunks one after another. The secret of a stream is
/// allocated.
///
/// ```text
/// let mut hasher = Hasher::with_seed(alloc, 7)?;
/// hasher.write(b"some ");
/// hasher.write(b"bytes");
/// assert_eq!(hasher.finish_128(), Hasher::oneshot_with_seed(7, b"some bytes"));
/// ```
pub type Hasher<A = Global> = BoxedStream<Finalize128, A>;

/// A stream that derives its secret from its seed whenever it has an effect, and allocates nothing for it.
///
/// ```text
/// let mut hasher = LazyHasher::with_seed(alloc, 7);
/// hasher.write(b"some bytes");
/// assert_eq!(hasher.finish_128(), Hasher::oneshot_with_seed(7, b"some bytes"));
/// ```
pub type LazyHasher<A = Global> = LazyStream<Finalize128, A>;

/// A stream over a secret of the caller. Allocates nothing.
///
/// ```text
/// let secret = SecretBuffer::with_seed(7, [0; DEFAULT_SECRET_LENGTH])?;
/// let mut hasher = RawHasher::new(secret);
/// hasher.write(b"some bytes");
/// assert_eq!(hasher.finish_128(), Hasher::oneshot_with_seed(7, b"some bytes"));
/// ```
pub type RawHasher<S> = RawStream<Finalize128, S>;

impl Hasher<Global> {
    /// Hashes all bytes at once, with the default secret and the seed 0.
    ///
    /// No two different inputs of one length up to 16 bytes have the same hash, and an input of up to 16 bytes has
    /// another hash under every other seed. For 1 to 3 bytes and above 240 the low half is the 64-bit hash. All this is
    /// also true of the other one-shots, under their secrets.
    #[inline]
    pub fn oneshot(input: &[u8]) -> u128
        ensures value { result ≡ xxh3_128 0 default_secret input.now }
        ensures tells_others { TellsOthers128 0 default_secret input.now result }
        ensures low_half { HasLowHalf64 0 default_secret input.now result }
    {
        width_128::oneshot(input).into_u128()
    }

    /// Hashes all bytes at once, with a seed: up to 240 bytes with the default secret, above that with the secret
    /// derived from the seed.
    #[inline]
    pub fn oneshot_with_seed(seed: u64, input: &[u8]) -> u128
        ensures value { let s = effective_secret (derived_secret seed) input.now in
            result ≡ xxh3_128 seed s input.now }
        ensures tells_others { TellsOthers128 seed default_secret input.now result }
        ensures low_half { let s = effective_secret (derived_secret seed) input.now in
            HasLowHalf64 seed s input.now result }
    {
        width_128::oneshot_with_seed(seed, input).into_u128()
    }

    /// Hashes all bytes at once, with a secret and the seed 0, at every length.
    ///
    /// # Errors
    ///
    /// `OneshotWithSecretError` if the secret has fewer than 136 bytes.
    #[inline]
    pub fn oneshot_with_secret(secret: &[u8], input: &[u8]) -> Result<u128, OneshotWithSecretError>
        ensures refused { IsErr result ↔ (length secret.now < 136) }
        ensures value { IfOk result (λ x. x ≡ xxh3_128 0 secret.now input.now) }
        ensures tells_others { IfOk result (λ x. TellsOthers128 0 secret.now input.now x) }
        ensures low_half { IfOk result (λ x. HasLowHalf64 0 secret.now input.now x) }
    {
        let secret = Secret::new(secret)?;
        Ok(width_128::oneshot_with_secret(secret, input).into_u128())
    }

    /// Hashes all bytes at once, with a seed and a secret, of which only one has an effect: up to 240 bytes the seed,
    /// with the default secret, whatever secret is passed; above that the secret.
    ///
    /// # Errors
    ///
    /// `OneshotWithSecretError` if the input has more than 240 bytes and the secret fewer than 136.
    #[inline]
    #[tactic(auto, unfolding(twox_core::specs::Value::effective_secret))]
    pub fn oneshot_with_seed_and_secret(
        seed: u64,
        secret: &[u8],
        input: &[u8],
    ) -> Result<u128, OneshotWithSecretError>
        ensures refused { IsErr result ↔ ((240 < length input.now) × (length secret.now < 136)) }
        ensures value { let s = effective_secret secret.now input.now in
            IfOk result (λ x. x ≡ xxh3_128 seed s input.now) }
        ensures tells_others { IfOk result (λ x. TellsOthers128 seed default_secret input.now x) }
        ensures low_half { let s = effective_secret secret.now input.now in
            IfOk result (λ x. HasLowHalf64 seed s input.now x) }
    {
        if input.len() <= CUTOFF {
            return Ok(width_128::oneshot_short(default_secret(), seed, input).into_u128());
        }
        let own = Secret::new(secret)?;
        Ok(width_128::oneshot_long(own, input).into_u128())
    }
}

impl<K: Key> KeyedStream<Finalize128, K> {
    ghost use Rattle.std.specs.Prelude.{◌≡◌, ℕ, Option, List};
    ghost use Rattle.twox_core.specs.Value.{stream_128};
    ghost use Rattle.twox_core.specs.Represents.{Represents};
    ghost use Rattle.twox_hash.specs.Streams.{value_128};

    /// Returns the hash of the bytes written so far. More can be written afterwards. Up to 240 bytes it uses the
    /// default secret and the seed or, if the stream was made with only a secret, that secret and the seed 0; above
    /// that it uses the stream's secret and no seed.
    #[inline]
    #[tactic(auto, unfolding(crate::specs::Streams::value_128))]
    pub fn finish_128(&self) -> u128
        ensures message { (seed : Option ℕ) (s m : List ℕ)
            → Represents K.bytes self.now seed s m
            → result ≡ stream_128 seed s m }
        ensures exact { result ≡ value_128 K.bytes self.now }
    {
        self.inner().finish(Finalize128)
    }
}

impl<S: FixedBuffer> RawHasher<S> {
    ghost use Rattle.std.specs.Prelude.{◌≡◌, ℕ, Option, List};
    ghost use Rattle.twox_core.specs.Value.{stream_128};
    ghost use Rattle.twox_core.specs.Represents.{Represents};
    ghost use Rattle.twox_hash.specs.Streams.{value_128};

    /// Returns the hash of the bytes written so far. More can be written afterwards. Up to 240 bytes it uses the
    /// default secret and the seed or, if the stream was made with only a secret, that secret and the seed 0; above
    /// that it uses the stream's secret and no seed.
    #[inline]
    #[tactic(auto, unfolding(crate::specs::Streams::value_128))]
    pub fn finish_128(&self) -> u128
        ensures message { (seed : Option ℕ) (s m : List ℕ) → Represents S.bytes self.now seed s m
            → result ≡ stream_128 seed s m }
        ensures exact { result ≡ value_128 S.bytes self.now }
    {
        self.core().finish(Finalize128)
    }
}
