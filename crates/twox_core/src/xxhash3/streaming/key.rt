//! What a stream takes its seed and its secret from.

ghost use Rattle.std.specs.Prelude.{◌≡◌, ◌≤◌, ℕ, List, Option, length};
ghost use Rattle.twox_core.specs.AfterWrite.{state_after_write};
ghost use Rattle.twox_core.specs.Finish.{state_finish};
ghost use Rattle.twox_core.specs.InRange.{IsInRange};
ghost use Rattle.twox_core.specs.StreamKey.{StreamKey};
ghost use Rattle.twox_core.specs.StreamState.{IsShort, state_of};

use super::stream_state::StreamState;
use super::{BUFFERED_BYTES, ClonedBuffer, FixedBuffer, SecretBuffer};
use crate::xxhash3::{Finalize, Kernel};

/// The seed and the secret of a stream.
///
/// A stream calls both functions under its own invariant, which is their `requires`.
pub trait Key {
    /// The secret, as clauses see it.
    type Held;

    // The seed, if there is one, and the secret.
    ghost key: { Self → StreamKey Self.Held };

    // The bytes of the secret.
    ghost bytes: { Self.Held → List ℕ };

    /// Hashes a chunk.
    fn write(&self, state: &mut StreamState, input: &[u8])
        requires few { IsShort state.old }
        requires range { IsInRange (bytes (key self.now).secret) (state_of state.old) }
        ensures exact { state_of state.new
            ≡ state_after_write (bytes (key self.now).secret) (state_of state.old) input.now }
        ensures in_range { IsInRange (bytes (key self.now).secret) (state_of state.new) }
        ensures few { IsShort state.new }
        ensures size { length (state_of state.old).buffer ≡ BUFFERED_BYTES };

    /// Returns the value of the bytes.
    fn finish<F: Finalize>(&self, state: &StreamState, finalize: &F) -> F::Output
        requires few { IsShort state.now }
        requires range { IsInRange (bytes (key self.now).secret) (state_of state.now) }
        ensures exact { let s = bytes (key self.now).secret in
            result ≡ state_finish (F.small_of finalize.now) (F.large_of finalize.now) (key self.now).seed s (state_of state.now) }
        ensures size { length (state_of state.now).buffer ≡ BUFFERED_BYTES };
}

/// A key whose clones have the same seed and a secret of the same bytes.
pub trait ClonedKey: Key + Clone {
    ghost copies: { (x y : Self) → Self.is_clone x y → ((Self.key y).seed ≡ (Self.key x).seed) × (Self.bytes (Self.key y).secret ≡ Self.bytes (Self.key x).secret) };
}

impl<S: FixedBuffer> Key for SecretBuffer<S> {
    type Held = S;

    ghost key = { λ b. b };

    ghost bytes = { S.bytes };

    #[inline(always)]
    fn write(&self, state: &mut StreamState, input: &[u8]) {
        state.write(input, self.secret());
    }

    #[inline(always)]
    fn finish<F: Finalize>(&self, state: &StreamState, finalize: &F) -> F::Output {
        state.finish(Kernel {}, finalize, self.seed(), self.secret())
    }
}

impl<S: FixedBuffer + ClonedBuffer> ClonedKey for SecretBuffer<S> {
    ghost copies = { λ x y h. h };
}
