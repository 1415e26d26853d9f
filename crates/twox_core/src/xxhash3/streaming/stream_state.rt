//! The state of a stream that has only its bytes while they are few, such as those of a map's key.

ghost use Rattle.std.specs.Prelude.{◌≡◌, ℕ, List, Some, None, ◌++◌, ◌+◌, ◌-◌, ◌<◌, ◌≤◌, length, take, IsTrue};
ghost use Rattle.twox_core.specs.SecretBytes.{secret_bytes};
ghost use Rattle.twox_core.specs.Secret.{derived_secret};

use super::core_state::{BUFFERED_BYTES, CoreState};
use super::short_bytes::{SHORT_BYTES, append, append_array};
use crate::xxhash3::{
    CUTOFF, DEFAULT_SEED, Finalize, Secret, Vector, default_secret, derived_secret,
};
use twox_words::words::IntoU64;

/// The state of a stream: up to 128 bytes, or a longer state that begins with the first chunk for which they have no
/// room.
#[derive(Clone, Copy)]
pub struct StreamState {
    /// Number of bytes, if there is no longer state.
    pub(super) used: usize,
    pub(super) short: [u8; SHORT_BYTES],
    pub(super) long: Option<CoreState>,
}

impl StreamState {
    ghost use Rattle.twox_core.specs.AfterWrite.{empty_state, state_after_write};
    ghost use Rattle.twox_core.specs.Finish.{state_finish};
    ghost use Rattle.twox_core.specs.InRange.{IsInRange};
    ghost use Rattle.twox_core.specs.StreamState.{IsShort, state_of};

    /// Returns the state of no bytes.
    #[inline(always)]
    pub(super) fn new() -> StreamState
        ensures state { state_of result ≡ empty_state }
        ensures few { IsShort result }
    {
        StreamState {
            used: 0,
            short: [0; SHORT_BYTES],
            long: None,
        }
    }

    /// Hashes a chunk that needs no secret. Returns false, and changes nothing, for another one.
    #[inline(always)]
    pub(super) fn hold(&mut self, input: &[u8]) -> bool
        requires few { IsShort self.old }
        requires room { (state_of self.old).counts.buffer_usage ≤ 512 }
        ensures held { IsTrue result → (s : List ℕ)
            → state_of self.new ≡ state_after_write s (state_of self.old) input.now }
        ensures refused { (¬ IsTrue result) → self.new ≡ self.old }
        ensures few { IsShort self.new }
        ensures in_range { (s : List ℕ) → IsInRange s (state_of self.old)
            → IsInRange s (state_of self.new) }
        ensures size { length (state_of self.old).buffer ≡ BUFFERED_BYTES }
    {
        match &mut self.long {
            Some(state) => {
                if !state.has_room(input.len()) {
                    return false;
                }
                state.hold(input);
                true
            }
            None => {
                let used = self.used;
                if input.len() > SHORT_BYTES - used {
                    return false;
                }
                self.used = used + input.len();
                append(&mut self.short, used, input);
                true
            }
        }
    }

    /// Hashes the bytes of an array if the stream stays short. Returns false, and changes nothing, if not. The length
    /// is known, so this is a few moves.
    #[inline(always)]
    pub(super) fn hold_array<const N: usize>(&mut self, bytes: &[u8; N]) -> bool
        requires few { IsShort self.old }
        ensures held { IsTrue result → (s : List ℕ)
            → state_of self.new ≡ state_after_write s (state_of self.old) bytes.now }
        ensures refused { (¬ IsTrue result) → self.new ≡ self.old }
        ensures few { IsShort self.new }
        ensures in_range { (s : List ℕ) → IsInRange s (state_of self.old)
            → IsInRange s (state_of self.new) }
        ensures size { IsTrue result → length (state_of self.old).buffer ≡ BUFFERED_BYTES }
    {
        match &self.long {
            Some(_) => false,
            None => {
                let used = self.used;
                if N > SHORT_BYTES - used {
                    return false;
                }
                self.used = used + N;
                append_array(&mut self.short, used, bytes);
                true
            }
        }
    }

    /// Hashes a chunk.
    #[inline(always)]
    pub(super) fn write(&mut self, input: &[u8], secret: Secret<'_>)
        requires few { IsShort self.old }
        requires range { IsInRange (secret_bytes secret) (state_of self.old) }
        ensures exact { state_of self.new
            ≡ state_after_write (secret_bytes secret.entry) (state_of self.old) input.now }
        ensures in_range { IsInRange (secret_bytes secret.entry) (state_of self.new) }
        ensures few { IsShort self.new }
        ensures size { length (state_of self.old).buffer ≡ BUFFERED_BYTES }
    {
        match &mut self.long {
            Some(state) => state.take(input, secret),
            None => {
                let mut state = CoreState::new();
                state.hold(&self.short[..self.used]);
                state.take(input, secret);
                self.long = Some(state);
            }
        }
    }

    // Begins the longer state with the bytes.
    #[inline(always)]
    fn begin_long(&mut self)
        requires few { IsShort self.old }
        ensures state { state_of self.new ≡ state_of self.old }
        ensures few { IsShort self.new }
    {
        match &self.long {
            Some(_) => {}
            None => {
                let mut state = CoreState::new();
                state.hold(&self.short[..self.used]);
                self.long = Some(state);
            }
        }
    }

    /// Hashes a chunk with the secret derived from a seed, which is on the stack. Derives it only if the chunk does not
    /// fit the buffer.
    #[tactic(auto, using(crate::proofs::Vectors::derived_secret_none))]
    #[inline(always)]
    pub(super) fn write_derived(&mut self, input: &[u8], seed: u64)
        requires few { IsShort self.old }
        requires range { IsInRange (derived_secret seed) (state_of self.old) }
        ensures exact { state_of self.new
            ≡ state_after_write (derived_secret seed) (state_of self.old) input.now }
        ensures in_range { IsInRange (derived_secret seed) (state_of self.new) }
        ensures few { IsShort self.new }
        ensures size { length (state_of self.old).buffer ≡ BUFFERED_BYTES }
    {
        self.begin_long();
        if self.hold(input) {
            return;
        }
        if seed == DEFAULT_SEED {
            self.write(input, default_secret());
        } else {
            let secret = derived_secret(seed);
            self.write(input, Secret::new(&secret).unwrap());
        }
    }

    /// Returns the value of the bytes, by `finalize`, for a seed or, without one, for the secret.
    #[inline(always)]
    pub(super) fn finish<V: Vector, F: Finalize>(
        &self,
        v: V,
        finalize: &F,
        seed: Option<u64>,
        secret: Secret<'_>,
    ) -> F::Output
        requires few { IsShort self.now }
        requires range { IsInRange (secret_bytes secret) (state_of self.now) }
        ensures exact { let s = secret_bytes secret.entry in
            result ≡ state_finish (F.small_of finalize.now) (F.large_of finalize.now) seed s (state_of self.now) }
        ensures size { length (state_of self.now).buffer ≡ BUFFERED_BYTES }
    {
        match &self.long {
            Some(state) => state.finish(v, finalize, seed, secret),
            None => match seed {
                Some(seed) => finalize.small(default_secret(), seed, &self.short[..self.used]),
                None => finalize.small(secret, DEFAULT_SEED, &self.short[..self.used]),
            },
        }
    }

    /// Returns the value for a seed and the secret derived from it. That of up to 16 bytes is computed inline.
    #[inline(always)]
    pub(super) fn finish_derived<V: Vector, F: Finalize>(
        &self,
        v: V,
        finalize: &F,
        seed: u64,
    ) -> F::Output
        requires few { IsShort self.now }
        requires range { IsInRange (derived_secret seed) (state_of self.now) }
        ensures exact { result ≡ state_finish (F.small_of finalize.now) (F.large_of finalize.now)
            (Some seed) (derived_secret seed) (state_of self.now) }
        ensures size { length (state_of self.now).buffer ≡ BUFFERED_BYTES }
    {
        match &self.long {
            None => {
                if self.used <= 16 {
                    return finalize.small(default_secret(), seed, &self.short[..self.used]);
                }
            }
            Some(_) => {}
        }
        self.finish_derived_any(v, finalize, seed)
    }

    // Derives the secret only if it has an effect.
    #[tactic(auto, using(crate::proofs::Vectors::derived_secret_none))]
    #[inline(never)]
    fn finish_derived_any<V: Vector, F: Finalize>(&self, v: V, finalize: &F, seed: u64) -> F::Output
        requires few { IsShort self.now }
        requires range { IsInRange (derived_secret seed) (state_of self.now) }
        ensures exact { result ≡ state_finish (F.small_of finalize.now) (F.large_of finalize.now)
            (Some seed) (derived_secret seed) (state_of self.now) }
        ensures size { length (state_of self.now).buffer ≡ BUFFERED_BYTES }
    {
        match &self.long {
            None => finalize.small(default_secret(), seed, &self.short[..self.used]),
            Some(state) => {
                if state.counts.total_bytes <= CUTOFF.into_u64() {
                    state.finish_short(finalize, Some(seed), default_secret())
                } else if seed == DEFAULT_SEED {
                    state.finish(v, finalize, Some(seed), default_secret())
                } else {
                    let secret = derived_secret(seed);
                    state.finish(v, finalize, Some(seed), Secret::new(&secret).unwrap())
                }
            }
        }
    }
}
