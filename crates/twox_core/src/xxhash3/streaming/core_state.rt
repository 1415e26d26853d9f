//! The state of a stream without its secret and its seed: the stripes taken, and the bytes after them.

ghost use Rattle.std.specs.Prelude.{◌≡◌, ◌↔◌, ℕ, List, ◌+◌, ◌<◌, ◌≤◌, take, length, IsTrue};
ghost use Rattle.twox_core.specs.SecretBytes.{secret_bytes};

use super::stream_counts::{StreamCounts, finish_keyed};
use crate::xxhash3::{CUTOFF, Finalize, Kernel, Secret, Vector, default_secret};

/// Size of a stream's buffer in bytes: whole stripes, and more than the maximum length that is hashed with no stripes.
pub const BUFFERED_BYTES: usize = 512;

const _: () = prove!(BUFFERED_BYTES > CUTOFF);

const _: () = prove!(BUFFERED_BYTES % 64 == 0);

const _: () = prove!(size_of::<CoreState>() == 608);

/// The state of a stream without its secret and its seed. [`RawHasherCore`](super::RawHasherCore) holds all three and
/// is the type to use; this one is for streams in memory of another layout.
///
/// The calls take the secret as an argument, which must be the same at each. They require three things, which are true
/// of a new state and after each call: the accumulators' place lies in the secret; at most `BUFFERED_BYTES` bytes are
/// buffered; and after the first byte, at least one is buffered. No call reads a byte of the buffer that is not in use,
/// except that the value of a stream with stripes taken and fewer than 64 bytes buffered depends on the last 64.
#[repr(C)]
#[derive(Clone, Copy)]
pub struct CoreState {
    /// The stripes taken, and the numbers of bytes.
    pub counts: StreamCounts,
    /// The buffer. Begins with the bytes that are in use.
    pub buffer: [u8; BUFFERED_BYTES],
}

impl CoreState {
    ghost use Rattle.twox_core.specs.AfterWrite.{empty_state, state_after_write};
    ghost use Rattle.twox_core.specs.Finish.{state_finish};
    ghost use Rattle.twox_core.specs.InRange.{IsInRange};
    ghost use Rattle.twox_core.specs.Value.{short_secret, stream_seed};

    /// Returns the state of no bytes.
    #[inline(always)]
    pub fn new() -> CoreState
        ensures { result ≡ empty_state }
    {
        CoreState {
            counts: StreamCounts::new(),
            buffer: [0; BUFFERED_BYTES],
        }
    }

    /// True if the calls can continue from this state under that secret: the test for a state from elsewhere.
    #[inline(always)]
    pub fn is_in_range(&self, secret: Secret<'_>) -> bool
        ensures in_range { IsTrue result ↔ IsInRange (secret_bytes secret.entry) self.now }
        ensures size { length self.now.buffer ≡ BUFFERED_BYTES }
    {
        self.counts.is_in_range(&self.buffer, secret)
    }

    /// Hashes `input` after the bytes before.
    #[inline(always)]
    pub fn write<V: Vector>(&mut self, v: V, input: &[u8], secret: Secret<'_>)
        requires { IsInRange (secret_bytes secret) self.old }
        ensures exact { self.new
            ≡ state_after_write (secret_bytes secret.entry) self.old input.now }
        ensures in_range { IsInRange (secret_bytes secret.entry) self.new }
        ensures size { length self.old.buffer ≡ BUFFERED_BYTES }
        ensures in_place { 512 < length input.now
            → (64 ≤ self.new.counts.buffer_usage) × (self.new.counts.buffer_usage ≤ 127) }
    {
        self.counts.write(&mut self.buffer, v, input, secret);
    }

    // Buffers a chunk of a few bytes that fits, without a call and for any secret.
    #[inline(always)]
    pub(crate) fn keep_few(&mut self, input: &[u8])
        requires room { self.old.counts.buffer_usage + length input.now ≤ 512 }
        requires few { length input.now ≤ 64 }
        ensures { (s : List ℕ) → self.new ≡ state_after_write s self.old input.now }
    {
        self.counts.keep_few(&mut self.buffer, input);
    }

    // True if the buffer has space for so many bytes.
    #[inline(always)]
    pub(super) fn has_room(&self, len: usize) -> bool
        requires { self.now.counts.buffer_usage ≤ 512 }
        ensures room { IsTrue result ↔ (self.now.counts.buffer_usage + len ≤ 512) }
        ensures size { length self.now.buffer ≡ BUFFERED_BYTES }
    {
        let room = self.buffer[..].len();
        len <= room - self.counts.buffer_usage
    }

    // Buffers a chunk that fits, for any secret.
    #[inline(always)]
    pub(super) fn hold(&mut self, input: &[u8])
        requires { self.old.counts.buffer_usage + length input.now ≤ 512 }
        ensures exact { (s : List ℕ) → self.new ≡ state_after_write s self.old input.now }
        ensures in_range { (s : List ℕ) → IsInRange s self.old → IsInRange s self.new }
    {
        self.counts.hold(&mut self.buffer, input);
    }

    // Buffers an array that fits, for any secret. Its length is known, so this is a few moves.
    #[inline(always)]
    pub(super) fn hold_array<const N: usize>(&mut self, bytes: &[u8; N])
        requires { self.old.counts.buffer_usage + N ≤ 512 }
        ensures exact { (s : List ℕ) → self.new ≡ state_after_write s self.old bytes.now }
        ensures in_range { (s : List ℕ) → IsInRange s self.old → IsInRange s self.new }
    {
        self.counts.hold_array(&mut self.buffer, bytes);
    }

    // Does what `write` does, with the kernel of calls that name none.
    #[inline(always)]
    fn write_by_default(&mut self, input: &[u8], secret: Secret<'_>)
        requires { IsInRange (secret_bytes secret) self.old }
        ensures exact { self.new
            ≡ state_after_write (secret_bytes secret.entry) self.old input.now }
        ensures in_range { IsInRange (secret_bytes secret.entry) self.new }
        ensures size { length self.old.buffer ≡ BUFFERED_BYTES }
        ensures in_place { 512 < length input.now
            → (64 ≤ self.new.counts.buffer_usage) × (self.new.counts.buffer_usage ≤ 127) }
    {
        self.write(Kernel {}, input, secret);
    }

    /// Does what `write` does, with the kernel of calls that name none. A chunk that fits the buffer is buffered inline.
    #[inline(always)]
    pub(super) fn take(&mut self, input: &[u8], secret: Secret<'_>)
        requires { IsInRange (secret_bytes secret) self.old }
        ensures exact { self.new
            ≡ state_after_write (secret_bytes secret.entry) self.old input.now }
        ensures in_range { IsInRange (secret_bytes secret.entry) self.new }
        ensures size { length self.old.buffer ≡ BUFFERED_BYTES }
        ensures in_place { 512 < length input.now
            → (64 ≤ self.new.counts.buffer_usage) × (self.new.counts.buffer_usage ≤ 127) }
    {
        if self.has_room(input.len()) {
            self.hold(input);
        } else {
            self.write_by_default(input, secret);
        }
    }

    /// Does the same for an array.
    #[inline(always)]
    pub(super) fn take_array<const N: usize>(&mut self, bytes: &[u8; N], secret: Secret<'_>)
        requires { IsInRange (secret_bytes secret) self.old }
        ensures exact { self.new
            ≡ state_after_write (secret_bytes secret.entry) self.old bytes.now }
        ensures in_range { IsInRange (secret_bytes secret.entry) self.new }
        ensures size { length self.old.buffer ≡ BUFFERED_BYTES }
    {
        if self.has_room(N) {
            self.hold_array(bytes);
        } else {
            self.take_far(&bytes[..], secret);
        }
    }

    // Separate function, so that a map's key of a word pays for nothing in it.
    #[inline(never)]
    fn take_far(&mut self, input: &[u8], secret: Secret<'_>)
        requires { IsInRange (secret_bytes secret) self.old }
        ensures exact { self.new
            ≡ state_after_write (secret_bytes secret.entry) self.old input.now }
        ensures in_range { IsInRange (secret_bytes secret.entry) self.new }
        ensures size { length self.old.buffer ≡ BUFFERED_BYTES }
    {
        self.write_by_default(input, secret);
    }

    /// Returns the value of the bytes taken, by `finalize`. The state stays. Up to 240 bytes it uses the default secret
    /// and the seed or, without a seed, the secret and the seed 0; above that it uses the secret.
    #[inline(always)]
    pub fn finish<V: Vector, F: Finalize>(
        &self,
        v: V,
        finalize: &F,
        seed: Option<u64>,
        secret: Secret<'_>,
    ) -> F::Output
        requires { IsInRange (secret_bytes secret) self.now }
        ensures exact { let s = secret_bytes secret.entry in
            result ≡ state_finish (F.small_of finalize.now) (F.large_of finalize.now) seed s self.now }
        ensures size { length self.now.buffer ≡ BUFFERED_BYTES }
    {
        self.counts.finish(&self.buffer, v, finalize, seed, secret)
    }

    // Does what `finish` does. The value of one word, such as a map's key, is computed inline, and the others are
    // computed by a separate function.
    #[inline(always)]
    pub(super) fn finish_key<V: Vector, F: Finalize>(
        &self,
        v: V,
        finalize: &F,
        seed: Option<u64>,
        secret: Secret<'_>,
    ) -> F::Output
        requires { IsInRange (secret_bytes secret) self.now }
        ensures exact { let s = secret_bytes secret.entry in
            result ≡ state_finish (F.small_of finalize.now) (F.large_of finalize.now) seed s self.now }
        ensures size { length self.now.buffer ≡ BUFFERED_BYTES }
    {
        if self.counts.total_bytes == 8 {
            return self.finish_word(finalize, seed, secret);
        }
        self.finish_any(v, finalize, seed, secret)
    }

    #[inline(never)]
    fn finish_any<V: Vector, F: Finalize>(
        &self,
        v: V,
        finalize: &F,
        seed: Option<u64>,
        secret: Secret<'_>,
    ) -> F::Output
        requires { IsInRange (secret_bytes secret) self.now }
        ensures exact { let s = secret_bytes secret.entry in
            result ≡ state_finish (F.small_of finalize.now) (F.large_of finalize.now) seed s self.now }
        ensures size { length self.now.buffer ≡ BUFFERED_BYTES }
    {
        self.finish(v, finalize, seed, secret)
    }

    // Returns the value of eight bytes.
    #[inline(always)]
    fn finish_word<F: Finalize>(
        &self,
        finalize: &F,
        seed: Option<u64>,
        secret: Secret<'_>,
    ) -> F::Output
        requires { self.now.counts.total_bytes ≡ 8 }
        ensures { let s = short_secret seed (secret_bytes secret.entry) in
            result ≡ F.small_of finalize.now s (stream_seed seed) (take self.now.counts.total_bytes self.now.buffer) }
    {
        let word = &self.buffer[..8];
        match seed {
            Some(seed) => finalize.small(default_secret(), seed, word),
            None => finish_keyed(finalize, secret, word),
        }
    }

    // Returns the value of up to 240 bytes: with the default secret and the seed or, without a seed, with the secret.
    #[inline(always)]
    pub(super) fn finish_short<F: Finalize>(
        &self,
        finalize: &F,
        seed: Option<u64>,
        secret: Secret<'_>,
    ) -> F::Output
        requires { self.now.counts.total_bytes ≤ 240 }
        ensures exact { let s = short_secret seed (secret_bytes secret.entry) in
            result ≡ F.small_of finalize.now s (stream_seed seed) (take self.now.counts.total_bytes self.now.buffer) }
        ensures size { length self.now.buffer ≡ BUFFERED_BYTES }
    {
        self.counts
            .finish_short(&self.buffer, finalize, seed, secret)
    }
}
