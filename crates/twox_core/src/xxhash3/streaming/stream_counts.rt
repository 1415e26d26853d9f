//! The state of a stream without its buffer, its secret and its seed, and the steps of a stream with a buffer of any
//! size: whole stripes, and more than the maximum length that is hashed with no stripes.

ghost use Rattle.std.specs.Prelude.{◌≡◌, ◌↔◌, ℕ, List, ◌++◌, ◌+◌, ◌-◌, ◌*◌, ◌/◌, ◌%◌, ◌<◌, ◌≤◌, min, take, drop, length, IsTrue};
ghost use Rattle.twox_core.specs.Long.{stripes_of};
ghost use Rattle.twox_core.specs.SecretBytes.{secret_bytes};
ghost use Rattle.twox_core.specs.Stripes.{current_stripe_of};

use super::taken_stripes::TakenStripes;
use crate::xxhash3::parts::array_at;
use crate::xxhash3::{CUTOFF, DEFAULT_SEED, Finalize, Secret, Vector, default_secret};
use twox_words::copies::{copy_short, copy_up_to_128};
use twox_words::words::IntoU64;

/// Chunks of up to this many bytes are buffered without a call.
const FEW_BYTES: usize = 32;

/// From this many bytes on, the stripes of a chunk are taken in a separate function, in the way that is fastest for
/// their number.
const LONG_PIECE_BYTES: usize = 2_048;

/// The state of a stream without its buffer, its secret and its seed. [`CoreState`](super::CoreState) has a buffer of
/// `BUFFERED_BYTES` too; this type is for streams with a buffer of another size, such as those that C holds.
///
/// The calls take the buffer and the secret as arguments, which must be the same at each. `N`, the size of the buffer,
/// is a multiple of 64 from 256 to 65,536. They require three things, which are true of a new state and after each
/// call: the accumulators' place lies in the secret; at most `N` bytes are buffered; and after the first byte, at least
/// one is buffered. No call reads a byte of the buffer that is not in use, except that the value of a stream with
/// stripes taken and fewer than 64 bytes buffered depends on the last 64.
#[repr(C)]
#[derive(Clone, Copy)]
pub struct StreamCounts {
    /// The stripes taken.
    pub taken: TakenStripes,
    /// Number of bytes buffered.
    pub buffer_usage: usize,
    /// Total bytes taken, saturating at 2^64 - 1.
    pub total_bytes: u64,
}

impl StreamCounts {
    ghost use Rattle.twox_core.specs.AfterWrite.{after_long_piece, after_rest, no_bytes, state_after_write, state_over, with_buffered, with_empty_buffer};
    ghost use Rattle.twox_core.specs.Finish.{last_bytes, state_finish};
    ghost use Rattle.twox_core.specs.InRange.{IsBufferSize, IsInRangeOf};
    ghost use Rattle.twox_core.specs.Value.{short_secret, stream_seed};

    /// Returns the state of no bytes.
    #[inline(always)]
    pub fn new() -> StreamCounts
        ensures { result ≡ no_bytes }
    {
        StreamCounts {
            taken: TakenStripes::new(),
            buffer_usage: 0,
            total_bytes: 0,
        }
    }

    /// True if the calls can continue from this state under that secret: the test for a state from elsewhere.
    #[inline(always)]
    pub fn is_in_range<const N: usize>(&self, buffer: &[u8; N], secret: Secret<'_>) -> bool
        ensures in_range { IsTrue result
            ↔ IsInRangeOf N (secret_bytes secret.entry) (state_over self.now buffer.now) }
        ensures size { length buffer.now ≡ N }
    {
        let room = buffer[..].len();
        self.taken.stripes.current_stripe() < secret.n_stripes()
            && self.buffer_usage <= room
            && (0 < self.buffer_usage || self.total_bytes == 0)
    }

    /// Hashes `input` after the bytes before.
    #[inline(always)]
    pub fn write<V: Vector, const N: usize>(
        &mut self,
        buffer: &mut [u8; N],
        v: V,
        input: &[u8],
        secret: Secret<'_>,
    )
        requires room { IsBufferSize N }
        requires in_range { IsInRangeOf N (secret_bytes secret) (state_over self.old buffer.old) }
        ensures exact { state_over self.new buffer.new
            ≡ state_after_write (secret_bytes secret.entry) (state_over self.old buffer.old) input.now }
        ensures in_range { IsInRangeOf N (secret_bytes secret.entry) (state_over self.new buffer.new) }
        ensures size { length buffer.old ≡ N }
        ensures in_place { N < length input.now
            → (64 ≤ self.new.buffer_usage) × (self.new.buffer_usage ≤ 127) }
    {
        // A chunk that fits the buffer is buffered, even if it fills it, since only `finish` takes the last stripe of a
        // stream.
        self.total_bytes = self.total_bytes.saturating_add(input.len().into_u64());
        if input.len() <= N - self.buffer_usage {
            self.keep(buffer, input);
        } else if input.len() < LONG_PIECE_BYTES {
            self.write_through::<V, N, false>(v, input, secret, buffer);
        } else {
            self.write_through::<V, N, true>(v, input, secret, buffer);
        }
    }

    /// Buffers a chunk that fits, for any secret.
    #[tactic(auto, using(std::proofs::lemmas::Bool::Decides::nat_tests), unfolding(crate::specs::AfterWrite::state_after_write))]
    #[inline(always)]
    pub(super) fn hold<const N: usize>(&mut self, buffer: &mut [u8; N], input: &[u8])
        requires room { self.old.buffer_usage + length input.now ≤ N }
        ensures exact { (s : List ℕ) → state_over self.new buffer.new
            ≡ state_after_write s (state_over self.old buffer.old) input.now }
        ensures in_range { (s : List ℕ) → IsInRangeOf N s (state_over self.old buffer.old)
            → IsInRangeOf N s (state_over self.new buffer.new) }
    {
        let more = input.len().into_u64();
        self.total_bytes = self.total_bytes.saturating_add(more);
        if input.len() <= 64 {
            self.add_few(buffer, input);
        } else {
            self.keep(buffer, input);
        }
    }

    /// Buffers an array that fits, for any secret. Its length is known, so this is a few moves.
    #[tactic(auto, using(std::proofs::lemmas::Bool::Decides::nat_tests), unfolding(crate::specs::AfterWrite::state_after_write))]
    #[inline(always)]
    pub(super) fn hold_array<const N: usize, const LEN: usize>(
        &mut self,
        buffer: &mut [u8; N],
        bytes: &[u8; LEN],
    )
        requires room { self.old.buffer_usage + LEN ≤ N }
        ensures exact { (s : List ℕ) → state_over self.new buffer.new
            ≡ state_after_write s (state_over self.old buffer.old) bytes.now }
        ensures in_range { (s : List ℕ) → IsInRangeOf N s (state_over self.old buffer.old)
            → IsInRangeOf N s (state_over self.new buffer.new) }
    {
        self.total_bytes = self.total_bytes.saturating_add(LEN.into_u64());
        let used = self.buffer_usage;
        self.buffer_usage = used + LEN;
        let buffer = &mut buffer[..];
        buffer[used..used + LEN].copy_from_slice(&bytes[..]);
    }

    /// Buffers a chunk of a few bytes that fits, without a call and for any secret.
    #[tactic(auto, using(std::proofs::lemmas::Bool::Decides::nat_tests), unfolding(crate::specs::AfterWrite::state_after_write))]
    #[inline(always)]
    pub(crate) fn keep_few<const N: usize>(&mut self, buffer: &mut [u8; N], input: &[u8])
        requires size { IsBufferSize N }
        requires room { self.old.buffer_usage + length input.now ≤ N }
        requires few { length input.now ≤ 64 }
        ensures { (s : List ℕ) → state_over self.new buffer.new
            ≡ state_after_write s (state_over self.old buffer.old) input.now }
    {
        let len = input.len().into_u64();
        self.total_bytes = self.total_bytes.saturating_add(len);
        self.add_few(buffer, input);
    }

    // Fills the buffer up to whole stripes, takes these, and takes the rest in place. A separate function, so that
    // small chunks have no frame, and a separate one for many bytes, so that others keep no register for the call that
    // takes their stripes. The buffer is the last argument, so that callers leave the others in their registers.
    #[tactic(auto, unfolding(crate::specs::AfterWrite::after_long_piece))]
    #[inline(never)]
    fn write_through<V: Vector, const N: usize, const MANY: bool>(
        &mut self,
        v: V,
        input: &[u8],
        secret: Secret<'_>,
        buffer: &mut [u8; N],
    )
        requires room { IsBufferSize N }
        requires place { self.old.taken.stripes.current_stripe < stripes_of (secret_bytes secret) }
        requires within { self.old.buffer_usage ≤ N }
        requires more { N - self.old.buffer_usage < length input.now }
        ensures exact { state_over self.new buffer.new
            ≡ after_long_piece (secret_bytes secret.entry) (state_over self.old buffer.old) input.now }
        ensures in_range { IsInRangeOf N (secret_bytes secret.entry) (state_over self.new buffer.new) }
        ensures in_place { N < length input.now
            → (64 ≤ self.new.buffer_usage) × (self.new.buffer_usage ≤ 127) }
    {
        let (head, rest) = input.split_at((64 - self.buffer_usage % 64) % 64);
        self.fill_stripe(buffer, head);
        self.empty(buffer, v, secret);
        self.restart::<V, N, MANY>(buffer, v, rest, secret);
    }

    // Appends `head`, which may be empty, to the buffered bytes.
    #[inline(always)]
    fn fill_stripe<const N: usize>(&mut self, buffer: &mut [u8; N], head: &[u8])
        requires room { self.old.buffer_usage + length head.now ≤ N }
        requires few { length head.now ≤ 64 }
        ensures { state_over self.new buffer.new ≡ with_buffered (state_over self.old buffer.old) head.now }
    {
        // A chunk of whole stripes has no head.
        if !head.is_empty() {
            self.add_few(buffer, head);
        }
    }

    // Appends a few bytes to the buffered ones.
    #[inline(always)]
    fn add_few<const N: usize>(&mut self, buffer: &mut [u8; N], input: &[u8])
        requires room { self.old.buffer_usage + length input.now ≤ N }
        requires few { length input.now ≤ 64 }
        ensures { state_over self.new buffer.new ≡ with_buffered (state_over self.old buffer.old) input.now }
    {
        let used = self.buffer_usage;
        let buffer = &mut buffer[..];
        let (_, room) = buffer.split_at_mut(used);
        copy_up_to_128(&mut room[..input.len()], input);
        let end = used + input.len();
        self.buffer_usage = end;
    }

    // Appends a chunk to the buffered bytes. Stores their number first: the call that copies bytes is then the last
    // step, and `write` keeps no register for what comes after it.
    #[inline(always)]
    fn keep<const N: usize>(&mut self, buffer: &mut [u8; N], input: &[u8])
        requires { self.old.buffer_usage + length input.now ≤ N }
        ensures { state_over self.new buffer.new ≡ with_buffered (state_over self.old buffer.old) input.now }
    {
        let used = self.buffer_usage;
        self.buffer_usage = used + input.len();
        let buffer = &mut buffer[..];
        let (_, room) = buffer.split_at_mut(used);
        let place = &mut room[..input.len()];
        if input.len() > FEW_BYTES {
            place.copy_from_slice(input);
        } else {
            copy_short(place, input);
        }
    }

    // Takes the buffered stripes.
    #[inline(always)]
    fn empty<V: Vector, const N: usize>(&mut self, buffer: &[u8; N], v: V, secret: Secret<'_>)
        requires place { self.old.taken.stripes.current_stripe < stripes_of (secret_bytes secret) }
        requires in_range { self.old.buffer_usage ≤ N }
        ensures exact { state_over self.new buffer.now
            ≡ with_empty_buffer (secret_bytes secret.entry) (state_over self.old buffer.now) }
        ensures place { self.new.taken.stripes.current_stripe
            < stripes_of (secret_bytes secret.entry) }
    {
        self.taken
            .process::<V, false>(v, &buffer[..self.buffer_usage], secret);
        self.buffer_usage = 0;
    }

    // Takes whole stripes of `rest` in place, and buffers the rest: for 64 bytes or more, at least 64.
    #[inline(always)]
    fn restart<V: Vector, const N: usize, const MANY: bool>(
        &mut self,
        buffer: &mut [u8; N],
        v: V,
        rest: &[u8],
        secret: Secret<'_>,
    )
        requires room { IsBufferSize N }
        requires place { self.old.taken.stripes.current_stripe < stripes_of (secret_bytes secret) }
        ensures exact { state_over self.new buffer.new
            ≡ after_rest (secret_bytes secret.entry) (state_over self.old buffer.old) rest.now }
        ensures place { self.new.taken.stripes.current_stripe
            < stripes_of (secret_bytes secret.entry) }
        ensures in_range { self.new.buffer_usage ≤ N }
        ensures some { min (length rest.now) 1 ≤ self.new.buffer_usage }
        ensures in_place { 64 ≤ length rest.now
            → (64 ≤ self.new.buffer_usage) × (self.new.buffer_usage ≤ 127) }
    {
        let count = rest.len().saturating_sub(64) / 64;
        let (whole, last) = rest.split_at(64 * count);
        self.taken.process::<V, MANY>(v, whole, secret);
        self.begin_with(buffer, last);
    }

    // Begins the buffer with `last`.
    #[inline(always)]
    fn begin_with<const N: usize>(&mut self, buffer: &mut [u8; N], last: &[u8])
        requires room { IsBufferSize N }
        requires few { length last.now ≤ 128 }
        ensures { state_over self.new buffer.new ≡ record {
          counts = record self.old { buffer_usage = length last.now };
          buffer = last.now ++ drop (length last.now) buffer.old;
        } }
    {
        let buffer = &mut buffer[..];
        copy_up_to_128(&mut buffer[0..last.len()], last);
        self.buffer_usage = last.len();
    }

    /// Returns the value of the bytes taken, by `finalize`. The state stays. Up to 240 bytes it uses the default secret
    /// and the seed or, without a seed, the secret and the seed 0; above that it uses the secret.
    #[inline(always)]
    pub fn finish<V: Vector, F: Finalize, const N: usize>(
        &self,
        buffer: &[u8; N],
        v: V,
        finalize: &F,
        seed: Option<u64>,
        secret: Secret<'_>,
    ) -> F::Output
        requires room { IsBufferSize N }
        requires in_range { IsInRangeOf N (secret_bytes secret) (state_over self.now buffer.now) }
        ensures exact { let s = secret_bytes secret.entry in
            result ≡ state_finish (F.small_of finalize.now) (F.large_of finalize.now) seed s (state_over self.now buffer.now) }
        ensures size { length buffer.now ≡ N }
    {
        if self.total_bytes <= CUTOFF.into_u64() {
            return self.finish_short(buffer, finalize, seed, secret);
        }
        let last_stripe = self.last_stripe(buffer);
        let count = (self.buffer_usage - 1) / 64;
        let (whole, last_block) = buffer[..self.buffer_usage].split_at(64 * count);
        let mut stripes = self.taken.stripes;
        stripes.process_stripes(v, whole, secret);
        finalize.large(
            v,
            stripes.accumulators(),
            last_block,
            &last_stripe,
            secret,
            self.total_bytes,
        )
    }

    // Returns the value of up to 240 bytes: with the default secret and the seed or, without a seed, with the secret.
    #[inline(always)]
    pub(super) fn finish_short<F: Finalize, const N: usize>(
        &self,
        buffer: &[u8; N],
        finalize: &F,
        seed: Option<u64>,
        secret: Secret<'_>,
    ) -> F::Output
        requires room { IsBufferSize N }
        requires short { self.now.total_bytes ≤ 240 }
        ensures exact { let s = short_secret seed (secret_bytes secret.entry) in
            result ≡ F.small_of finalize.now s (stream_seed seed) (take self.now.total_bytes buffer.now) }
        ensures size { length buffer.now ≡ N }
    {
        let input = &buffer[..self.total_bytes as usize];
        match seed {
            Some(seed) => finalize.small(default_secret(), seed, input),
            None => finish_keyed(finalize, secret, input),
        }
    }

    // Returns the last 64 bytes of the stream: the end of the buffered ones, or the end of the last stripe taken and
    // these.
    #[inline(always)]
    #[tactic(auto, unfolding(crate::specs::Finish::last_bytes))]
    fn last_stripe<const N: usize>(&self, buffer: &[u8; N]) -> [u8; 64]
        requires room { IsBufferSize N }
        requires within { self.now.buffer_usage ≤ N }
        ensures { result ≡ last_bytes buffer.now self.now.buffer_usage }
    {
        let used = self.buffer_usage;
        if used < 64 {
            let bytes = &buffer[..];
            stripe_of_parts(&bytes[N - 64 + used..], &bytes[..used])
        } else {
            *array_at(buffer, used - 64)
        }
    }
}

// Separate function, so that the default secret's words are constants of the other code.
#[inline(never)]
pub(super) fn finish_keyed<F: Finalize>(finalize: &F, secret: Secret<'_>, input: &[u8]) -> F::Output
    requires { length input.now ≤ 240 }
    ensures { result ≡ F.small_of finalize.now (secret_bytes secret.entry) 0 input.now }
{
    finalize.small(secret, DEFAULT_SEED, input)
}

// Joins two parts to a stripe.
#[inline(always)]
fn stripe_of_parts(front: &[u8], back: &[u8]) -> [u8; 64]
    requires { length front.now + length back.now ≡ 64 }
    ensures { result ≡ front.now ++ back.now }
{
    let mut stripe = [0; 64];
    let (head, tail) = stripe.split_at_mut(front.len());
    head.copy_from_slice(front);
    tail.copy_from_slice(back);
    stripe
}
