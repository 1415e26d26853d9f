//! A key that derives its secret whenever it has an effect.

ghost use Rattle.std.specs.Prelude.{◌≡◌, ◌≤◌, List, length, IfOk};
ghost use Rattle.std.specs.Box.{boxed_slice_items};
ghost use Rattle.twox_core.specs.Finish.{state_finish};
ghost use Rattle.twox_core.specs.InRange.{IsInRange};
ghost use Rattle.twox_core.specs.LazyKey.{seed_of, secret_of};
ghost use Rattle.twox_core.specs.StreamState.{IsShort, own, state_of};

use super::key::{ClonedKey, Key};
use super::stream_state::StreamState;
use super::{BUFFERED_BYTES, SecretBuffer};
use crate::xxhash3::{DEFAULT_SECRET_LENGTH, Finalize, Kernel, derived_secret};
use std::alloc::{AllocError, Allocator};
use std::boxed::BoxedSlice;

/// A seed, whose secret is derived on the stack of each call that uses it, or a stored secret.
///
/// No call takes memory, except `into_secret` for a seed, which takes it from the allocator that came with the seed.
#[derive(Drop)]
pub enum LazyKey<A: Allocator> {
    /// A seed.
    Derived(u64, A),
    /// A secret of the caller, with its seed, if it has one.
    Given(SecretBuffer<BoxedSlice<u8, A>>),
}

impl<A: Allocator> LazyKey<A> {
    /// Returns the secret.
    ///
    /// # Errors
    ///
    /// `AllocError` if the secret is that of a seed, and out of memory.
    pub fn into_secret(self) -> Result<BoxedSlice<u8, A>, AllocError>
        ensures { IfOk result (λ b. boxed_slice_items b ≡ secret_of self) }
    {
        match self {
            LazyKey::Derived(seed, alloc) => BoxedSlice::from_slice(alloc, &derived_secret(seed)),
            LazyKey::Given(buffer) => Ok(buffer.into_secret()),
        }
    }
}

impl<A: Allocator> Key for LazyKey<A> {
    type Held = [u8; DEFAULT_SECRET_LENGTH];

    ghost key = { λ k. record { seed = seed_of k; secret = secret_of k } };

    ghost bytes = { own };

    #[inline(always)]
    fn write(&self, state: &mut StreamState, input: &[u8]) {
        match self {
            LazyKey::Derived(seed, _) => state.write_derived(input, *seed),
            LazyKey::Given(buffer) => buffer.write(state, input),
        }
    }

    #[inline(always)]
    fn finish<F: Finalize>(&self, state: &StreamState, finalize: &F) -> F::Output {
        match self {
            LazyKey::Derived(seed, _) => state.finish_derived(Kernel {}, finalize, *seed),
            LazyKey::Given(buffer) => finish_given(buffer, state, finalize),
        }
    }
}

// Returns the value for a stored secret. A separate function, so that other streams save no registers for its calls.
#[inline(never)]
fn finish_given<A: Allocator, F: Finalize>(
    buffer: &SecretBuffer<BoxedSlice<u8, A>>,
    state: &StreamState,
    finalize: &F,
) -> F::Output
    requires few { IsShort state.now }
    requires range { IsInRange (boxed_slice_items buffer.now.secret) (state_of state.now) }
    ensures exact { let s = boxed_slice_items buffer.now.secret in
        result ≡ state_finish (F.small_of finalize.now) (F.large_of finalize.now) buffer.now.seed s (state_of state.now) }
    ensures size { length (state_of state.now).buffer ≡ BUFFERED_BYTES }
{
    buffer.finish(state, finalize)
}

impl<A: Allocator + Clone> Clone for LazyKey<A> {
    ghost is_clone = { λ a b. (seed_of b ≡ seed_of a) × (secret_of b ≡ secret_of a) };

    fn clone(&self) -> Result<LazyKey<A>, AllocError> {
        match self {
            LazyKey::Derived(seed, alloc) => Ok(LazyKey::Derived(*seed, alloc.clone()?)),
            LazyKey::Given(buffer) => Ok(LazyKey::Given(buffer.clone()?)),
        }
    }
}

impl<A: Allocator + Clone> ClonedKey for LazyKey<A> {
    ghost copies = { λ x y h. h };
}
