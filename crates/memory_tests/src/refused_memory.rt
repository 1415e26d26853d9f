//! XXH3 streams out of memory: each allocation of a call is refused in turn, by a heap without space for it. The result
//! is out of memory, the source of a copy is unchanged, and the same call with memory succeeds. Expected values are the
//! one-shots', which other tests compare with outside vectors.
//!
//! Each of these calls makes one allocation, for its secret. All other calls make none, and return a value with every
//! allocation refused.

use crate::inputs::{first, generated};
use crate::streams::{
    Stream, beside_64, beside_128, copy_after, keyed_64, keyed_128, seeded_64, seeded_128,
};
use linked_list_allocator::LocalHeap;
use std::alloc::{AllocError, Global};
use std::boxed::BoxedSlice;
use twox_hash::xxhash3::{AllocRawHasher, DEFAULT_SECRET_RAW};
use twox_hash::xxhash3_64::{self, SecretBuffer};
use twox_hash::{XxHash3_64, XxHash3_128, xxhash3_128};

type Own<'a> = BoxedSlice<u8, &'a LocalHeap>;

type Core<'a> = AllocRawHasher<&'a LocalHeap>;

const SEED: u64 = 0xdead_cafe;

// A secret of 192 bytes fills this many bytes of a heap.
const SECRET_IN_HEAP: usize = 192;

// Returns a heap that refuses every allocation of a secret after the first `count`.
fn heap_of(alloc: Global, count: usize) -> Result<LocalHeap, AllocError> {
    LocalHeap::new(
        alloc,
        SECRET_IN_HEAP.saturating_mul(count).saturating_add(160),
    )
}

fn is<T: Drop>(made: Result<T, AllocError>, refused: bool) -> bool {
    made.is_err() == refused
}

// True if each call that allocates a secret is refused by this heap, or each succeeds, one after the other.
fn streams_are(heap: &LocalHeap, refused: bool) -> bool {
    is(XxHash3_64::new(heap), refused)
        && is(XxHash3_64::default(heap), refused)
        && is(XxHash3_64::with_seed(heap, SEED), refused)
        && is(XxHash3_128::new(heap), refused)
        && is(XxHash3_128::default(heap), refused)
        && is(XxHash3_128::with_seed(heap, SEED), refused)
}

fn buffers_are(heap: &LocalHeap, refused: bool) -> bool {
    is(SecretBuffer::allocate_default(heap), refused)
        && is(SecretBuffer::allocate_with_seed(heap, SEED), refused)
        && is(Core::allocate_default(heap), refused)
        && is(Core::allocate_with_seed(heap, SEED), refused)
}

fn all_are(heap: &LocalHeap, refused: bool) -> bool {
    streams_are(heap, refused) && buffers_are(heap, refused)
}

#[test]
fn constructors_answer_out_of_memory(rt: HostRuntime) -> Result<(), AllocError> {
    assert!(rt; all_are(&heap_of(rt.alloc(), 0)?, true));
    // with space for one secret, each is made in turn, so that each takes one allocation and frees it
    let room = heap_of(rt.alloc(), 1)?;
    assert!(rt; all_are(&room, false) && room.used() == 0);
    Ok(())
}

// True if all are refused while a stream holds the memory, and succeed afterwards.
fn wait_for_another(room: &LocalHeap) -> bool {
    let Ok(held) = XxHash3_64::new(room) else {
        return false;
    };
    let refused = room.used() == SECRET_IN_HEAP && all_are(room, true);
    drop(held);
    refused && all_are(room, false)
}

#[test]
fn constructors_answer_while_another_holds_the_memory(rt: HostRuntime) -> Result<(), AllocError> {
    assert!(rt; wait_for_another(&heap_of(rt.alloc(), 1)?));
    Ok(())
}

fn raw(heap: &LocalHeap) -> Result<xxhash3_64::RawHasher<Own<'_>>, AllocError> {
    let buffer = SecretBuffer::allocate_with_seed(heap, SEED)?;
    Ok(xxhash3_64::RawHasher::new(buffer))
}

fn raw_wide(heap: &LocalHeap) -> Result<xxhash3_128::RawHasher<Own<'_>>, AllocError> {
    let buffer = SecretBuffer::allocate_with_seed(heap, SEED)?;
    Ok(xxhash3_128::RawHasher::new(buffer))
}

fn core(heap: &LocalHeap) -> Result<Core<'_>, AllocError> {
    Core::allocate_with_seed(heap, SEED)
}

// True if the stream was made, there is no memory for a copy of it, and it still has its value.
fn is_kept<S: Stream + Drop>(made: Result<S, AllocError>, input: &[u8], value: u128) -> bool {
    let Ok(mut stream) = made else {
        return false;
    };
    stream.take(input);
    stream.copy().is_err() && stream.value() == value
}

// True if the stream and a copy of it, which has the value, were made.
fn is_copied<S: Stream + Drop>(made: Result<S, AllocError>, input: &[u8], value: u128) -> bool {
    let Ok(mut stream) = made else {
        return false;
    };
    stream.take(input);
    copy_after(&stream, &[]) == Ok(value)
}

// With space for one secret, a copy is refused; with space for two, the same call succeeds.
fn narrow_are_kept(one: &LocalHeap, two: &LocalHeap, input: &[u8]) -> bool {
    let value = seeded_64(SEED, input);
    is_kept(XxHash3_64::with_seed(one, SEED), input, value)
        && is_copied(XxHash3_64::with_seed(two, SEED), input, value)
        && is_kept(raw(one), input, value)
        && is_copied(raw(two), input, value)
        && is_kept(core(one), input, value)
        && is_copied(core(two), input, value)
}

fn wide_are_kept(one: &LocalHeap, two: &LocalHeap, input: &[u8]) -> bool {
    let value = seeded_128(SEED, input);
    is_kept(XxHash3_128::with_seed(one, SEED), input, value)
        && is_copied(XxHash3_128::with_seed(two, SEED), input, value)
        && is_kept(raw_wide(one), input, value)
        && is_copied(raw_wide(two), input, value)
}

// The lengths around which the contents of a stream change.
const LENGTHS: [usize; 5] = [0, 5, 240, 241, 1000];

fn all_are_kept(one: &LocalHeap, two: &LocalHeap) -> bool {
    let bytes = generated();
    let mut kept = true;
    for count in LENGTHS {
        let input = first(&bytes, count);
        kept &= narrow_are_kept(one, two, input) && wide_are_kept(one, two, input);
    }
    kept && one.used() == 0 && two.used() == 0
}

// Boxed streams, raw streams and cores.
#[test]
fn copies_of_streams_answer_out_of_memory(rt: HostRuntime) -> Result<(), AllocError> {
    let (one, two) = (heap_of(rt.alloc(), 1)?, heap_of(rt.alloc(), 2)?);
    assert!(rt; all_are_kept(&one, &two));
    Ok(())
}

// The copy of only the secret.
fn secret_is_kept(heap: &LocalHeap, input: &[u8]) -> bool {
    let Ok(mut stream) = core(heap) else {
        return false;
    };
    stream.take(input);
    stream.into_held().clone().is_err()
}

fn secrets_are_kept(heap: &LocalHeap) -> bool {
    let bytes = generated();
    let mut kept = true;
    for count in LENGTHS {
        kept &= secret_is_kept(heap, first(&bytes, count));
    }
    kept && heap.used() == 0
}

#[test]
fn copies_of_secrets_answer_out_of_memory(rt: HostRuntime) -> Result<(), AllocError> {
    assert!(rt; secrets_are_kept(&heap_of(rt.alloc(), 1)?));
    Ok(())
}

fn is_the_default(made: Result<SecretBuffer<Own<'_>>, AllocError>) -> bool {
    match made {
        Ok(buffer) => buffer.into_secret().as_slice() == DEFAULT_SECRET_RAW.as_slice(),
        Err(_) => false,
    }
}

// True if the buffer has a copy or is refused one, as expected, with the default secret, and the buffer still has it.
fn buffer_has_copy(heap: &LocalHeap, wanted: bool) -> bool {
    let Ok(buffer) = SecretBuffer::allocate_default(heap) else {
        return false;
    };
    let copied = match buffer.clone() {
        Ok(copy) => wanted && is_the_default(Ok(copy)),
        Err(_) => !wanted,
    };
    copied && is_the_default(Ok(buffer))
}

#[test]
fn copies_of_secret_buffers_answer_out_of_memory(rt: HostRuntime) -> Result<(), AllocError> {
    assert!(rt; buffer_has_copy(&heap_of(rt.alloc(), 1)?, false));
    assert!(rt; buffer_has_copy(&heap_of(rt.alloc(), 2)?, true));
    Ok(())
}

// Returns the secret, if the stream has this value of the input.
fn answered<S: Stream + Drop>(mut stream: S, input: &[u8], value: Option<u128>) -> Option<S::Held> {
    stream.take(input);
    if value == Some(stream.value()) {
        Some(stream.into_held())
    } else {
        None
    }
}

// Each constructor with a secret, as a call that returns the secret if the value is correct.
fn narrow_beside<'a>(own: Own<'a>, secret: &[u8], input: &[u8]) -> Option<Own<'a>> {
    let value = beside_64(SEED, secret, input);
    answered(
        XxHash3_64::with_seed_and_secret(SEED, own).ok()?,
        input,
        value,
    )
}

fn wide_beside<'a>(own: Own<'a>, secret: &[u8], input: &[u8]) -> Option<Own<'a>> {
    let value = beside_128(SEED, secret, input);
    answered(
        XxHash3_128::with_seed_and_secret(SEED, own).ok()?,
        input,
        value,
    )
}

fn narrow_keyed<'a>(own: Own<'a>, secret: &[u8], input: &[u8]) -> Option<Own<'a>> {
    let value = keyed_64(secret, input);
    answered(XxHash3_64::with_secret(own).ok()?, input, value)
}

fn wide_keyed<'a>(own: Own<'a>, secret: &[u8], input: &[u8]) -> Option<Own<'a>> {
    let value = keyed_128(secret, input);
    answered(XxHash3_128::with_secret(own).ok()?, input, value)
}

fn buffer_beside<'a>(own: Own<'a>, secret: &[u8], input: &[u8]) -> Option<Own<'a>> {
    let value = beside_64(SEED, secret, input);
    let buffer = SecretBuffer::allocate_with_seed_and_secret(SEED, own).ok()?;
    answered(xxhash3_64::RawHasher::new(buffer), input, value)
}

fn buffer_keyed<'a>(own: Own<'a>, secret: &[u8], input: &[u8]) -> Option<Own<'a>> {
    let value = keyed_128(secret, input);
    let buffer = SecretBuffer::allocate_with_secret(own).ok()?;
    answered(xxhash3_128::RawHasher::new(buffer), input, value)
}

fn core_beside<'a>(own: Own<'a>, secret: &[u8], input: &[u8]) -> Option<Own<'a>> {
    let value = beside_64(SEED, secret, input);
    answered(
        Core::allocate_with_seed_and_secret(SEED, own).ok()?,
        input,
        value,
    )
}

fn core_keyed<'a>(own: Own<'a>, secret: &[u8], input: &[u8]) -> Option<Own<'a>> {
    let value = keyed_64(secret, input);
    answered(Core::allocate_with_secret(own).ok()?, input, value)
}

fn derived<'a>(own: Own<'a>, input: &[u8]) -> Option<Own<'a>> {
    let value = Some(seeded_64(SEED, input));
    let buffer = SecretBuffer::with_seed(SEED, own).ok()?;
    answered(xxhash3_64::RawHasher::new(buffer), input, value)
}

// One after the other over the same memory.
fn boxed_answer<'a>(own: Own<'a>, secret: &[u8], input: &[u8]) -> Option<Own<'a>> {
    let own = narrow_beside(own, secret, input)?;
    let own = wide_beside(own, secret, input)?;
    let own = narrow_keyed(own, secret, input)?;
    wide_keyed(own, secret, input)
}

fn raw_answer<'a>(own: Own<'a>, secret: &[u8], input: &[u8]) -> Option<Own<'a>> {
    let own = buffer_beside(own, secret, input)?;
    let own = buffer_keyed(own, secret, input)?;
    let own = core_beside(own, secret, input)?;
    let own = core_keyed(own, secret, input)?;
    let own = derived(own, input)?;
    derived(own, &[])
}

// True if the secret was returned, and every allocation is refused while it is held.
fn is_full(room: &LocalHeap, own: Option<Own<'_>>) -> bool {
    let came_back = own.is_some();
    let refused = all_are(room, true);
    drop(own);
    came_back && refused
}

// Every allocation below is refused except the one for the secret that is passed in.
#[test]
fn boxed_streams_answer_without_requests(rt: HostRuntime) -> Result<(), AllocError> {
    let bytes = generated();
    let (input, secret) = (first(&bytes, 1000), first(&bytes, SECRET_IN_HEAP));
    let room = heap_of(rt.alloc(), 1)?;
    let own = BoxedSlice::from_slice(&room, secret)?;
    assert!(rt; all_are(&room, true));
    assert!(rt; is_full(&room, boxed_answer(own, secret, input)));
    Ok(())
}

#[test]
fn raw_streams_answer_without_requests(rt: HostRuntime) -> Result<(), AllocError> {
    let bytes = generated();
    let (input, secret) = (first(&bytes, 1000), first(&bytes, SECRET_IN_HEAP));
    let room = heap_of(rt.alloc(), 1)?;
    let own = BoxedSlice::from_slice(&room, secret)?;
    assert!(rt; is_full(&room, raw_answer(own, secret, input)));
    Ok(())
}
