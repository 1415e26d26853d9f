//! Every kind of stream under one trait without contracts, so that a test over it has none to prove.

use std::alloc::{AllocError, Allocator};
use std::boxed::BoxedSlice;
use twox_hash::xxhash3::{ClonedBuffer, RawHasherCore};
use twox_hash::{XxHash3_64, XxHash3_128, xxhash3_64, xxhash3_128};

pub(crate) trait Stream {
    // The holder of a secret, which is returned.
    type Held;

    fn take(&mut self, piece: &[u8]);

    // A 64-bit value is in the low half.
    fn value(&self) -> u128;

    fn copy(&self) -> Result<Self, AllocError>;

    fn into_held(self) -> Self::Held;
}

impl<A: Allocator + Clone> Stream for XxHash3_64<A> {
    type Held = BoxedSlice<u8, A>;

    fn take(&mut self, piece: &[u8]) {
        self.write(piece);
    }

    fn value(&self) -> u128 {
        u128::from(self.finish())
    }

    fn copy(&self) -> Result<XxHash3_64<A>, AllocError> {
        self.clone()
    }

    fn into_held(self) -> BoxedSlice<u8, A> {
        self.into_secret()
    }
}

impl<A: Allocator + Clone> Stream for XxHash3_128<A> {
    type Held = BoxedSlice<u8, A>;

    fn take(&mut self, piece: &[u8]) {
        self.write(piece);
    }

    fn value(&self) -> u128 {
        self.finish_128()
    }

    fn copy(&self) -> Result<XxHash3_128<A>, AllocError> {
        self.clone()
    }

    fn into_held(self) -> BoxedSlice<u8, A> {
        self.into_secret()
    }
}

impl<S: ClonedBuffer> Stream for xxhash3_64::RawHasher<S> {
    type Held = S;

    fn take(&mut self, piece: &[u8]) {
        self.write(piece);
    }

    fn value(&self) -> u128 {
        u128::from(self.finish())
    }

    fn copy(&self) -> Result<xxhash3_64::RawHasher<S>, AllocError> {
        self.clone()
    }

    fn into_held(self) -> S {
        self.into_secret()
    }
}

impl<S: ClonedBuffer> Stream for xxhash3_128::RawHasher<S> {
    type Held = S;

    fn take(&mut self, piece: &[u8]) {
        self.write(piece);
    }

    fn value(&self) -> u128 {
        self.finish_128()
    }

    fn copy(&self) -> Result<xxhash3_128::RawHasher<S>, AllocError> {
        self.clone()
    }

    fn into_held(self) -> S {
        self.into_secret()
    }
}

// For 64 bits.
impl<S: ClonedBuffer> Stream for RawHasherCore<S> {
    type Held = S;

    fn take(&mut self, piece: &[u8]) {
        self.write(piece);
    }

    fn value(&self) -> u128 {
        u128::from(self.finish(xxhash3_64::Finalize64))
    }

    fn copy(&self) -> Result<RawHasherCore<S>, AllocError> {
        self.clone()
    }

    fn into_held(self) -> S {
        self.into_secret()
    }
}

pub(crate) fn after<S: Stream>(mut stream: S, piece: &[u8]) -> S {
    stream.take(piece);
    stream
}

// Returns the value of a copy after one more chunk.
pub(crate) fn copy_after<S: Stream + Drop>(stream: &S, piece: &[u8]) -> Result<u128, AllocError> {
    let mut copy = stream.copy()?;
    copy.take(piece);
    Ok(copy.value())
}

// The one-shots as numbers of 128 bits.
pub(crate) fn seeded_64(seed: u64, input: &[u8]) -> u128 {
    u128::from(XxHash3_64::oneshot_with_seed(seed, input))
}

pub(crate) fn seeded_128(seed: u64, input: &[u8]) -> u128 {
    XxHash3_128::oneshot_with_seed(seed, input)
}

// One-shots under a seed and a secret of valid length, and under only a secret.
pub(crate) fn beside_64(seed: u64, secret: &[u8], input: &[u8]) -> Option<u128> {
    let value = XxHash3_64::oneshot_with_seed_and_secret(seed, secret, input).ok()?;
    Some(u128::from(value))
}

pub(crate) fn beside_128(seed: u64, secret: &[u8], input: &[u8]) -> Option<u128> {
    XxHash3_128::oneshot_with_seed_and_secret(seed, secret, input).ok()
}

pub(crate) fn keyed_64(secret: &[u8], input: &[u8]) -> Option<u128> {
    let value = XxHash3_64::oneshot_with_secret(secret, input).ok()?;
    Some(u128::from(value))
}

pub(crate) fn keyed_128(secret: &[u8], input: &[u8]) -> Option<u128> {
    XxHash3_128::oneshot_with_secret(secret, input).ok()
}
