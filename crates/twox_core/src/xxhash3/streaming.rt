//! Streams of XXH3: bytes that come in chunks, hashed under a secret that the stream holds.

mod buffers;
mod core_state;
mod key;
mod keyed_core;
mod lazy_key;
mod raw;
mod secret_buffer;
mod short_bytes;
mod stream_counts;
mod stream_state;
mod taken_stripes;

pub use buffers::{ClonedBuffer, FixedBuffer, FixedMutBuffer};
pub use core_state::{BUFFERED_BYTES, CoreState};
pub use key::{ClonedKey, Key};
pub use keyed_core::KeyedCore;
pub use lazy_key::LazyKey;
pub use raw::{AllocRawHasher, RawHasherCore};
pub use secret_buffer::{SecretBuffer, SecretTooShortError, SecretWithSeedError};
pub use stream_counts::StreamCounts;
pub use taken_stripes::TakenStripes;
