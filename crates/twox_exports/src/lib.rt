//! Code shared by the exports to other languages, below `twox_web` and `twox_rust`: the codes that calls return,
//! 128-bit values, and streams of XXH3 whose secrets are stored separately.
#![tactic(auto)]

pub mod stream_3;

pub use twox_core::width_128::{Wide, halves};

/// The call succeeded.
pub const DONE: u32 = 0;

/// The secret has fewer than 136 bytes.
pub const SECRET_TOO_SHORT: u32 = 1;

/// The record isn't a stream.
pub const NOT_A_STREAM: u32 = 2;
