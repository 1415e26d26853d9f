//! Exports for the benchmark in C: one-shots of every hash, and streams that hash the input in chunks.
//!
//! The input is passed as the address of a buffer of 64 MiB and a number of bytes in it: a slice from C is tested for
//! the null address at each call, which no caller in Rattle pays. 128 bits are returned as two halves.
#![tactic(auto)]

mod plain;
mod xxhash3;

/// Size of the buffer of the input; of a longer one the front is hashed.
pub const ROOM: usize = 67_108_864;

/// The buffer of the input.
pub type Input = [u8; ROOM];
