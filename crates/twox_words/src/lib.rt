//! Little-endian words, which every hash of this repository reads, and copies of a few bytes.
//!
//! `twox_hash` re-exports `words`. `barriers` and `copies` exist only for speed.
#![tactic(auto)]

pub mod barriers;
pub mod copies;
pub mod words;
