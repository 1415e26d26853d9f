//! XXH32 and XXH64.
#![tactic(auto)]

pub mod by_stripes;
mod saved_text;
pub mod xxhash32;
pub mod xxhash64;

pub use twox_words::words;
