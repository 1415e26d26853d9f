//! XXH32, XXH64 and XXH3 with the API of the Rust crate `twox-hash`. Each function is proved to return the value that
//! the xxHash specification defines.
#![tactic(auto)]

pub mod streams;
pub mod xxhash3_128;
pub mod xxhash3_64;

pub use twox_core::xxhash3;
pub use twox_plain::{xxhash32, xxhash64};
pub use twox_words::words;
pub use xxhash3_64::Hasher as XxHash3_64;
pub use xxhash3_128::Hasher as XxHash3_128;
pub use xxhash32::Hasher as XxHash32;
pub use xxhash64::Hasher as XxHash64;
