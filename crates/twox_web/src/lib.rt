//! Functions for web pages: one-shots of the four hashes, and streams in the page's memory.
//!
//! A slice is passed as an address and a length, and a record as its address. Everything else from the page is tested:
//! a call that can refuse returns a code, `DONE`, `SECRET_TOO_SHORT` or `NOT_A_STREAM`, and changes nothing if it
//! refuses.
#![tactic(auto)]

mod oneshots_128;
mod oneshots_64;
mod plain32;
mod plain64;
mod stream_3;

use twox_hash::xxhash3::large::halves4;

// The module's kernel: the library's fastest in WebAssembly, both with and without vectors.
type PageKernel = halves4::Impl;
