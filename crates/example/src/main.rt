//! An example of the library. The README quotes the body of `main`.
#![tactic(auto)]

use std::io;
use twox_hash::xxhash3_64::{RawHasher, SecretBuffer};
use twox_hash::{XxHash3_64, XxHash64};

fn main(rt: HostRuntime) -> io::Result<()> {
    // All bytes at once, or in pieces.
    let whole = XxHash64::oneshot(1234, b"some bytes");
    let mut hasher = XxHash64::with_seed(1234);
    hasher.write(b"some");
    hasher.write(b" bytes");
    let pieces = hasher.finish();
    prove!(pieces == whole); // by the contracts, and no code
    println!(rt; "{whole:016x} {pieces:016x}")?;

    // XXH3, at once and in pieces. It takes no memory here.
    let whole = XxHash3_64::oneshot(b"some bytes");
    let mut hasher = RawHasher::new(SecretBuffer::default());
    hasher.write(b"some bytes");
    let pieces = hasher.finish();
    println!(rt; "{whole:016x} {pieces:016x}")?;
    Ok(())
}
