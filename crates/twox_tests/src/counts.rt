//! The counts of a core of XXH3. Each expected value is one that the tests of the Rust crate `twox-hash` expect, or
//! that of the one-shot, which other tests compare with those.

use crate::rows::{between, first, gen_10240};
use std::hash;
use std::test::Fail;
use twox_hash::XxHash3_64;
use twox_hash::xxhash3::{
    BUFFERED_BYTES, DEFAULT_SECRET_RAW, RawHasherCore, SecretBuffer, default_secret,
};
use twox_hash::xxhash3_64::{Finalize64, RawHasher};

type Core = RawHasherCore<[u8; 192]>;

fn new_core() -> Core {
    RawHasherCore::new(SecretBuffer::default())
}

fn write(core: &mut Core, piece: &[u8]) {
    core.write(piece);
}

// True if it counts this many bytes, stripes done, and bytes buffered.
fn counts(core: &Core, total_len: u64, stripes: u64, buffered: usize) -> bool {
    core.total_len() == total_len && core.stripes_done() == stripes && core.buffered() == buffered
}

fn has_value(core: &Core, value: u64) -> bool {
    core.finish(Finalize64) == value
}

// Whole stripes of a long chunk are taken, and the last one, whole or not, is left for the last call.
#[test]
fn counts_of_pieces(rt: HostRuntime) {
    let bytes = gen_10240();
    let mut core = new_core();
    assert!(rt; counts(&core, 0, 0, 0));
    write(&mut core, first(&bytes, 512));
    assert!(rt; counts(&core, 512, 0, BUFFERED_BYTES));
    write(&mut core, &[0]);
    assert!(rt; counts(&core, 513, 8, 1));
    write(&mut core, &[]);
    assert!(rt; counts(&core, 513, 8, 1));
}

// The counts and the value after one chunk of this many bytes.
fn counts_after(bytes: &[u8; 10240], n: usize, stripes: u64, buffered: usize) -> bool {
    let input = first(bytes, n);
    let mut core = new_core();
    write(&mut core, input);
    counts(&core, n as u64, stripes, buffered) && has_value(&core, XxHash3_64::oneshot(input))
}

#[test]
fn counts_of_long_pieces(rt: HostRuntime) {
    let bytes = gen_10240();
    assert!(rt; counts_after(&bytes, 10240, 159, 64));
    assert!(rt; counts_after(&bytes, 513, 7, 65));
    assert!(rt; counts_after(&bytes, 575, 7, 127));
    assert!(rt; XxHash3_64::oneshot(&bytes) == 0xbcd6_3266_df6e_2244);
}

fn counts_all_of_513(core: &Core) -> bool {
    let (stripes, buffered) = (core.stripes_done(), core.buffered());
    stripes <= 8
        && buffered <= BUFFERED_BYTES
        && stripes.wrapping_mul(64).wrapping_add(buffered as u64) == 513
}

#[test]
fn counts_of_a_full_buffer_and_a_byte(rt: HostRuntime) {
    let bytes = gen_10240();
    let mut core = new_core();
    write(&mut core, first(&bytes, 512));
    write(&mut core, between(&bytes, 512, 513));
    assert!(rt; counts_all_of_513(&core));
    assert!(rt; has_value(&core, XxHash3_64::oneshot(first(&bytes, 513))));
}

#[test]
fn secrets_of_copies(rt: HostRuntime) -> Result<(), Fail> {
    let mut core = new_core();
    write(&mut core, &[0]);
    assert!(rt; core.clone()?.into_secret() == DEFAULT_SECRET_RAW);
    assert!(rt; default_secret().len() == 192);
    Ok(())
}

// The standard `Hasher` makes the inherent calls.
fn through_the_trait<H: hash::Hasher>(hasher: &mut H, input: &[u8]) -> u64 {
    hasher.write(input);
    hasher.finish()
}

#[test]
fn standard_hasher(rt: HostRuntime) -> Result<(), Fail> {
    let bytes = gen_10240();
    let input = first(&bytes, 241);
    let mut boxed = XxHash3_64::default(rt.alloc())?;
    assert!(rt; through_the_trait(&mut boxed, input) == 0x02e8_cd95_421c_6d02);
    let mut raw = RawHasher::new(SecretBuffer::default());
    assert!(rt; through_the_trait(&mut raw, input) == 0x02e8_cd95_421c_6d02);
    Ok(())
}
