//! Secrets of every length: which are refused, that they are returned, and that a stream has the one-shot's value under
//! each.

use crate::kinds::{Own, Pieces, beside_are_the_oneshot, in_pieces};
use crate::rows::{SEED, first, gen_10240};
use std::alloc::{AllocError, Global};
use std::boxed::BoxedSlice;
use std::test::Fail;
use twox_hash::xxhash3::Secret;
use twox_hash::xxhash3_64::SecretBuffer;
use twox_hash::{XxHash3_64, XxHash3_128};

fn own(alloc: Global, secret: &[u8]) -> Result<Own, AllocError> {
    BoxedSlice::from_slice(alloc, secret)
}

// True if the constructor of a stream accepts the secret; the secret is returned in either case.
fn by_new(secret: Own) -> (bool, Own) {
    match SecretBuffer::new(SEED, secret) {
        Ok(buffer) => (true, buffer.into_secret()),
        Err(e) => (false, e.into_secret()),
    }
}

fn by_with_secret(secret: Own) -> (bool, Own) {
    match SecretBuffer::with_secret(secret) {
        Ok(buffer) => (true, buffer.into_secret()),
        Err(e) => (false, e.into_secret()),
    }
}

fn by_stream(secret: Own) -> (bool, Own) {
    match XxHash3_64::with_seed_and_secret(SEED, secret) {
        Ok(hasher) => (true, hasher.into_secret()),
        Err(e) => (false, e.into_secret()),
    }
}

fn by_wide_stream(secret: Own) -> (bool, Own) {
    match XxHash3_128::with_seed_and_secret(SEED, secret) {
        Ok(hasher) => (true, hasher.into_secret()),
        Err(e) => (false, e.into_secret()),
    }
}

// True if the constructor returned this result, and these bytes.
fn said(answer: (bool, Own), fits: bool, secret: &[u8]) -> bool {
    let (accepted, back) = answer;
    accepted == fits && back.as_slice() == secret
}

fn constructors_say(alloc: Global, secret: &[u8], fits: bool) -> Result<bool, AllocError> {
    Ok(
        said(by_new(own(alloc, secret)?), fits, secret)
            && said(by_with_secret(own(alloc, secret)?), fits, secret)
            && said(by_stream(own(alloc, secret)?), fits, secret)
            && said(by_wide_stream(own(alloc, secret)?), fits, secret)
            && Secret::new(secret).is_ok() == fits,
    )
}

fn oneshots_say(secret: &[u8], input: &[u8], keyed: bool, seeded: bool) -> bool {
    XxHash3_64::oneshot_with_secret(secret, input).is_ok() == keyed
        && XxHash3_128::oneshot_with_secret(secret, input).is_ok() == keyed
        && XxHash3_64::oneshot_with_seed_and_secret(SEED, secret, input).is_ok() == seeded
        && XxHash3_128::oneshot_with_seed_and_secret(SEED, secret, input).is_ok() == seeded
}

#[test]
fn refused_exactly_below_136_bytes(rt: HostRuntime) -> Result<(), Fail> {
    let bytes = gen_10240();
    for length in 0..301 {
        let (secret, fits) = (first(&bytes, length), length >= 136);
        assert!(rt;
            constructors_say(rt.alloc(), secret, fits)?,
            "{length} bytes"
        );
        assert!(rt;
            oneshots_say(secret, first(&bytes, 240), fits, true),
            "{length} bytes"
        );
        assert!(rt;
            oneshots_say(secret, first(&bytes, 241), fits, fits),
            "{length} bytes"
        );
    }
    Ok(())
}

fn by_with_seed(room: Own) -> (bool, Own) {
    match SecretBuffer::with_seed(SEED, room) {
        Ok(buffer) => (true, buffer.into_secret()),
        Err(e) => (false, e.into_secret()),
    }
}

// True if the buffer is accepted for a derived secret and changed, or is refused and returned unchanged, as expected.
fn is_derived_into(alloc: Global, room: &[u8], wanted: bool) -> Result<bool, AllocError> {
    let (taken, back) = by_with_seed(own(alloc, room)?);
    Ok(taken == wanted && (back.as_slice() == room) != wanted)
}

// A buffer for a derived secret must have 192 bytes.
#[test]
fn derived_exactly_into_192_bytes(rt: HostRuntime) -> Result<(), Fail> {
    let bytes = gen_10240();
    for length in 0..301 {
        let room = first(&bytes, length);
        assert!(rt;
            is_derived_into(rt.alloc(), room, length == 192)?,
            "{length} bytes"
        );
    }
    Ok(())
}

// True if a stream of each kind has the value of the whole.
fn have(alloc: Global, secret: &[u8], input: Pieces<'_>, whole: &[u8]) -> bool {
    beside_are_the_oneshot(alloc, SEED, secret, input, whole)
}

// Split in two at each of these places, and byte by byte.
fn is_the_same_by_parts(alloc: Global, secret: &[u8], input: &[u8]) -> bool {
    let mut agree = have(alloc, secret, in_pieces(input, 1), input);
    for cut in [0, 1, 63, 64, 65, 240, 241, 256, 512] {
        if cut <= input.len() {
            let parts = Pieces {
                head: &input[..cut],
                tail: &input[cut..],
                size: 10240,
            };
            agree &= have(alloc, secret, parts, input);
        }
    }
    agree
}

// At every length to 1,100, and around as many stripes as the secret has places.
fn streams_under(alloc: Global, length: usize, block: usize) -> bool {
    let bytes = gen_10240();
    let secret = first(&bytes, length);
    let mut agree = true;
    for n in 0..1101 {
        agree &= is_the_same_by_parts(alloc, secret, first(&bytes, n));
    }
    for d in 0..4 {
        let n = block.wrapping_add(d).wrapping_sub(1);
        agree &= is_the_same_by_parts(alloc, secret, first(&bytes, n));
    }
    agree
}

#[test]
fn streams_are_the_oneshot_under_136_bytes(rt: HostRuntime) {
    assert!(rt; streams_under(rt.alloc(), 136, 576));
}

#[test]
fn streams_are_the_oneshot_under_137_bytes(rt: HostRuntime) {
    assert!(rt; streams_under(rt.alloc(), 137, 576));
}

#[test]
fn streams_are_the_oneshot_under_143_bytes(rt: HostRuntime) {
    assert!(rt; streams_under(rt.alloc(), 143, 576));
}

#[test]
fn streams_are_the_oneshot_under_144_bytes(rt: HostRuntime) {
    assert!(rt; streams_under(rt.alloc(), 144, 640));
}

#[test]
fn streams_are_the_oneshot_under_192_bytes(rt: HostRuntime) {
    assert!(rt; streams_under(rt.alloc(), 192, 1024));
}

#[test]
fn streams_are_the_oneshot_under_300_bytes(rt: HostRuntime) {
    assert!(rt; streams_under(rt.alloc(), 300, 1856));
}
