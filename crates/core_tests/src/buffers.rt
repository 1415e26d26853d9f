//! The buffers that hold a secret: what is derived, what is refused, and the bytes of each type of buffer.

use std::alloc::{AllocError, Global};
use std::boxed::BoxedSlice;
use std::fmt;
use std::test::Fail;
use twox_core::xxhash3::{DEFAULT_SECRET_RAW, FixedBuffer, FixedMutBuffer, SecretBuffer};

type Own = BoxedSlice<u8, Global>;

fn own(alloc: Global, secret: &[u8]) -> Result<Own, AllocError> {
    BoxedSlice::from_slice(alloc, secret)
}

fn is(secret: Own, bytes: &[u8]) -> bool {
    secret.as_slice() == bytes
}

// The beginning of the derived secret of the seed 1.
const OF_ONE: [u8; 16] = [
    0xb9, 0xfe, 0x6c, 0x39, 0x23, 0xa4, 0x4b, 0xbe, 0x7b, 0x01, 0x81, 0x2c, 0xf7, 0x21, 0xad, 0x1c,
];

fn derived_of_one() -> Result<[u8; 192], Fail> {
    let buffer = SecretBuffer::with_seed(1, [0; 192])
        .ok()
        .ok_or("192 bytes")?;
    Ok(buffer.into_secret())
}

#[test]
fn secret_buffers(rt: HostRuntime) -> Result<(), Fail> {
    let derived = derived_of_one()?;
    assert!(rt; &derived[..16] == OF_ONE.as_slice());
    let allocated = SecretBuffer::allocate_with_seed(rt.alloc(), 1)?.into_secret();
    assert!(rt; is(allocated, &derived));
    let default = SecretBuffer::allocate_default(rt.alloc())?.into_secret();
    assert!(rt; is(default, &DEFAULT_SECRET_RAW));
    Ok(())
}

fn reads<E: fmt::Display>(alloc: Global, error: &E, wanted: &str) -> Result<bool, Fail> {
    Ok(format!(in alloc; "{error}")?.as_str() == wanted)
}

// True if the array is refused for a derived secret with this text, and is returned.
fn is_refused_by_with_seed<const N: usize>(alloc: Global, secret: [u8; N]) -> Result<bool, Fail> {
    let Err(e) = SecretBuffer::with_seed(1, secret) else {
        return Ok(false);
    };
    let told = reads(alloc, &e, "The secret must be exactly 192 bytes")?;
    Ok(told && e.into_secret() == secret)
}

fn is_refused_by_new<const N: usize>(alloc: Global, secret: [u8; N]) -> Result<bool, Fail> {
    let Err(e) = SecretBuffer::new(0, secret) else {
        return Ok(false);
    };
    let told = reads(alloc, &e, "The secret must have at least 136 bytes")?;
    Ok(told && e.into_secret() == secret)
}

fn is_refused_by_with_secret<const N: usize>(secret: [u8; N]) -> bool {
    match SecretBuffer::with_secret(secret) {
        Ok(_) => false,
        Err(e) => e.into_secret() == secret,
    }
}

#[test]
fn refused_arrays_are_handed_back(rt: HostRuntime) -> Result<(), Fail> {
    assert!(rt; is_refused_by_with_seed(rt.alloc(), [0; 191])?);
    assert!(rt; is_refused_by_with_seed(rt.alloc(), [0; 193])?);
    assert!(rt; is_refused_by_new(rt.alloc(), [7; 135])?);
    assert!(rt; is_refused_by_with_secret([7; 135]));
    Ok(())
}

fn set_second<S: FixedMutBuffer>(buffer: &mut S, byte: u8) {
    let bytes = FixedMutBuffer::as_mut(buffer);
    if bytes.len() > 1 {
        bytes[1] = byte;
    }
}

fn second<S: FixedBuffer>(buffer: &S) -> Option<u8> {
    FixedBuffer::as_ref(buffer).get(1).copied()
}

// Each type that may hold a secret exposes its bytes, and keeps what is written.
#[test]
fn buffers_of_arrays(rt: HostRuntime) {
    let mut array = [7; 136];
    set_second(&mut array, 3);
    assert!(rt; second(&array) == Some(3));
    assert!(rt; second(&&array) == Some(3));
    let mut lent = &mut array;
    set_second(&mut lent, 5);
    assert!(rt; second(&lent) == Some(5));
    assert!(rt; array[1] == 5);
}

#[test]
fn buffers_of_slices(rt: HostRuntime) -> Result<(), Fail> {
    let mut boxed = own(rt.alloc(), &[7; 136])?;
    set_second(&mut boxed, 4);
    assert!(rt; second(&boxed) == Some(4));
    Ok(())
}
