//! XXH3 by each kernel by name, whichever kernel the one-shots and the hashers use.

use crate::rows::{Kind, Row};
use crate::ways::boxed;
use std::alloc::{AllocError, Global};
use twox_hash::xxhash3::large::{halves4, lanes2, lanes4, lanes8, scalar, split2};
use twox_hash::xxhash3::{
    Algorithm, AllocRawHasher, CUTOFF, DEFAULT_SECRET_RAW, Secret, Vector, derive_secret,
};
use twox_hash::xxhash3_64::Finalize64;
use twox_hash::xxhash3_128::Finalize128;

/// True if the one-shot by each kernel returns the test case's value. Only XXH3 above 240 bytes has kernels.
pub fn agree_at_once(row: &Row, input: &[u8], secret: &[u8]) -> bool {
    if is_plain(row) || input.len() <= CUTOFF {
        return true;
    }
    let answer = Some(row.answer);
    at_once(scalar::Impl {}, row, input, secret) == answer
        && at_once(lanes2::Impl {}, row, input, secret) == answer
        && at_once(lanes4::Impl {}, row, input, secret) == answer
        && at_once(lanes8::Impl {}, row, input, secret) == answer
        && at_once(split2::Impl {}, row, input, secret) == answer
        && at_once(halves4::Impl {}, row, input, secret) == answer
}

/// True if the stream by each kernel returns the test case's value.
pub fn agree_in_pieces(
    alloc: Global,
    row: &Row,
    secret: &[u8],
    pieces: &[&[u8]],
) -> Result<bool, AllocError> {
    if is_plain(row) {
        return Ok(true);
    }
    let answer = Some(row.answer);
    Ok(
        in_pieces(alloc, scalar::Impl {}, row, secret, pieces)? == answer
            && in_pieces(alloc, lanes2::Impl {}, row, secret, pieces)? == answer
            && in_pieces(alloc, lanes4::Impl {}, row, secret, pieces)? == answer
            && in_pieces(alloc, lanes8::Impl {}, row, secret, pieces)? == answer
            && in_pieces(alloc, split2::Impl {}, row, secret, pieces)? == answer
            && in_pieces(alloc, halves4::Impl {}, row, secret, pieces)? == answer,
    )
}

fn is_plain(row: &Row) -> bool {
    matches!(row.kind, Kind::X32 | Kind::X64)
}

fn at_once<V: Vector>(kernel: V, row: &Row, input: &[u8], secret: &[u8]) -> Option<u128> {
    if input.len() <= CUTOFF {
        return None;
    }
    let mut derived = DEFAULT_SECRET_RAW;
    derive_secret(row.seed.unwrap_or(0), &mut derived);
    let secret = match row.secret {
        Some(_) => Secret::new(secret).ok()?,
        None => Secret::new(&derived).ok()?,
    };
    match row.kind {
        Kind::X3_64 => Some(u128::from(Algorithm(kernel).oneshot(secret, input, Finalize64))),
        Kind::X3_128 => Some(Algorithm(kernel).oneshot(secret, input, Finalize128)),
        Kind::X32 | Kind::X64 => None,
    }
}

fn in_pieces<V: Vector>(
    alloc: Global,
    kernel: V,
    row: &Row,
    secret: &[u8],
    pieces: &[&[u8]],
) -> Result<Option<u128>, AllocError> {
    let mut core = match empty_core(alloc, row, secret)? {
        Some(core) => core,
        None => return Ok(None),
    };
    for piece in pieces.iter() {
        core.write_with(kernel, piece);
    }
    Ok(match row.kind {
        Kind::X3_64 => Some(u128::from(core.finish_with(kernel, Finalize64))),
        Kind::X3_128 => Some(core.finish_with(kernel, Finalize128)),
        Kind::X32 | Kind::X64 => None,
    })
}

// By the constructor for the test case's seed and secret.
fn empty_core(
    alloc: Global,
    row: &Row,
    secret: &[u8],
) -> Result<Option<AllocRawHasher<Global>>, AllocError> {
    Ok(match (row.seed, row.secret) {
        (None, None) => Some(AllocRawHasher::allocate_default(alloc)?),
        (Some(seed), None) => Some(AllocRawHasher::allocate_with_seed(alloc, seed)?),
        (None, Some(_)) => AllocRawHasher::allocate_with_secret(boxed(alloc, secret)?).ok(),
        (Some(seed), Some(_)) => {
            AllocRawHasher::allocate_with_seed_and_secret(seed, boxed(alloc, secret)?).ok()
        }
    })
}
