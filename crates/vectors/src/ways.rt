//! Every way to compute a hash: at once, byte by byte, split at random, and by each kernel.

use crate::kernels;
use crate::rows::{Kind, Recipe, Row, next_number};
use std::alloc::{AllocError, Global};
use std::boxed::BoxedSlice;
use theorems::StreamingHasher;
use twox_hash::{XxHash3_64, XxHash3_128, XxHash32, XxHash64};

/// True if every way to compute the test case's hash returns its value.
pub fn agree(alloc: Global, row: &Row) -> Result<bool, AllocError> {
    let input = row.input.bytes(alloc)?;
    let none = Recipe {
        length: 0,
        start: 0,
    };
    let secret = row.secret.unwrap_or(none).bytes(alloc)?;
    let answer = Some(row.answer);
    if at_once(row, &input, &secret) != answer || !kernels::agree_at_once(row, &input, &secret) {
        return Ok(false);
    }
    let bytes: Vec<&[u8]> = input.chunks(1).collect(alloc)?;
    let pieces = cut_at_random(alloc, &input)?;
    Ok(
        in_pieces(alloc, row, &secret, &bytes)? == answer
            && in_pieces(alloc, row, &secret, &pieces)? == answer
            && kernels::agree_in_pieces(alloc, row, &secret, &pieces)?,
    )
}

// By the one-shot for the test case's seed and secret.
fn at_once(row: &Row, input: &[u8], secret: &[u8]) -> Option<u128> {
    let seed = row.seed.unwrap_or(0);
    match row.kind {
        Kind::X32 => Some(u128::from(XxHash32::oneshot(u32::try_from(seed).ok()?, input))),
        Kind::X64 => Some(u128::from(XxHash64::oneshot(seed, input))),
        Kind::X3_64 => at_once_64(row, input, secret),
        Kind::X3_128 => at_once_128(row, input, secret),
    }
}

fn at_once_64(row: &Row, input: &[u8], secret: &[u8]) -> Option<u128> {
    let answer = match (row.seed, row.secret) {
        (None, None) => XxHash3_64::oneshot(input),
        (Some(seed), None) => XxHash3_64::oneshot_with_seed(seed, input),
        (None, Some(_)) => XxHash3_64::oneshot_with_secret(secret, input).ok()?,
        (Some(seed), Some(_)) => {
            XxHash3_64::oneshot_with_seed_and_secret(seed, secret, input).ok()?
        }
    };
    Some(u128::from(answer))
}

fn at_once_128(row: &Row, input: &[u8], secret: &[u8]) -> Option<u128> {
    match (row.seed, row.secret) {
        (None, None) => Some(XxHash3_128::oneshot(input)),
        (Some(seed), None) => Some(XxHash3_128::oneshot_with_seed(seed, input)),
        (None, Some(_)) => XxHash3_128::oneshot_with_secret(secret, input).ok(),
        (Some(seed), Some(_)) => {
            XxHash3_128::oneshot_with_seed_and_secret(seed, secret, input).ok()
        }
    }
}

// Splits the input into pseudo-random chunks of 0 to 299 bytes, seeded by its length.
fn cut_at_random(alloc: Global, input: &[u8]) -> Result<Vec<&[u8]>, AllocError> {
    let mut pieces = Vec::new(alloc);
    let mut rest = input;
    let mut x = input.len() as u64;
    for _ in 0..input.len() {
        x = next_number(x);
        let length = ((x >> 33) % 300) as usize;
        let (piece, after) = rest.split_at(length.min(rest.len()));
        pieces.push(piece)?;
        rest = after;
    }
    pieces.push(rest)?;
    Ok(pieces)
}

fn in_pieces(
    alloc: Global,
    row: &Row,
    secret: &[u8],
    pieces: &[&[u8]],
) -> Result<Option<u128>, AllocError> {
    let seed = row.seed.unwrap_or(0);
    Ok(match row.kind {
        Kind::X32 => plain_32(seed, pieces),
        Kind::X64 => Some(u128::from(after(XxHash64::with_seed(seed), pieces))),
        Kind::X3_64 => stream_64(alloc, row, secret, pieces)?,
        Kind::X3_128 => stream_128(alloc, row, secret, pieces)?,
    })
}

// Returns a hasher's value after the chunks.
fn after<H: StreamingHasher + Drop>(hasher: H, pieces: &[&[u8]]) -> H::Value {
    let mut hasher = hasher;
    for piece in pieces.iter() {
        hasher.update(piece);
    }
    hasher.digest()
}

fn plain_32(seed: u64, pieces: &[&[u8]]) -> Option<u128> {
    let hasher = XxHash32::with_seed(u32::try_from(seed).ok()?);
    Some(u128::from(after(hasher, pieces)))
}

fn stream_64(
    alloc: Global,
    row: &Row,
    secret: &[u8],
    pieces: &[&[u8]],
) -> Result<Option<u128>, AllocError> {
    Ok(match empty_stream_64(alloc, row, secret)? {
        Some(hasher) => Some(u128::from(after(hasher, pieces))),
        None => None,
    })
}

// By the constructor for the test case's seed and secret.
fn empty_stream_64(
    alloc: Global,
    row: &Row,
    secret: &[u8],
) -> Result<Option<XxHash3_64>, AllocError> {
    Ok(match (row.seed, row.secret) {
        (None, None) => Some(XxHash3_64::new(alloc)?),
        (Some(seed), None) => Some(XxHash3_64::with_seed(alloc, seed)?),
        (None, Some(_)) => XxHash3_64::with_secret(boxed(alloc, secret)?).ok(),
        (Some(seed), Some(_)) => {
            XxHash3_64::with_seed_and_secret(seed, boxed(alloc, secret)?).ok()
        }
    })
}

fn stream_128(
    alloc: Global,
    row: &Row,
    secret: &[u8],
    pieces: &[&[u8]],
) -> Result<Option<u128>, AllocError> {
    Ok(match empty_stream_128(alloc, row, secret)? {
        Some(hasher) => Some(after(hasher, pieces)),
        None => None,
    })
}

// By the constructor for the test case's seed and secret.
fn empty_stream_128(
    alloc: Global,
    row: &Row,
    secret: &[u8],
) -> Result<Option<XxHash3_128>, AllocError> {
    Ok(match (row.seed, row.secret) {
        (None, None) => Some(XxHash3_128::new(alloc)?),
        (Some(seed), None) => Some(XxHash3_128::with_seed(alloc, seed)?),
        (None, Some(_)) => XxHash3_128::with_secret(boxed(alloc, secret)?).ok(),
        (Some(seed), Some(_)) => {
            XxHash3_128::with_seed_and_secret(seed, boxed(alloc, secret)?).ok()
        }
    })
}

/// Allocates a copy of the secret, for a stream that owns it.
pub fn boxed(alloc: Global, secret: &[u8]) -> Result<BoxedSlice<u8>, AllocError> {
    Ok(secret.to_vec(alloc)?.into_boxed_slice())
}
