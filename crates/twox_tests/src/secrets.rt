//! Secrets of XXH3 streams: those that are refused and returned, and the effect of an accepted one. Expected values are
//! the one-shots', which other tests compare with outside vectors, or computed from the formulas.

use crate::rows::{SEED, first, gen_10240};
use std::alloc::{AllocError, Global};
use std::boxed::BoxedSlice;
use std::test::Fail;
use twox_hash::xxhash3::{AllocRawHasher, RawHasherCore};
use twox_hash::xxhash3_64::{self, Finalize64, SecretBuffer};
use twox_hash::{XxHash3_64, XxHash3_128};

type Own = BoxedSlice<u8, Global>;

fn own(alloc: Global, secret: &[u8]) -> Result<Own, AllocError> {
    BoxedSlice::from_slice(alloc, secret)
}

fn is(secret: Own, bytes: &[u8]) -> bool {
    secret.as_slice() == bytes
}

// Returns the value of a stream of this seed and a secret of zeros, and the secret.
fn beside_zeros(seed: u64, input: &[u8]) -> Result<(u64, [u8; 136]), Fail> {
    let secret = SecretBuffer::new(seed, [0; 136]).ok().ok_or("136 bytes")?;
    let mut hasher = xxhash3_64::RawHasher::new(secret);
    hasher.write(input);
    Ok((hasher.finish(), hasher.into_secret()))
}

// Up to 240 bytes the secret isn't used, and it is returned.
#[test]
fn short_inputs_use_the_default_secret(rt: HostRuntime) -> Result<(), Fail> {
    let bytes = gen_10240();
    let (value, _) = beside_zeros(0, first(&bytes, 33))?;
    assert!(rt; value == 0xe68c_56ba_8899_1e58);
    let (value, secret) = beside_zeros(SEED, first(&bytes, 17))?;
    assert!(rt; value == 0x49ca_0fff_0950_1622);
    assert!(rt; secret == [0; 136]);
    Ok(())
}

// The secret that each constructor refuses and returns.
fn from_buffer_with_seed_and_secret(secret: Own) -> Option<Own> {
    match SecretBuffer::allocate_with_seed_and_secret(1, secret) {
        Ok(_) => None,
        Err(e) => Some(e.into_secret()),
    }
}

fn from_buffer_with_secret(secret: Own) -> Option<Own> {
    match SecretBuffer::allocate_with_secret(secret) {
        Ok(_) => None,
        Err(e) => Some(e.into_secret()),
    }
}

fn from_core(secret: Own) -> Option<Own> {
    match AllocRawHasher::allocate_with_secret(secret) {
        Ok(_) => None,
        Err(e) => Some(e.into_secret()),
    }
}

fn from_stream(secret: Own) -> Option<Own> {
    match XxHash3_64::with_secret(secret) {
        Ok(_) => None,
        Err(e) => Some(e.into_secret()),
    }
}

fn from_wide_stream(secret: Own) -> Option<Own> {
    match XxHash3_128::with_secret(secret) {
        Ok(_) => None,
        Err(e) => Some(e.into_secret()),
    }
}

fn from_all(secret: Own) -> Option<Own> {
    let secret = from_buffer_with_seed_and_secret(secret)?;
    let secret = from_buffer_with_secret(secret)?;
    let secret = from_core(secret)?;
    let secret = from_stream(secret)?;
    from_wide_stream(secret)
}

fn is_handed_back_by_all(secret: Option<Own>, bytes: &[u8]) -> bool {
    let Some(secret) = secret else {
        return false;
    };
    match from_all(secret) {
        Some(secret) => is(secret, bytes),
        None => false,
    }
}

#[test]
fn refused_secrets_are_handed_back(rt: HostRuntime) {
    let bytes = [7; 135];
    assert!(rt; is_handed_back_by_all(own(rt.alloc(), &bytes).ok(), &bytes));
}

fn keyed_core(alloc: Global, secret: &[u8]) -> Option<AllocRawHasher<Global>> {
    AllocRawHasher::allocate_with_secret(own(alloc, secret).ok()?).ok()
}

// True if the core has the value and the counts of five bytes.
fn has(core: &RawHasherCore<Own>, value: Option<u64>) -> bool {
    let counts = core.total_len() == 5 && core.stripes_done() == 0 && core.buffered() == 5;
    counts && value == Some(core.finish(Finalize64))
}

// True if a copy has them too, and the secret.
fn copy_keeps(core: &RawHasherCore<Own>, secret: &[u8], value: Option<u64>) -> bool {
    let Ok(copy) = core.clone() else {
        return false;
    };
    has(&copy, value) && is(copy.into_secret(), secret)
}

fn core_and_copy_keep(alloc: Global, secret: &[u8], input: &[u8]) -> bool {
    let value = XxHash3_64::oneshot_with_secret(secret, input).ok();
    let Some(mut core) = keyed_core(alloc, secret) else {
        return false;
    };
    core.write(input);
    has(&core, value) && copy_keeps(&core, secret, value)
}

// Copies, their counts and the secret that they return keep how a stream was made.
#[test]
fn copies_keep_how_they_were_made(rt: HostRuntime) {
    let bytes = gen_10240();
    assert!(rt; core_and_copy_keep(rt.alloc(), first(&bytes, 136), first(&bytes, 5)));
}
