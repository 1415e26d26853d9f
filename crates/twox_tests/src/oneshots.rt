//! XXH3 one-shots, with every combination of seed and secret.

use crate::rows::{SEED, first, gen_10240, rows, seeded_rows};
use std::alloc::Global;
use std::fmt;
use std::test::Fail;
use twox_hash::xxhash3::secret::Error;
use twox_hash::xxhash3::{DEFAULT_SECRET_RAW, OneshotWithSecretError, Secret};
use twox_hash::{XxHash3_64, XxHash3_128};

fn under_secret_64(secret: &[u8], input: &[u8]) -> Result<u64, OneshotWithSecretError> {
    XxHash3_64::oneshot_with_secret(secret, input)
}

fn under_secret_128(secret: &[u8], input: &[u8]) -> Result<u128, OneshotWithSecretError> {
    XxHash3_128::oneshot_with_secret(secret, input)
}

fn under_both_64(seed: u64, secret: &[u8], input: &[u8]) -> Result<u64, OneshotWithSecretError> {
    XxHash3_64::oneshot_with_seed_and_secret(seed, secret, input)
}

fn under_both_128(seed: u64, secret: &[u8], input: &[u8]) -> Result<u128, OneshotWithSecretError> {
    XxHash3_128::oneshot_with_seed_and_secret(seed, secret, input)
}

// Every one-shot, with each way to pass the default secret and the seed 0.
fn has_value_64(input: &[u8], value: u64) -> bool {
    XxHash3_64::oneshot(input) == value
        && XxHash3_64::oneshot_with_seed(0, input) == value
        && under_secret_64(&DEFAULT_SECRET_RAW, input) == Ok(value)
        && under_both_64(0, &DEFAULT_SECRET_RAW, input) == Ok(value)
}

fn has_value_128(input: &[u8], value: u128) -> bool {
    XxHash3_128::oneshot(input) == value
        && XxHash3_128::oneshot_with_seed(0, input) == value
        && under_secret_128(&DEFAULT_SECRET_RAW, input) == Ok(value)
        && under_both_128(0, &DEFAULT_SECRET_RAW, input) == Ok(value)
}

#[test]
fn values_without_a_seed(rt: HostRuntime) {
    let bytes = gen_10240();
    for row in rows() {
        let input = first(&bytes, row.len);
        assert!(rt; has_value_64(input, row.value), "{} bytes", row.len);
        assert!(rt; has_value_128(input, row.wide_value), "{} bytes", row.len);
    }
}

// Up to 240 bytes any secret may be passed with the seed, even an empty one.
fn has_seeded_value(input: &[u8], value: u64) -> bool {
    XxHash3_64::oneshot_with_seed(SEED, input) == value
        && (input.len() > 240 || under_both_64(SEED, &[], input) == Ok(value))
}

#[test]
fn values_under_a_seed(rt: HostRuntime) {
    let bytes = gen_10240();
    for (len, value) in seeded_rows() {
        assert!(rt; has_seeded_value(first(&bytes, len), value), "{len} bytes");
    }
}

#[test]
fn a_secret_of_zeros(rt: HostRuntime) {
    assert!(rt; under_secret_64(&[0; 136], &[]) == Ok(0));
    assert!(rt; under_secret_128(&[0; 136], &[]) == Ok(0));
    assert!(rt; under_secret_64(&[0; 136], &[0; 4]) == Ok(0x7ec8_7193_96e4_65d3));
}

// Up to 240 bytes a secret passed with a seed has no effect; above that it must be long enough and the seed has no
// effect.
fn is_the_seedless(input: &[u8], value: u64, wide: u128) -> bool {
    if input.len() <= 240 {
        under_both_64(0, &[], input) == Ok(value) && under_both_128(0, &[], input) == Ok(wide)
    } else {
        under_both_64(7, &DEFAULT_SECRET_RAW, input) == Ok(value)
            && under_both_128(7, &DEFAULT_SECRET_RAW, input) == Ok(wide)
    }
}

#[test]
fn secrets_beside_a_seed(rt: HostRuntime) {
    let bytes = gen_10240();
    for row in rows() {
        let input = first(&bytes, row.len);
        assert!(rt;
            is_the_seedless(input, row.value, row.wide_value),
            "{} bytes",
            row.len
        );
    }
}

fn alone_are_refused(secret: &[u8], input: &[u8]) -> bool {
    under_secret_64(secret, input).is_err() && under_secret_128(secret, input).is_err()
}

fn both_are_refused(secret: &[u8], input: &[u8]) -> bool {
    under_both_64(7, secret, input).is_err() && under_both_128(7, secret, input).is_err()
}

#[test]
fn secrets_that_are_too_short(rt: HostRuntime) {
    let bytes = gen_10240();
    let (long, too_short) = (first(&bytes, 241), first(&bytes, 135));
    assert!(rt; both_are_refused(too_short, long));
    assert!(rt; alone_are_refused(too_short, long));
    assert!(rt; alone_are_refused(&[0; 135], &[]));
    assert!(rt; Secret::new(&[0; 135]).is_err());
}

fn reads<E: fmt::Display + Drop>(alloc: Global, error: E) -> Result<bool, Fail> {
    let text = format!(in alloc; "{error}")?;
    Ok(text.as_str() == "The secret must have at least 136 bytes")
}

#[test]
fn texts_of_refused_secrets(rt: HostRuntime) -> Result<(), Fail> {
    let error = refusal_of_a_secret(&[0; 135])?;
    assert!(rt; reads(rt.alloc(), error)?);
    assert!(rt; reads(rt.alloc(), OneshotWithSecretError::from(error))?);
    Ok(())
}

fn refusal_of_a_secret(secret: &[u8]) -> Result<Error, Fail> {
    Ok(Secret::new(secret).err().ok_or("135 bytes")?)
}

fn refusal_of_a_oneshot(secret: &[u8]) -> Result<OneshotWithSecretError, Fail> {
    Ok(under_secret_64(secret, &[]).err().ok_or("135 bytes")?)
}

#[test]
fn texts_of_secrets_that_are_too_short(rt: HostRuntime) -> Result<(), Fail> {
    assert!(rt; reads(rt.alloc(), refusal_of_a_secret(&[0; 135])?)?);
    assert!(rt; reads(rt.alloc(), refusal_of_a_oneshot(&[0; 135])?)?);
    Ok(())
}
