//! Records of XXH32 and XXH64: what is restored, which are refused, and which hashers are equal.

use crate::values::HELLO;
use std::test::Fail;
use twox_plain::xxhash32::{self, Hasher as XxHash32, RestoreError as RestoreError32};
use twox_plain::xxhash64::{self, Hasher as XxHash64, RestoreError as RestoreError64};

// The record after the 14 bytes of `HELLO`.
pub(crate) fn record_32() -> xxhash32::SavedState {
    let mut hasher = XxHash32::with_seed(0);
    hasher.write(HELLO);
    hasher.to_state()
}

pub(crate) fn record_64() -> xxhash64::SavedState {
    let mut hasher = XxHash64::with_seed(0);
    hasher.write(HELLO);
    hasher.to_state()
}

pub(crate) fn refusal_32(record: xxhash32::SavedState) -> Option<RestoreError32> {
    XxHash32::from_state(record).err()
}

pub(crate) fn refusal_64(record: xxhash64::SavedState) -> Option<RestoreError64> {
    XxHash64::from_state(record).err()
}

// True if hashers of the two records are equal.
fn are_equal_32(a: xxhash32::SavedState, b: xxhash32::SavedState) -> Result<bool, RestoreError32> {
    Ok(XxHash32::from_state(a)? == XxHash32::from_state(b)?)
}

fn are_equal_64(a: xxhash64::SavedState, b: xxhash64::SavedState) -> Result<bool, RestoreError64> {
    Ok(XxHash64::from_state(a)? == XxHash64::from_state(b)?)
}

// Returns the value of the hasher that has this record.
fn value_32(record: xxhash32::SavedState) -> Result<u32, RestoreError32> {
    Ok(XxHash32::from_state(record)?.finish_32())
}

fn value_64(record: xxhash64::SavedState) -> Result<u64, RestoreError64> {
    Ok(XxHash64::from_state(record)?.finish())
}

#[test]
fn records_of_32_bits(rt: HostRuntime) {
    let record = record_32();
    assert!(rt; value_32(record) == Ok(0x9e5e_7e93));
    assert!(rt; record.core.v1 == 606_290_984);
}

#[test]
fn records_of_64_bits(rt: HostRuntime) {
    let record = record_64();
    assert!(rt; value_64(record) == Ok(0x7b06_c531_ea43_e89f));
    assert!(rt; record.core.v1 == 6_983_438_078_262_162_902);
    assert!(rt; record.core.v2 == 14_029_467_366_897_019_727);
    assert!(rt; record.core.v4 == 7_046_029_288_634_856_825);
}

// The usage is tested first.
#[test]
fn refused_records_of_32_bits(rt: HostRuntime) {
    let mut record = record_32();
    record.buffer_usage = 17;
    assert!(rt; refusal_32(record) == Some(RestoreError32::BufferUsage));
    record.core.v1 ^= 1;
    assert!(rt; refusal_32(record) == Some(RestoreError32::BufferUsage));
    record.buffer_usage = 14;
    assert!(rt; refusal_32(record) == Some(RestoreError32::Core));
}

#[test]
fn refused_records_of_64_bits(rt: HostRuntime) {
    let mut record = record_64();
    record.buffer_usage = 33;
    assert!(rt; refusal_64(record) == Some(RestoreError64::BufferUsage));
    record.buffer_usage = 14;
    record.core.v4 = 0;
    assert!(rt; refusal_64(record) == Some(RestoreError64::Core));
}

// A byte of the buffer that no call reads is part of the record, and changes no value.
#[test]
fn unread_bytes(rt: HostRuntime) {
    let mut narrow = record_32();
    narrow.buffer[15] = 9;
    assert!(rt; value_32(narrow) == Ok(0x9e5e_7e93));
    assert!(rt; are_equal_32(narrow, record_32()) == Ok(false));
    let mut wide = record_64();
    wide.buffer[31] = 9;
    assert!(rt; value_64(wide) == Ok(0x7b06_c531_ea43_e89f));
    assert!(rt; are_equal_64(wide, record_64()) == Ok(false));
}

#[test]
fn a_length_past_32_bits(rt: HostRuntime) -> Result<(), Fail> {
    let mut record = record_32();
    record.total_len = 4_300_000_000;
    record.buffer_usage = 0;
    assert!(rt; XxHash32::from_state(record)?.total_len_32() == 5_032_704);
    Ok(())
}

// From the maximum length on the counter stays, and the usage still changes.
#[test]
fn a_length_past_the_counter(rt: HostRuntime) -> Result<(), Fail> {
    let mut record = record_32();
    record.total_len = u64::MAX - 1;
    let mut hasher = XxHash32::from_state(record)?;
    hasher.write(b"12345");
    let after = hasher.to_state();
    assert!(rt; after.total_len == u64::MAX && after.buffer_usage == 3);
    assert!(rt; refusal_32(after) == None);
    Ok(())
}

// A record that no hasher made, of accumulators of zero and the maximum length: XXH32 has this value by a calculation
// by hand.
#[test]
fn the_greatest_length_over_accumulators_of_zero(rt: HostRuntime) {
    let mut record = record_32();
    record.total_len = u64::MAX;
    record.buffer_usage = 0;
    record.core = xxhash32::Core {
        v1: 0,
        v2: 0,
        v3: 0,
        v4: 0,
    };
    assert!(rt; value_32(record) == Ok(0x0173_fb23));
}

#[test]
fn usages_of_the_greatest_lengths(rt: HostRuntime) {
    let mut record = record_32();
    record.total_len = u64::MAX - 1;
    record.buffer_usage = 3;
    assert!(rt; refusal_32(record) == Some(RestoreError32::BufferUsage));
    record.total_len = u64::MAX;
    record.buffer_usage = 16;
    assert!(rt; refusal_32(record) == Some(RestoreError32::BufferUsage));
}

// Returns the record with one field changed: the length, the seed, each accumulator, the usage, a byte in use, and one
// that is not.
fn changed_32(record: xxhash32::SavedState, field: usize) -> xxhash32::SavedState {
    let mut other = record;
    match field {
        0 => other.total_len = 46,
        1 => other.seed = 1,
        2 => other.core.v1 ^= 1,
        3 => other.core.v2 ^= 1,
        4 => other.core.v3 ^= 1,
        5 => other.core.v4 ^= 0x8000_0000,
        6 => other.buffer_usage = 13,
        7 => other.buffer[0] ^= 1,
        _ => other.buffer[15] ^= 1,
    }
    other
}

fn changed_64(record: xxhash64::SavedState, field: usize) -> xxhash64::SavedState {
    let mut other = record;
    match field {
        0 => other.total_len = 46,
        1 => other.seed = 1,
        2 => other.core.v1 ^= 1,
        3 => other.core.v2 ^= 1,
        4 => other.core.v3 ^= 1,
        5 => other.core.v4 ^= 0x8000_0000_0000_0000,
        6 => other.buffer_usage = 13,
        7 => other.buffer[0] ^= 1,
        _ => other.buffer[31] ^= 1,
    }
    other
}

// Hashers whose records differ in only one field are unequal.
#[test]
fn hashers_of_32_bits_that_differ_in_one_field(rt: HostRuntime) {
    let mut record = record_32();
    record.total_len = u64::MAX;
    assert!(rt; are_equal_32(record, record) == Ok(true));
    for field in 0..9 {
        let other = changed_32(record, field);
        assert!(rt; are_equal_32(record, other) == Ok(false), "{field}");
    }
}

#[test]
fn hashers_of_64_bits_that_differ_in_one_field(rt: HostRuntime) {
    let mut record = record_64();
    record.total_len = u64::MAX;
    assert!(rt; are_equal_64(record, record) == Ok(true));
    for field in 0..9 {
        let other = changed_64(record, field);
        assert!(rt; are_equal_64(record, other) == Ok(false), "{field}");
    }
}
