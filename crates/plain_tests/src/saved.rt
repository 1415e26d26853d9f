//! Saved texts of XXH32 and XXH64: round trips, and what is refused.

use crate::records::{record_32, record_64};
use std::alloc::{AllocError, Global};
use twox_plain::xxhash32::{self, FormError as FormError32, Hasher as XxHash32};
use twox_plain::xxhash64::{self, FormError as FormError64, Hasher as XxHash64};

const TEXT_32: &str =
    "{\"buffer\":[72,101,108,108,111,44,32,119,111,114,108,100,33,0,0,0],\"buffer_usage\":14,\"core\":{\"v1\":606290984,\"v2\":2246822519,\"v3\":0,\"v4\":1640531535},\"seed\":0,\"total_len\":14}";

const TEXT_64: &str =
    "{\"buffer\":[72,101,108,108,111,44,32,119,111,114,108,100,33,0,0,0,0,0,0,0,0,0,0,0,0,0,0,0,0,0,0,0],\"buffer_usage\":14,\"core\":{\"v1\":6983438078262162902,\"v2\":14029467366897019727,\"v3\":0,\"v4\":7046029288634856825},\"seed\":0,\"total_len\":14}";

// The text after the buffer, of a hasher of no bytes under the seed 0.
const REST_32: &str =
    "\"buffer_usage\":0,\"core\":{\"v1\":606290984,\"v2\":2246822519,\"v3\":0,\"v4\":1640531535},\"seed\":0,\"total_len\":0}";

const REST_64: &str =
    "\"buffer_usage\":0,\"core\":{\"v1\":6983438078262162902,\"v2\":14029467366897019727,\"v3\":0,\"v4\":7046029288634856825},\"seed\":0,\"total_len\":0}";

fn read_32(alloc: Global, text: &str) -> Result<xxhash32::SavedState, FormError32> {
    xxhash32::SavedState::from_json(alloc, text)
}

fn read_64(alloc: Global, text: &str) -> Result<xxhash64::SavedState, FormError64> {
    xxhash64::SavedState::from_json(alloc, text)
}

fn is_refused_32(alloc: Global, text: &str) -> bool {
    read_32(alloc, text) == Err(FormError32::Text)
}

fn is_refused_64(alloc: Global, text: &str) -> bool {
    read_64(alloc, text) == Err(FormError64::Text)
}

fn is_saved_as_32(alloc: Global, record: xxhash32::SavedState, text: &str) -> bool {
    match record.to_json(alloc) {
        Ok(saved) => saved.as_str() == text,
        Err(_) => false,
    }
}

fn is_saved_as_64(alloc: Global, record: xxhash64::SavedState, text: &str) -> bool {
    match record.to_json(alloc) {
        Ok(saved) => saved.as_str() == text,
        Err(_) => false,
    }
}

#[test]
fn saved_texts(rt: HostRuntime) {
    assert!(rt; is_saved_as_32(rt.alloc(), record_32(), TEXT_32));
    assert!(rt; is_saved_as_64(rt.alloc(), record_64(), TEXT_64));
    assert!(rt; read_32(rt.alloc(), TEXT_32) == Ok(record_32()));
    assert!(rt; read_64(rt.alloc(), TEXT_64) == Ok(record_64()));
}

#[test]
fn texts_of_no_record(rt: HostRuntime) {
    assert!(rt; is_refused_32(rt.alloc(), TEXT_64));
    assert!(rt; is_refused_64(rt.alloc(), TEXT_32));
    assert!(rt; is_refused_32(rt.alloc(), "{}"));
}

// Returns a saved text whose buffer has this many numbers.
fn text_of(alloc: Global, numbers: u32, rest: &str) -> Result<String, AllocError> {
    let mut text = String::new(alloc);
    text.push_str("{\"buffer\":[")?;
    for i in 0..numbers {
        text.push_str(if i == 0 { "0" } else { ",0" })?;
    }
    text.push_str("],")?;
    text.push_str(rest)?;
    Ok(text)
}

fn is_refused_with_32(alloc: Global, numbers: u32) -> bool {
    match text_of(alloc, numbers, REST_32) {
        Ok(text) => is_refused_32(alloc, text.as_str()),
        Err(_) => false,
    }
}

fn is_refused_with_64(alloc: Global, numbers: u32) -> bool {
    match text_of(alloc, numbers, REST_64) {
        Ok(text) => is_refused_64(alloc, text.as_str()),
        Err(_) => false,
    }
}

#[test]
fn other_numbers_of_buffer_bytes(rt: HostRuntime) {
    for numbers in [0, 15, 17, 31, 32, 33] {
        assert!(rt;
            is_refused_with_32(rt.alloc(), numbers),
            "{numbers} numbers"
        );
    }
    for numbers in [0, 15, 16, 17, 31, 33] {
        assert!(rt;
            is_refused_with_64(rt.alloc(), numbers),
            "{numbers} numbers"
        );
    }
}

// Returns a saved text before this many spaces, longer than any constant of the code: out of memory is not a valid
// result if no allocation is refused.
fn long_text(alloc: Global, saved: &str, spaces: u32) -> Result<String, AllocError> {
    let mut text = String::new(alloc);
    text.push_str(saved)?;
    for _ in 0..spaces {
        text.push_str(" ")?;
    }
    Ok(text)
}

#[test]
fn long_texts_are_read(rt: HostRuntime) {
    for spaces in [1000, 100_000, 1_000_000] {
        assert!(rt;
            reads_as_32(
                rt.alloc(),
                long_text(rt.alloc(), TEXT_32, spaces),
                record_32()
            ),
            "{spaces} spaces"
        );
        assert!(rt;
            reads_as_64(
                rt.alloc(),
                long_text(rt.alloc(), TEXT_64, spaces),
                record_64()
            ),
            "{spaces} spaces"
        );
    }
}

// True if the text is read as the record.
fn reads_as_32(
    alloc: Global,
    text: Result<String, AllocError>,
    record: xxhash32::SavedState,
) -> bool {
    match text {
        Ok(text) => read_32(alloc, text.as_str()) == Ok(record),
        Err(_) => false,
    }
}

pub(crate) fn comes_back_32(alloc: Global, record: xxhash32::SavedState) -> bool {
    reads_as_32(alloc, record.to_json(alloc), record)
}

// True if the text is read as the record.
fn reads_as_64(
    alloc: Global,
    text: Result<String, AllocError>,
    record: xxhash64::SavedState,
) -> bool {
    match text {
        Ok(text) => read_64(alloc, text.as_str()) == Ok(record),
        Err(_) => false,
    }
}

pub(crate) fn comes_back_64(alloc: Global, record: xxhash64::SavedState) -> bool {
    reads_as_64(alloc, record.to_json(alloc), record)
}

#[test]
fn as_many_numbers_as_buffer_bytes(rt: HostRuntime) {
    let text = text_of(rt.alloc(), 16, REST_32);
    assert!(rt; reads_as_32(rt.alloc(), text, XxHash32::with_seed(0).to_state()));
    let text = text_of(rt.alloc(), 32, REST_64);
    assert!(rt; reads_as_64(rt.alloc(), text, XxHash64::with_seed(0).to_state()));
}

// Returns the record after the first bytes of this input.
fn record_after_32(seed: u64, input: &[u8]) -> xxhash32::SavedState {
    let mut hasher = XxHash32::with_seed((seed % 0x1_0000_0000) as u32);
    hasher.write(input);
    hasher.to_state()
}

fn record_after_64(seed: u64, input: &[u8]) -> xxhash64::SavedState {
    let mut hasher = XxHash64::with_seed(seed);
    hasher.write(input);
    hasher.to_state()
}

const GREAT: [u64; 3] = [4_300_000_000, u64::MAX - 1, u64::MAX];

// Reads back the record, and the same with large lengths.
fn all_come_back_32(alloc: Global, record: xxhash32::SavedState) -> bool {
    let mut agree = comes_back_32(alloc, record);
    let mut other = record;
    for total_len in GREAT {
        other.total_len = total_len;
        agree &= comes_back_32(alloc, other);
    }
    agree
}

fn all_come_back_64(alloc: Global, record: xxhash64::SavedState) -> bool {
    let mut agree = comes_back_64(alloc, record);
    let mut other = record;
    for total_len in GREAT {
        other.total_len = total_len;
        agree &= comes_back_64(alloc, other);
    }
    agree
}

// Seeds of one digit and of the maximum number of digits.
const SEEDS: [u64; 3] = [0, 7, u64::MAX];

// Hashers of every length around the first two stripes.
#[test]
fn there_and_back_at_32_bits(rt: HostRuntime) {
    let input = [251; 66];
    for seed in SEEDS {
        for len in 0..=34 {
            let record = record_after_32(seed, &input[..len]);
            assert!(rt; all_come_back_32(rt.alloc(), record), "{len} bytes");
        }
    }
}

#[test]
fn there_and_back_at_64_bits(rt: HostRuntime) {
    let input = [251; 66];
    for seed in SEEDS {
        for len in 0..=66 {
            let record = record_after_64(seed, &input[..len]);
            assert!(rt; all_come_back_64(rt.alloc(), record), "{len} bytes");
        }
    }
}
