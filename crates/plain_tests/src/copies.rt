//! Copies of hashers, records, accumulators and states. None allocates.

use crate::records::{record_32, record_64};
use twox_plain::xxhash32::Hasher as XxHash32;
use twox_plain::xxhash64::Hasher as XxHash64;

// True if there is a copy, and it is equal.
fn is_copied<T: Clone + PartialEq + Drop>(value: &T) -> bool {
    match value.clone() {
        Ok(copy) => copy == *value,
        Err(_) => false,
    }
}

#[test]
fn copies_of_records(rt: HostRuntime) {
    let narrow = record_32();
    assert!(rt; is_copied(&narrow) && is_copied(&narrow.core));
    let wide = record_64();
    assert!(rt; is_copied(&wide) && is_copied(&wide.core));
}

fn hasher_is_copied_32() -> bool {
    match XxHash32::from_state(record_32()) {
        Ok(hasher) => is_copied(&hasher),
        Err(_) => false,
    }
}

fn hasher_is_copied_64() -> bool {
    match XxHash64::from_state(record_64()) {
        Ok(hasher) => is_copied(&hasher),
        Err(_) => false,
    }
}

#[test]
fn copies_of_hashers(rt: HostRuntime) {
    assert!(rt; hasher_is_copied_32());
    assert!(rt; hasher_is_copied_64());
}
