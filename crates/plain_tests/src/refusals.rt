//! The texts of errors.

use std::alloc::Global;
use std::fmt;
use twox_plain::xxhash32::{FormError as FormError32, RestoreError as RestoreError32};
use twox_plain::xxhash64::{FormError as FormError64, RestoreError as RestoreError64};

const USAGE: &str = "The buffer usage does not match the total length";

const CORE: &str = "The core does not match the seed";

const TEXT: &str = "The text is not a saved state";

const MEMORY: &str = "out of memory";

fn reads<E: fmt::Display + Drop>(alloc: Global, error: E, wanted: &str) -> bool {
    match format!(in alloc; "{error}") {
        Ok(text) => text.as_str() == wanted,
        Err(_) => false,
    }
}

#[test]
fn refused_records(rt: HostRuntime) {
    assert!(rt; reads(rt.alloc(), RestoreError32::BufferUsage, USAGE));
    assert!(rt; reads(rt.alloc(), RestoreError32::Core, CORE));
    assert!(rt; reads(rt.alloc(), RestoreError64::BufferUsage, USAGE));
    assert!(rt; reads(rt.alloc(), RestoreError64::Core, CORE));
}

#[test]
fn refused_texts(rt: HostRuntime) {
    assert!(rt; reads(rt.alloc(), FormError32::Text, TEXT));
    assert!(rt; reads(rt.alloc(), FormError32::Memory, MEMORY));
    assert!(rt; reads(rt.alloc(), FormError64::Text, TEXT));
    assert!(rt; reads(rt.alloc(), FormError64::Memory, MEMORY));
}
