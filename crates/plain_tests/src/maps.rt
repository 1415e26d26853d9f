//! The states that build hashers, and maps over them.

use rand_core::SeedableRng;
use rand_xoshiro::SplitMix64;
use std::collections::HashMap;
use std::hash::{BuildHasher, Hasher};
use std::test::Fail;
use twox_plain::{xxhash32, xxhash64};

const OTHER_SEED: u32 = 0x42c9_1977;

// Generators whose next word is 1234, and 0x42c9_1977.
const NEXT_IS_1234: u64 = 0xc410_fa8e_acee_9ea3;

const NEXT_IS_OTHER: u64 = 0xcd9f_e7d4_0efb_05e9;

// Any hasher of the standard trait, as a map's build type makes it.
fn hash_by<S: BuildHasher>(state: &S, input: &[u8]) -> u64 {
    let mut hasher = state.build_hasher();
    hasher.write(input);
    hasher.finish()
}

fn drawn_32() -> xxhash32::RandomState {
    xxhash32::RandomState::from_rng(&mut SplitMix64::seed_from_u64(NEXT_IS_OTHER))
}

fn drawn_64() -> xxhash64::RandomState {
    xxhash64::RandomState::from_rng(&mut SplitMix64::seed_from_u64(NEXT_IS_1234))
}

// True if the state and a copy of it have this value of the input.
fn both_have<S: BuildHasher + Clone + Drop>(state: &S, input: &[u8], value: u64) -> bool {
    match state.clone() {
        Ok(copy) => hash_by(state, input) == value && hash_by(&copy, input) == value,
        Err(_) => false,
    }
}

#[test]
fn states_of_a_seed(rt: HostRuntime) {
    let narrow = xxhash32::State::with_seed(OTHER_SEED);
    assert!(rt; both_have(&narrow, b"", 0xd6bf_8459));
    let wide = xxhash64::State::with_seed(1234);
    assert!(rt; both_have(&wide, b"some bytes", 0xeab5_5659_a496_d78b));
}

#[test]
fn states_of_a_drawn_seed(rt: HostRuntime) {
    assert!(rt; both_have(&drawn_32(), b"", 0xd6bf_8459));
    assert!(rt; both_have(&drawn_64(), b"some bytes", 0xeab5_5659_a496_d78b));
}

#[test]
fn maps_of_32_bits(rt: HostRuntime) -> Result<(), Fail> {
    let mut map = HashMap::with_hasher(rt.alloc(), xxhash32::State::with_seed(0xdead_cafe));
    map.insert(42, "the answer")?;
    assert!(rt; map.get(&42) == Some(&"the answer"));
    Ok(())
}

#[test]
fn maps_of_64_bits(rt: HostRuntime) -> Result<(), Fail> {
    let mut map = HashMap::with_hasher(rt.alloc(), xxhash64::State::with_seed(0xdead_cafe));
    map.insert(42, "the answer")?;
    assert!(rt; map.get(&42) == Some(&"the answer"));
    Ok(())
}
