//! The program that CALLING.md links to: callers with contracts, a map, a stream and a saved hasher.
#![tactic(auto)]

mod callers;

use rand_core::SeedableRng;
use rand_xoshiro::SplitMix64;
use std::boxed::BoxedSlice;
use std::collections::HashMap;
use twox_hash::xxhash3::DEFAULT_SECRET_RAW;
use twox_hash::xxhash64::{RandomState, SavedState};
use twox_hash::{XxHash3_64, XxHash64};

fn main(rt: HostRuntime) -> anyhow::Result<()> {
    let alloc = rt.alloc();

    // A map, whose hashers have a seed of the generator's.
    let mut rng = SplitMix64::seed_from_u64(7);
    let mut map = HashMap::with_hasher(alloc, RandomState::from_rng(&mut rng));
    map.insert(42, "the answer")?;
    println!(rt; "{}", map.get(&42).copied().unwrap_or("none"))?;

    // A stream made with its secret alone. A secret of fewer than 136 bytes is refused.
    let secret = BoxedSlice::from_slice(alloc, &DEFAULT_SECRET_RAW)?;
    if let Ok(mut stream) = XxHash3_64::with_secret(secret) {
        stream.write(b"some bytes");
        println!(rt; "{:016x}", stream.finish())?;
    }

    // A hasher that is kept as text, and goes on.
    let mut hasher = XxHash64::with_seed(1234);
    hasher.write(b"some");
    let text = hasher.to_state().to_json(alloc)?;
    let mut restored = XxHash64::from_state(SavedState::from_json(alloc, text.as_str())?)?;
    restored.write(b" bytes");
    println!(rt; "{:016x}", restored.finish())?;
    Ok(())
}
