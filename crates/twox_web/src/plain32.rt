//! XXH32, by stripes only, which is the fastest way in WebAssembly without vectors.

ghost use Rattle.std.specs.Prelude.{◌≡◌, ◌↔◌, ℕ, List, [], ◌++◌};
ghost use Rattle.twox_hash.specs.Xxh32.{xxh32};
ghost use Rattle.twox_hash.specs.Record32.{Represents, IsReachable, initial_record, after_write, finish_value};

use twox_exports::{DONE, NOT_A_STREAM};
use twox_hash::XxHash32;
use twox_hash::xxhash32::SavedState;
use twox_plain::by_stripes;

/// Returns the hash of all bytes at once.
#[unsafe(no_mangle)]
pub extern "C" fn twox_xxh32(seed: u32, input: &[u8]) -> u32
    ensures { result ≡ xxh32 seed input.now }
{
    by_stripes::oneshot(seed, input)
}

/// Returns the size of a stream's record in bytes.
#[unsafe(no_mangle)]
pub extern "C" fn twox_xxh32_stream_size() -> usize
    ensures { result ≡ 56 }
{
    size_of::<SavedState>()
}

/// Makes the record a stream of no bytes, whatever it was.
#[unsafe(no_mangle)]
pub extern "C" fn twox_xxh32_start(stream: &mut SavedState, seed: u32)
    ensures record { stream.new ≡ initial_record seed }
    ensures empty { Represents stream.new [] }
    ensures seed { stream.new.seed ≡ seed }
{
    *stream = XxHash32::with_seed(seed).to_state();
}

/// Hashes a chunk after the bytes before.
///
/// `NOT_A_STREAM` if no list of bytes leads to the record. The record is then unchanged.
#[unsafe(no_mangle)]
pub extern "C" fn twox_xxh32_update(stream: &mut SavedState, input: &[u8]) -> u32
    ensures done { result ≡ DONE ↔ IsReachable stream.old }
    ensures refused { result ≡ NOT_A_STREAM ↔ (¬ IsReachable stream.old) }
    ensures message { (m : List ℕ) → Represents stream.old m
        → (result ≡ DONE) × Represents stream.new (m ++ input.now) }
    ensures seed { stream.new.seed ≡ stream.old.seed }
    ensures exact { result ≡ DONE → stream.new ≡ after_write stream.old input.now }
    ensures kept { result ≡ NOT_A_STREAM → stream.new ≡ stream.old }
{
    let Ok(mut hasher) = XxHash32::from_state(*stream) else {
        return NOT_A_STREAM;
    };
    by_stripes::write(&mut hasher, input);
    *stream = hasher.to_state();
    DONE
}

/// Writes the hash of the bytes so far. More can be hashed afterwards.
///
/// `NOT_A_STREAM` if no list of bytes leads to the record. Nothing is then written.
#[unsafe(no_mangle)]
pub extern "C" fn twox_xxh32_digest(stream: &SavedState, value: &mut u32) -> u32
    ensures done { result ≡ DONE ↔ IsReachable stream.now }
    ensures refused { result ≡ NOT_A_STREAM ↔ (¬ IsReachable stream.now) }
    ensures message { (m : List ℕ) → Represents stream.now m
        → (result ≡ DONE) × (value.new ≡ xxh32 stream.now.seed m) }
    ensures exact { result ≡ DONE → value.new ≡ finish_value stream.now }
    ensures kept { result ≡ NOT_A_STREAM → value.new ≡ value.old }
{
    let Ok(hasher) = XxHash32::from_state(*stream) else {
        return NOT_A_STREAM;
    };
    *value = hasher.finish_32();
    DONE
}
