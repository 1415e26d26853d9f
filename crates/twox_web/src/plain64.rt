//! XXH64.

ghost use Rattle.std.specs.Prelude.{◌≡◌, ◌↔◌, ℕ, List, [], ◌++◌};
ghost use Rattle.twox_hash.specs.Xxh64.{xxh64};
ghost use Rattle.twox_hash.specs.Record64.{Represents, IsReachable, initial_record, after_write, finish_value};

use twox_exports::{DONE, NOT_A_STREAM};
use twox_hash::XxHash64;
use twox_hash::xxhash64::SavedState;

/// Returns the hash of all bytes at once.
#[unsafe(no_mangle)]
pub extern "C" fn twox_xxh64(seed: u64, input: &[u8]) -> u64
    ensures { result ≡ xxh64 seed input.now }
{
    XxHash64::oneshot(seed, input)
}

/// Returns the size of a stream's record in bytes.
#[unsafe(no_mangle)]
pub extern "C" fn twox_xxh64_stream_size() -> usize
    ensures { result ≡ 88 }
{
    size_of::<SavedState>()
}

/// Makes the record a stream of no bytes, whatever it was.
#[unsafe(no_mangle)]
pub extern "C" fn twox_xxh64_start(stream: &mut SavedState, seed: u64)
    ensures record { stream.new ≡ initial_record seed }
    ensures empty { Represents stream.new [] }
    ensures seed { stream.new.seed ≡ seed }
{
    *stream = XxHash64::with_seed(seed).to_state();
}

/// Hashes a chunk after the bytes before.
///
/// `NOT_A_STREAM` if no list of bytes leads to the record. The record is then unchanged.
#[unsafe(no_mangle)]
pub extern "C" fn twox_xxh64_update(stream: &mut SavedState, input: &[u8]) -> u32
    ensures done { result ≡ DONE ↔ IsReachable stream.old }
    ensures refused { result ≡ NOT_A_STREAM ↔ (¬ IsReachable stream.old) }
    ensures message { (m : List ℕ) → Represents stream.old m
        → (result ≡ DONE) × Represents stream.new (m ++ input.now) }
    ensures seed { stream.new.seed ≡ stream.old.seed }
    ensures exact { result ≡ DONE → stream.new ≡ after_write stream.old input.now }
    ensures kept { result ≡ NOT_A_STREAM → stream.new ≡ stream.old }
{
    let Ok(mut hasher) = XxHash64::from_state(*stream) else {
        return NOT_A_STREAM;
    };
    hasher.write(input);
    *stream = hasher.to_state();
    DONE
}

/// Writes the hash of the bytes so far. More can be hashed afterwards.
///
/// `NOT_A_STREAM` if no list of bytes leads to the record. Nothing is then written.
#[unsafe(no_mangle)]
pub extern "C" fn twox_xxh64_digest(stream: &SavedState, value: &mut u64) -> u32
    ensures done { result ≡ DONE ↔ IsReachable stream.now }
    ensures refused { result ≡ NOT_A_STREAM ↔ (¬ IsReachable stream.now) }
    ensures message { (m : List ℕ) → Represents stream.now m
        → (result ≡ DONE) × (value.new ≡ xxh64 stream.now.seed m) }
    ensures exact { result ≡ DONE → value.new ≡ finish_value stream.now }
    ensures kept { result ≡ NOT_A_STREAM → value.new ≡ value.old }
{
    let Ok(hasher) = XxHash64::from_state(*stream) else {
        return NOT_A_STREAM;
    };
    *value = hasher.finish();
    DONE
}
