//! Chunks of streams of XXH32.

ghost use Rattle.std.specs.Prelude.{◌≡◌, ◌↔◌, ◌<◌, ℕ, List, ◌++◌};
ghost use Rattle.twox_plain.specs.Record32.{Represents, after_write};
ghost use Rattle.twox_plain.specs.StateInMemory32.{record_of, usage_of};

use twox_exports::{DONE, NOT_A_STREAM};
use twox_plain::xxhash32::StateInMemory;

const _: () = prove!(size_of::<StateInMemory>() == 48);

/// Hashes a chunk after the bytes before.
///
/// `NOT_A_STREAM` if the record has no mark, or its mark counts a stripe or more as buffered. The record is then
/// unchanged.
#[unsafe(no_mangle)]
pub extern "C" fn twox_rust_xxh32_write(stream: &mut StateInMemory, input: &[u8]) -> u32
    ensures done { result ≡ DONE ↔ (usage_of stream.old < 16) }
    ensures refused { result ≡ NOT_A_STREAM ↔ (¬ (usage_of stream.old < 16)) }
    ensures message { (m : List ℕ) → result ≡ DONE → Represents (record_of stream.old) m
        → Represents (record_of stream.new) (m ++ input.now) }
    ensures seed { stream.new.seed ≡ stream.old.seed }
    ensures exact { result ≡ DONE
        → record_of stream.new ≡ after_write (record_of stream.old) input.now }
    ensures in_range { result ≡ DONE → usage_of stream.new < 16 }
    ensures kept { result ≡ NOT_A_STREAM → stream.new ≡ stream.old }
{
    if stream.usage() >= 16 {
        return NOT_A_STREAM;
    }
    stream.add_piece(input);
    DONE
}
