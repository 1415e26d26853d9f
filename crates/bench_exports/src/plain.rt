//! XXH32 and XXH64.

ghost use Rattle.std.specs.Prelude.{◌≡◌, ◌^◌, ◌≤◌, min, take};
ghost use Rattle.twox_hash.specs.Xxh32.{xxh32};
ghost use Rattle.twox_hash.specs.Xxh64.{xxh64};

use crate::{Input, ROOM};
use twox_hash::{XxHash32, XxHash64};

#[unsafe(no_mangle)]
pub extern "C" fn twox_xxh32(seed: u32, input: &Input, len: usize) -> u32
    ensures { result ≡ xxh32 seed (take (min len (2 ^ 26)) input.now) }
{
    XxHash32::oneshot(seed, &input[..len.min(ROOM)])
}

#[unsafe(no_mangle)]
pub extern "C" fn twox_xxh64(seed: u64, input: &Input, len: usize) -> u64
    ensures { result ≡ xxh64 seed (take (min len (2 ^ 26)) input.now) }
{
    XxHash64::oneshot(seed, &input[..len.min(ROOM)])
}

/// Returns the hash under the seed 0 of the input in chunks of this many bytes.
#[unsafe(no_mangle)]
pub extern "C" fn twox_xxh32_stream(input: &Input, len: usize, piece: usize) -> u32 {
    let mut hasher = XxHash32::with_seed(0);
    for part in input[..len.min(ROOM)].chunks(piece.max(1)) {
        hasher.write(part);
    }
    hasher.finish_32()
}

/// Returns the hash under the seed 0 of the input in chunks of this many bytes.
#[unsafe(no_mangle)]
pub extern "C" fn twox_xxh64_stream(input: &Input, len: usize, piece: usize) -> u64 {
    let mut hasher = XxHash64::with_seed(0);
    for part in input[..len.min(ROOM)].chunks(piece.max(1)) {
        hasher.write(part);
    }
    hasher.finish()
}
