//! Chunks of streams of XXH3.

ghost use Rattle.std.specs.Prelude.{◌≡◌, ◌↔◌, ◌<◌, ◌≤◌, List, ℕ, ◌++◌, length};
ghost use Rattle.twox_core.specs.AfterWrite.{state_after_write};
ghost use Rattle.twox_core.specs.InRange.{IsInRange};
ghost use Rattle.twox_core.specs.Represents.{Follows};

use twox_exports::stream_3::write;
use twox_exports::{DONE, NOT_A_STREAM, SECRET_TOO_SHORT};
use twox_hash::xxhash3::{CoreState, Kernel};

/// Hashes a chunk after the bytes before, over the stream's secret.
///
/// - `SECRET_TOO_SHORT` if the secret has fewer than 136 bytes.
/// - `NOT_A_STREAM` if the state's place in the secret or its number of bytes is one that no call leaves.
///
/// If it returns a code other than `DONE`, the state is unchanged.
#[unsafe(no_mangle)]
pub extern "C" fn twox_rust_xxh3_write(core: &mut CoreState, secret: &[u8], input: &[u8]) -> u32
    ensures done { result ≡ DONE ↔ ((136 ≤ length secret.now) × IsInRange secret.now core.old) }
    ensures short { result ≡ SECRET_TOO_SHORT ↔ (length secret.now < 136) }
    ensures refused { result ≡ NOT_A_STREAM
        ↔ ((136 ≤ length secret.now) × (¬ IsInRange secret.now core.old)) }
    ensures message { (m : List ℕ) → Follows secret.now core.old m → 136 ≤ length secret.now
        → (result ≡ DONE) × Follows secret.now core.new (m ++ input.now) }
    ensures exact { result ≡ DONE → core.new ≡ state_after_write secret.now core.old input.now }
    ensures kept { (¬ (result ≡ DONE)) → core.new ≡ core.old }
{
    write(core, Kernel {}, secret, input)
}
