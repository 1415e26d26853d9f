//! One-shots of XXH3 for more than 240 bytes.

ghost use Rattle.std.specs.Prelude.{◌≡◌, ◌↔◌, ◌<◌, ◌≤◌, ℕ, length};
ghost use Rattle.twox_exports.specs.Number.{number_of};
ghost use Rattle.twox_hash.specs.Value.{xxh3_64, xxh3_128};

use crate::INPUT_TOO_SHORT;
use twox_core::{width_64, width_128};
use twox_exports::{DONE, SECRET_TOO_SHORT, Wide};
use twox_hash::xxhash3::{CUTOFF, Secret};

/// A code and a value, as two registers. The value is 0 if the code isn't `DONE`.
#[derive(Clone, Copy)]
#[repr(C)]
pub struct Answer {
    /// `DONE`, or the reason for no value.
    pub code: u32,
    /// The hash.
    pub value: u64,
}

/// Returns the 64-bit hash under a secret. No seed has an effect at this length.
///
/// - `INPUT_TOO_SHORT` if the input has 240 bytes or fewer.
/// - `SECRET_TOO_SHORT` if the input is longer and the secret has fewer than 136 bytes.
#[unsafe(no_mangle)]
pub extern "C" fn twox_rust_xxh3_64_long(input: &[u8], secret: &[u8]) -> Answer
    ensures done { result.code ≡ DONE ↔ ((240 < length input.now) × (136 ≤ length secret.now)) }
    ensures few { result.code ≡ INPUT_TOO_SHORT ↔ (length input.now ≤ 240) }
    ensures short { result.code ≡ SECRET_TOO_SHORT
        ↔ ((240 < length input.now) × (length secret.now < 136)) }
    ensures value { result.code ≡ DONE
        → (seed : ℕ) → result.value ≡ xxh3_64 seed secret.now input.now }
    ensures none { (¬ (result.code ≡ DONE)) → result.value ≡ 0 }
{
    if input.len() <= CUTOFF {
        return Answer {
            code: INPUT_TOO_SHORT,
            value: 0,
        };
    }
    match Secret::new(secret) {
        Ok(secret) => Answer {
            code: DONE,
            value: width_64::oneshot_long(secret, input),
        },
        Err(_) => Answer {
            code: SECRET_TOO_SHORT,
            value: 0,
        },
    }
}

/// Writes the 128-bit hash under a secret. No seed has an effect at this length.
///
/// - `INPUT_TOO_SHORT` if the input has 240 bytes or fewer.
/// - `SECRET_TOO_SHORT` if the input is longer and the secret has fewer than 136 bytes.
///
/// If it returns a code other than `DONE`, nothing is written.
#[unsafe(no_mangle)]
pub extern "C" fn twox_rust_xxh3_128_long(input: &[u8], secret: &[u8], value: &mut Wide) -> u32
    ensures done { result ≡ DONE ↔ ((240 < length input.now) × (136 ≤ length secret.now)) }
    ensures few { result ≡ INPUT_TOO_SHORT ↔ (length input.now ≤ 240) }
    ensures short { result ≡ SECRET_TOO_SHORT
        ↔ ((240 < length input.now) × (length secret.now < 136)) }
    ensures value { result ≡ DONE
        → (seed : ℕ) → number_of value.new ≡ xxh3_128 seed secret.now input.now }
    ensures kept { (¬ (result ≡ DONE)) → value.new ≡ value.old }
{
    if input.len() <= CUTOFF {
        return INPUT_TOO_SHORT;
    }
    let Ok(secret) = Secret::new(secret) else {
        return SECRET_TOO_SHORT;
    };
    *value = width_128::oneshot_long(secret, input);
    DONE
}
