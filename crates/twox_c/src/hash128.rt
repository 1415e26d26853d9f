//! The 128-bit value as C has it.

ghost use Rattle.std.specs.Prelude.{◌≡◌, ◌↔◌, ◌<◌, pos, negsuc};
ghost use Rattle.std.specs.Int.{w128, to_be_bytes, from_be_bytes};
ghost use Rattle.twox_c.specs.Hash128.{value_of};

use twox_hash::words::{Halves, IntoU128};

/// `XXH128_hash_t`: a 128-bit value as its two halves.
#[repr(C)]
#[derive(Clone, Copy)]
pub struct Xxh128Hash {
    /// The low 64 bits.
    pub low64: u64,
    /// The high 64 bits.
    pub high64: u64,
}

impl Xxh128Hash {
    // Splits a value into its halves.
    #[inline(always)]
    pub(crate) fn of(value: u128) -> Xxh128Hash
        ensures { value_of result ≡ value }
    {
        Xxh128Hash {
            low64: value.lower_half(),
            high64: value.upper_half(),
        }
    }

    // Joins the halves.
    #[inline(always)]
    pub(crate) fn value(self) -> u128
        ensures { result ≡ value_of self }
    {
        (self.high64.into_u128() << 64) + self.low64.into_u128()
    }
}

/// `int XXH128_isEqual(XXH128_hash_t h1, XXH128_hash_t h2)`: returns 1 if the hashes are equal, and 0 if not.
#[unsafe(no_mangle)]
pub extern "C" fn XXH128_isEqual(h1: Xxh128Hash, h2: Xxh128Hash) -> i32
    ensures equal { value_of h1 ≡ value_of h2 → result ≡ pos 1 }
    ensures different { (¬ value_of h1 ≡ value_of h2) → result ≡ pos 0 }
{
    if h1.value() == h2.value() { 1 } else { 0 }
}

/// `int XXH128_cmp(const void* h128_1, const void* h128_2)`: returns 1, 0 or -1 if the first hash is greater than,
/// equal to or less than the second, as numbers of 128 bits. Both pointers must point to an `XXH128_hash_t`, aligned to
/// 8.
#[unsafe(no_mangle)]
pub extern "C" fn XXH128_cmp(h1: &Xxh128Hash, h2: &Xxh128Hash) -> i32
    ensures above { value_of h2.now < value_of h1.now → result ≡ pos 1 }
    ensures equal { value_of h1.now ≡ value_of h2.now → result ≡ pos 0 }
    ensures below { value_of h1.now < value_of h2.now → result ≡ negsuc 0 }
{
    let (first, second) = (h1.value(), h2.value());
    if first > second {
        1
    } else if first == second {
        0
    } else {
        -1
    }
}

/// `void XXH128_canonicalFromHash(XXH128_canonical_t* dst, XXH128_hash_t hash)`: writes the 16 bytes of the hash, the
/// highest first.
#[unsafe(no_mangle)]
pub extern "C" fn XXH128_canonicalFromHash(dst: &mut [u8; 16], hash: Xxh128Hash)
    ensures { dst.new ≡ to_be_bytes w128 (value_of hash) }
{
    *dst = hash.value().to_be_bytes();
}

/// `XXH128_hash_t XXH128_hashFromCanonical(const XXH128_canonical_t* src)`: returns the hash of these 16 bytes, the
/// highest first.
#[unsafe(no_mangle)]
pub extern "C" fn XXH128_hashFromCanonical(src: &[u8; 16]) -> Xxh128Hash
    ensures { value_of result ≡ from_be_bytes w128 src.now }
{
    Xxh128Hash::of(u128::from_be_bytes(*src))
}
