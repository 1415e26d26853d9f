//! Little-endian words of a slice by absolute position, value-preserving conversions, halves of a word, and chunks of a
//! slice.

ghost use Rattle.std.specs.Prelude.{◌≡◌, ◌↔◌, ◌+◌, ◌-◌, ◌≤◌, ℕ, List, IsSome, IfSome, length};
ghost use Rattle.std.specs.Int.{w32, w64};
ghost use Rattle.twox_words.specs.Word.{word_at};

mod chunks;
mod halves;
mod widening;

pub use chunks::{bp_as_chunks, bp_as_chunks_mut};
pub use halves::Halves;
pub use widening::{IntoU32, IntoU64, IntoU128};

/// Returns the eight-byte word at byte `i`, low byte first.
///
/// The caller proves that the slice has eight bytes from `i` on, so the load has no test.
#[inline]
pub fn u64_at(bytes: &[u8], i: usize) -> u64
    requires { i + 8 ≤ length bytes.now }
    ensures { result ≡ word_at w64 bytes.now i }
{
    u64::from_le_bytes([
        bytes[i],
        bytes[i + 1],
        bytes[i + 2],
        bytes[i + 3],
        bytes[i + 4],
        bytes[i + 5],
        bytes[i + 6],
        bytes[i + 7],
    ])
}

/// Returns the four-byte word at byte `i`, low byte first.
///
/// The caller proves that the slice has four bytes from `i` on, so the load has no test.
#[inline]
pub fn u32_at(bytes: &[u8], i: usize) -> u32
    requires { i + 4 ≤ length bytes.now }
    ensures { result ≡ word_at w32 bytes.now i }
{
    u32::from_le_bytes([bytes[i], bytes[i + 1], bytes[i + 2], bytes[i + 3]])
}

/// Words at both ends of a slice of bytes, low byte first.
///
/// Each method returns `None` if and only if the slice has fewer bytes than the word.
pub trait U8SliceExt {
    // The bytes of the slice.
    ghost bytes: { Self → List ℕ };

    /// Returns the word of the first four bytes.
    fn first_u32(self) -> Option<u32>
        ensures long_enough { IsSome result ↔ (4 ≤ length (bytes self)) }
        ensures word { IfSome result (λ x. x ≡ word_at w32 (bytes self) 0) };

    /// Returns the word of the last four bytes.
    fn last_u32(self) -> Option<u32>
        ensures long_enough { IsSome result ↔ (4 ≤ length (bytes self)) }
        ensures word { IfSome result (λ x.
            x ≡ word_at w32 (bytes self) (length (bytes self) - 4)) };

    /// Returns the word of the first eight bytes.
    fn first_u64(self) -> Option<u64>
        ensures long_enough { IsSome result ↔ (8 ≤ length (bytes self)) }
        ensures word { IfSome result (λ x. x ≡ word_at w64 (bytes self) 0) };

    /// Returns the word of the last eight bytes.
    fn last_u64(self) -> Option<u64>
        ensures long_enough { IsSome result ↔ (8 ≤ length (bytes self)) }
        ensures word { IfSome result (λ x.
            x ≡ word_at w64 (bytes self) (length (bytes self) - 8)) };
}

impl U8SliceExt for &[u8] {
    ghost bytes = { λ s. s.now };

    #[inline(always)]
    fn first_u32(self) -> Option<u32> {
        if self.len() < 4 {
            return None;
        }
        Some(u32_at(self, 0))
    }

    #[inline(always)]
    fn last_u32(self) -> Option<u32> {
        if self.len() < 4 {
            return None;
        }
        Some(u32_at(self, self.len() - 4))
    }

    #[inline(always)]
    fn first_u64(self) -> Option<u64> {
        if self.len() < 8 {
            return None;
        }
        Some(u64_at(self, 0))
    }

    #[inline(always)]
    fn last_u64(self) -> Option<u64> {
        if self.len() < 8 {
            return None;
        }
        Some(u64_at(self, self.len() - 8))
    }
}
