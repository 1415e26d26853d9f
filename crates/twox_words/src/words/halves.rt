//! Halves of a word.

ghost use Rattle.std.specs.Prelude.{◌≡◌};
ghost use Rattle.twox_words.specs.Word.{low32, high32, low64, high64};

/// Splits a word into its two halves.
pub trait Halves {
    /// A word of half the width.
    type Output;

    ghost upper: { Self → Self.Output };

    ghost lower: { Self → Self.Output };

    /// Returns the upper half of the bits.
    fn upper_half(self) -> Self::Output
        ensures { result ≡ upper self };

    /// Returns the lower half of the bits.
    fn lower_half(self) -> Self::Output
        ensures { result ≡ lower self };
}

impl Halves for u64 {
    type Output = u32;

    ghost upper = { high32 };

    ghost lower = { low32 };

    #[inline(always)]
    fn upper_half(self) -> u32 {
        (self >> 32) as u32
    }

    #[inline(always)]
    fn lower_half(self) -> u32 {
        (self & 0xffff_ffff) as u32
    }
}

impl Halves for u128 {
    type Output = u64;

    ghost upper = { high64 };

    ghost lower = { low64 };

    #[inline(always)]
    fn upper_half(self) -> u64 {
        (self >> 64) as u64
    }

    #[inline(always)]
    fn lower_half(self) -> u64 {
        (self & 0xffff_ffff_ffff_ffff) as u64
    }
}
