//! Identities that hide a value from the optimizer of a compiler that would otherwise choose a slower form.
//!
//! The code that the toolchain compiles needs none: here each is only its value. The crate for cargo has functions of
//! the same names that emit no instruction either.

ghost use Rattle.std.specs.Prelude.{◌≡◌};

/// Returns the half of a word.
#[inline(always)]
pub fn hidden_u32(half: u32) -> u32
    ensures { result ≡ half }
{
    half
}

/// Returns the word.
#[inline(always)]
pub fn hidden_u64(word: u64) -> u64
    ensures { result ≡ word }
{
    word
}
