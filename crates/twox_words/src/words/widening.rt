//! Conversions to a wider type that keep the value.

ghost use Rattle.std.specs.Prelude.{◌≡◌, ℕ};

/// Converts to `u32` without changing the value.
pub trait IntoU32 {
    // The number that the conversion keeps.
    ghost number: { Self → ℕ };

    /// Returns this number as a `u32`.
    fn into_u32(self) -> u32
        ensures { result ≡ number self };
}

impl IntoU32 for u8 {
    ghost number = { λ x. x };

    #[inline(always)]
    fn into_u32(self) -> u32 {
        u32::from(self)
    }
}

/// Converts to `u64` without changing the value.
pub trait IntoU64 {
    // The number that the conversion keeps.
    ghost number: { Self → ℕ };

    /// Returns this number as a `u64`.
    fn into_u64(self) -> u64
        ensures { result ≡ number self };
}

impl IntoU64 for u8 {
    ghost number = { λ x. x };

    #[inline(always)]
    fn into_u64(self) -> u64 {
        self.into()
    }
}

impl IntoU64 for u32 {
    ghost number = { λ x. x };

    #[inline(always)]
    fn into_u64(self) -> u64 {
        u64::from(self)
    }
}

impl IntoU64 for usize {
    ghost number = { λ x. x };

    #[inline(always)]
    fn into_u64(self) -> u64 {
        self as u64
    }
}

/// Converts to `u128` without changing the value.
pub trait IntoU128 {
    // The number that the conversion keeps.
    ghost number: { Self → ℕ };

    /// Returns this number as a `u128`.
    fn into_u128(self) -> u128
        ensures { result ≡ number self };
}

impl IntoU128 for u64 {
    ghost number = { λ x. x };

    #[inline(always)]
    fn into_u128(self) -> u128 {
        u128::from(self)
    }
}
