//! Buffers that can hold a secret.

ghost use Rattle.std.specs.Prelude.{◌≡◌, ℕ, List, length, refl};
ghost use Rattle.std.specs.Borrow.{sem, Lends, Array, u8};
ghost use Rattle.std.specs.Box.{boxed_slice_items, boxed_slice_with_items};
ghost use Rattle.std.specs.List.{each_same};
ghost use Rattle.std.proofs.Common.{rules, ◌∙◌, sym};
ghost use Rattle.std.proofs.lemmas.List.{with_items_is};

use std::alloc::Allocator;
use std::boxed::BoxedSlice;

/// A type that holds a fixed number of bytes. Every call returns the same ones.
pub trait FixedBuffer {
    // The bytes.
    ghost bytes: { Self → List ℕ };

    /// Returns the bytes.
    fn as_ref(&self) -> &[u8]
        ensures { result.now ≡ bytes self.now };
}

/// A fixed buffer whose bytes can be written. Both calls return the same bytes, and their number stays the same.
pub trait FixedMutBuffer: FixedBuffer {
    // The buffer with other bytes.
    ghost with_bytes: { Self → List ℕ → Self };

    /// Returns the bytes for writing.
    fn as_mut(&mut self) -> &mut [u8]
        ensures value { result.now ≡ Self.bytes self.old }
        ensures* writes_back { sem 𝓛 (Lends
            Self.row (Array u8 0) self.entry result (with_bytes self.old)) };

    // After a write the calls return what was written.
    ghost lends_back: { (x : Self) (w : List ℕ) → length w ≡ length (Self.bytes x) → Self.bytes (with_bytes x w) ≡ w };
}

/// A buffer whose clones hold the same bytes.
pub trait ClonedBuffer: FixedBuffer + Clone {
    ghost copies: { (x y : Self) → Self.is_clone x y → Self.bytes y ≡ Self.bytes x };
}

impl<const N: usize> FixedBuffer for [u8; N] {
    ghost bytes = { λ x. x };

    #[inline(always)]
    fn as_ref(&self) -> &[u8] {
        &self[..]
    }
}

impl<const N: usize> FixedMutBuffer for [u8; N] {
    ghost with_bytes = { λ x w. w };

    ghost lends_back = { λ x w h. refl };

    #[inline(always)]
    fn as_mut(&mut self) -> &mut [u8] {
        &mut self[..]
    }
}

impl<const N: usize> ClonedBuffer for [u8; N] {
    ghost copies = { λ x y h. each_same x y h.whole };
}

impl<const N: usize> FixedBuffer for &[u8; N] {
    ghost bytes = { λ x. x.now };

    #[inline(always)]
    fn as_ref(&self) -> &[u8] {
        *self
    }
}

impl<const N: usize> ClonedBuffer for &[u8; N] {
    ghost copies = { λ x y h. Prim.search rules };
}

impl<const N: usize> FixedBuffer for &mut [u8; N] {
    ghost bytes = { λ x. x.now };

    #[inline(always)]
    fn as_ref(&self) -> &[u8] {
        &**self
    }
}

impl<const N: usize> FixedMutBuffer for &mut [u8; N] {
    ghost with_bytes = { λ x w. record x { now = w } };

    ghost lends_back = { λ x w h. refl };

    #[inline(always)]
    fn as_mut(&mut self) -> &mut [u8] {
        (**self).as_mut_slice()
    }
}

impl<A: Allocator> FixedBuffer for BoxedSlice<u8, A> {
    ghost bytes = { boxed_slice_items };

    #[inline(always)]
    fn as_ref(&self) -> &[u8] {
        self.as_slice()
    }
}

impl<A: Allocator> FixedMutBuffer for BoxedSlice<u8, A> {
    ghost with_bytes = { boxed_slice_with_items };

    ghost lends_back = { λ x w h. with_items_is x.items w (h ∙ sym x.items.ok.0) };

    #[inline(always)]
    fn as_mut(&mut self) -> &mut [u8] {
        self.as_mut_slice()
    }
}

impl<A: Allocator + Clone> ClonedBuffer for BoxedSlice<u8, A> {
    ghost copies = { λ x y h. each_same (boxed_slice_items x) (boxed_slice_items y) h.0 };
}
