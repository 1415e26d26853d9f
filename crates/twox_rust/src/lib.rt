//! The kernels that the cargo crate of `rust/` calls for many bytes, as a static library. Everything else in that crate
//! is the library's own source.
//!
//! A slice is passed as its address and its length, a record as its address. No contract requires anything of a caller:
//! a call that can't do its work returns a code other than `DONE`, and changes nothing.
#![tactic(auto)]

ghost use Rattle.std.specs.Prelude.{◌≡◌};

mod long_inputs;
mod pieces_3;
mod pieces_32;

/// The input has 240 bytes or fewer.
pub const INPUT_TOO_SHORT: u32 = 3;

/// Returns the number of this interface, which is part of the name. The number changes with every change of an export
/// or of a record's layout, so a caller of another number doesn't link.
#[unsafe(no_mangle)]
pub extern "C" fn twox_rust_interface_7() -> u32
    ensures { result ≡ 7 }
{
    7
}
