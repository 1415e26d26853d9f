//! The lines that are printed.

ghost use Rattle.std.specs.Prelude.{◌≡◌, ◌++◌, IfOk};
ghost use Rattle.xxhsum_line.specs.Printed.{digest_text, formed, line_of, name_shown, plain_text, prefix_of, shown, styled_line, tagged_text};

use crate::digits::{MOST_DIGITS, in_order};
use crate::escapes::{put_escaped, put_mark};
use crate::tags::tag_of;
use std::alloc::{AllocError, Global};
use xxh_io::hex::write_digits;
use xxh_io::kind::Kind;

/// The form of a line.
#[derive(Clone, Copy, Debug, PartialEq, Eq)]
pub struct Shape {
    /// BSD-style: a tag before the name, and the digits after it.
    pub is_tagged: bool,
    /// The digest has its least significant byte first.
    pub is_little: bool,
}

/// The form of printed lines, and their last byte.
#[derive(Clone, Copy, Debug, PartialEq, Eq)]
pub struct Style {
    /// Their form.
    pub shape: Shape,
    /// Each line ends with a NUL instead of a newline, and its name isn't escaped.
    pub ends_in_nul: bool,
}

/// Returns the line of this file's digest, in this style: with its newline, as by [`digest_line`], or with a NUL, no
/// byte of the name escaped and no backslash before it. Returns `AllocError` if out of memory.
pub fn styled_line(
    alloc: Global,
    kind: Kind,
    style: Style,
    value: u128,
    name: &[u8],
) -> Result<Vec<u8>, AllocError>
    ensures { IfOk result (λ line. line.items ≡ styled_line kind style value name.now) }
{
    if !style.ends_in_nul {
        return digest_line(alloc, kind, style.shape, value, name);
    }
    let mut line = Vec::new(alloc);
    put_formed(&mut line, kind, style.shape, value, name, true)?;
    line.extend_from_slice(b"\0")?;
    Ok(line)
}

/// Returns the line of this file's digest, with its newline, which is the only one in it. A name with a backslash, a
/// newline or a carriage return is escaped, and its line begins with a backslash. If a digest has more digits than the
/// algorithm, the least significant are printed. Returns `AllocError` if out of memory.
pub fn digest_line(
    alloc: Global,
    kind: Kind,
    shape: Shape,
    value: u128,
    name: &[u8],
) -> Result<Vec<u8>, AllocError>
    ensures { IfOk result (λ line. line.items ≡ line_of kind shape value name.now) }
{
    let mut line = Vec::new(alloc);
    put_mark(&mut line, name)?;
    put_formed(&mut line, kind, shape, value, name, false)?;
    line.extend_from_slice(b"\n")?;
    Ok(line)
}

fn put_formed(
    line: &mut Vec<u8>,
    kind: Kind,
    shape: Shape,
    value: u128,
    name: &[u8],
    is_raw: bool,
) -> Result<(), AllocError>
    ensures { IfOk result (λ _. line.new.items
        ≡ line.old.items ++ formed kind shape value (name_shown is_raw name.now)) }
{
    if shape.is_tagged {
        put_tagged(line, kind, shape.is_little, value, name, is_raw)
    } else {
        put_plain(line, kind, shape.is_little, value, name, is_raw)
    }
}

// Appends the name, as it is or escaped.
fn put_name(line: &mut Vec<u8>, name: &[u8], is_raw: bool) -> Result<(), AllocError>
    ensures { IfOk result (λ _. line.new.items ≡ line.old.items ++ name_shown is_raw name.now) }
{
    if is_raw {
        line.extend_from_slice(name)
    } else {
        put_escaped(line, name)
    }
}

fn put_plain(
    line: &mut Vec<u8>,
    kind: Kind,
    is_little: bool,
    value: u128,
    name: &[u8],
    is_raw: bool,
) -> Result<(), AllocError>
    ensures { IfOk result (λ _. line.new.items
        ≡ line.old.items ++ plain_text kind is_little value (name_shown is_raw name.now)) }
{
    put_digest(line, kind, is_little, value)?;
    line.extend_from_slice(b"  ")?;
    put_name(line, name, is_raw)
}

fn put_tagged(
    line: &mut Vec<u8>,
    kind: Kind,
    is_little: bool,
    value: u128,
    name: &[u8],
    is_raw: bool,
) -> Result<(), AllocError>
    ensures { IfOk result (λ _. line.new.items
        ≡ line.old.items ++ tagged_text kind is_little value (name_shown is_raw name.now)) }
{
    line.extend_from_slice(tag_of(kind))?;
    if is_little {
        line.extend_from_slice(b"_LE")?;
    }
    line.extend_from_slice(b" (")?;
    put_name(line, name, is_raw)?;
    line.extend_from_slice(b") = ")?;
    put_value(line, kind, is_little, value)
}

/// Appends the digest as in a plain line: the prefix and the digits. Returns `AllocError` if out of memory.
pub fn put_digest(
    line: &mut Vec<u8>,
    kind: Kind,
    is_little: bool,
    value: u128,
) -> Result<(), AllocError>
    ensures { IfOk result (λ _. line.new.items
        ≡ line.old.items ++ digest_text kind is_little value) }
{
    line.extend_from_slice(prefix_of(kind))?;
    put_value(line, kind, is_little, value)
}

// Returns the prefix of the digits in a plain line.
fn prefix_of(kind: Kind) -> &'static [u8]
    ensures { result.now ≡ prefix_of kind }
{
    match kind {
        Kind::X3_64 => b"XXH3_",
        Kind::X32 | Kind::X64 | Kind::X3_128 => b"",
    }
}

// Appends the digits of the digest.
fn put_value(line: &mut Vec<u8>, kind: Kind, is_little: bool, value: u128) -> Result<(), AllocError>
    ensures { IfOk result (λ _. line.new.items ≡ line.old.items ++ shown kind is_little value) }
{
    let mut room = [0; MOST_DIGITS];
    let digits = &mut room[..kind.digits()];
    write_digits(in_order(kind, is_little, value), digits);
    line.extend_from_slice(digits)
}
