//! Escaped names. A backslash, a newline and a carriage return are written as `\\`, `\n` and `\r`, and a line with such
//! a name begins with a backslash.

ghost use Rattle.std.specs.Prelude.{◌≡◌, ◌++◌, IfOk, MatchOption, None, Some};
ghost use Rattle.xxhsum_line.specs.Escapes.{body_of, escape, escaped, is_blank, is_escaped, is_special, mark_of, meant_by, name_meant, needs_escape, one_line, unescaped};

use std::alloc::{AllocError, Global};
use std::slice;

/// True if a name has a backslash, a newline or a carriage return.
pub fn needs_escape(name: &[u8]) -> bool
    ensures { result ≡ needs_escape name.now }
{
    for byte in name {
        if is_special(*byte) {
            return true;
        }
    }
    false
}

// True if a byte is escaped.
fn is_special(byte: u8) -> bool
    ensures { result ≡ is_special byte }
{
    matches!(byte, b'\\' | b'\n' | b'\r')
}

/// Appends the beginning of this name's line: a backslash if the name needs escapes. Returns `AllocError` if out of
/// memory.
pub fn put_mark(line: &mut Vec<u8>, name: &[u8]) -> Result<(), AllocError>
    ensures { IfOk result (λ _. line.new.items ≡ line.old.items ++ mark_of name.now) }
{
    if needs_escape(name) {
        line.extend_from_slice(b"\\")?;
    }
    Ok(())
}

/// Appends the name, escaped. Returns `AllocError` if out of memory.
#[tactic(auto, using(crate::proofs::EscapeFacts::escape_by_escape))]
pub fn put_escaped(line: &mut Vec<u8>, name: &[u8]) -> Result<(), AllocError>
    ensures { IfOk result (λ _. line.new.items ≡ line.old.items ++ escaped name.now) }
{
    for byte in name {
        line.extend_from_slice(escape(byte))?;
    }
    Ok(())
}

/// Appends `text` as one line. If it needs escaping, escapes it and prefixes a backslash. Returns `AllocError` if out
/// of memory.
pub fn put_line(line: &mut Vec<u8>, text: &[u8]) -> Result<(), AllocError>
    ensures { IfOk result (λ _. line.new.items ≡ line.old.items ++ one_line text.now) }
{
    put_mark(line, text)?;
    put_escaped(line, text)?;
    line.extend_from_slice(b"\n")
}

/// Returns a byte of a name, escaped if it needs to be.
pub fn escape(byte: &u8) -> &[u8]
    ensures { result.now ≡ escape byte.now }
{
    match byte {
        b'\\' => b"\\\\",
        b'\n' => b"\\n",
        b'\r' => b"\\r",
        _ => slice::from_ref(byte),
    }
}

/// True if a line is escaped: its first byte that is no space and no tab is a backslash.
pub fn is_escaped(line: &[u8]) -> bool
    ensures { result ≡ is_escaped line.now }
{
    for byte in line {
        if !is_blank(*byte) {
            return *byte == b'\\';
        }
    }
    false
}

fn is_blank(byte: u8) -> bool
    ensures { result ≡ is_blank byte }
{
    matches!(byte, b' ' | b'\t')
}

/// Returns the line; an escaped one without its first byte.
pub fn body_of(line: &[u8]) -> &[u8]
    ensures { result.now ≡ body_of line.now }
{
    if is_escaped(line) { &line[1..] } else { line }
}

/// Returns the name, unescaped if the line is escaped. `None` if a backslash in an escaped line begins no escape.
/// Returns `AllocError` if out of memory.
pub fn name_meant(
    alloc: Global,
    text: &[u8],
    is_escaped: bool,
) -> Result<Option<Vec<u8>>, AllocError>
    ensures { IfOk result (λ name. MatchOption name
        (name_meant is_escaped text.now ≡ None)
        (λ v. name_meant is_escaped text.now ≡ Some v.items)) }
{
    if is_escaped {
        return unescaped(alloc, text);
    }
    let mut name = Vec::new(alloc);
    name.extend_from_slice(text)?;
    Ok(Some(name))
}

/// Unescapes a name. `None` if a backslash begins no escape. Returns `AllocError` if out of memory.
#[tactic(auto, using(crate::proofs::EscapeFacts::meanings))]
pub fn unescaped(alloc: Global, text: &[u8]) -> Result<Option<Vec<u8>>, AllocError>
    ensures { IfOk result (λ name. MatchOption name
        (unescaped text.now ≡ None) (λ v. unescaped text.now ≡ Some v.items)) }
{
    let mut name = Vec::new(alloc);
    let mut is_behind_backslash = false;
    for byte in text {
        if is_behind_backslash {
            let Some(meant) = meant_by(*byte) else {
                return Ok(None);
            };
            name.extend_from_slice(&[meant])?;
            is_behind_backslash = false;
        } else if *byte == b'\\' {
            is_behind_backslash = true;
        } else {
            name.extend_from_slice(&[*byte])?;
        }
    }
    Ok(if is_behind_backslash {
        None
    } else {
        Some(name)
    })
}

// Returns the byte that a backslash and this byte represent.
fn meant_by(byte: u8) -> Option<u8>
    ensures { result ≡ meant_by byte }
{
    match byte {
        b'\\' => Some(b'\\'),
        b'n' => Some(b'\n'),
        b'r' => Some(b'\r'),
        _ => None,
    }
}
