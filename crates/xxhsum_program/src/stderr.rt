//! Messages on standard error. A failed write of a message is ignored.

ghost use Rattle.std.specs.Prelude.{◌≡◌};
ghost use Rattle.xxhsum_line.specs.Escapes.{escaped, mark_of, needs_escape, one_line};
ghost use Rattle.xxhsum_program.specs.Eprints.{Eprints};
ghost use Rattle.xxhsum_program.specs.Joined.{joined};

use xxh_io::streams::Sink;
use xxh_io::write::write_all;
use xxhsum_line::escapes::{escape, needs_escape};

/// Writes the bytes, unless a write has failed before.
pub fn eprint<E: Sink>(bytes: &[u8], err: &mut E)
    ensures { Eprints E.Sink bytes.now err.old err.new }
{
    if !err.failed() {
        // There is no other stream for a message that standard error refuses.
        let _ = write_all(bytes, err);
    }
}

/// Writes the parts as one line, with a line feed. Bytes are escaped as in names of lists, with a backslash at the
/// front if one is.
pub fn eprint_line<E: Sink>(parts: &[&[u8]], err: &mut E)
    ensures { Eprints E.Sink (one_line (joined parts.now)) err.old err.new }
{
    eprint_mark(parts, err);
    eprint_escaped_parts(parts, err);
    eprint(b"\n", err);
}

// Writes a backslash if one of the parts has a byte that is escaped.
fn eprint_mark<E: Sink>(parts: &[&[u8]], err: &mut E)
    ensures { Eprints E.Sink (mark_of (joined parts.now)) err.old err.new }
{
    if need_escape(parts) {
        eprint(b"\\", err);
    }
}

// True if one of the parts has a byte that is escaped.
fn need_escape(parts: &[&[u8]]) -> bool
    ensures { result ≡ needs_escape (joined parts.now) }
{
    match parts.split_first() {
        Some((part, rest)) => needs_escape(part) || need_escape(rest),
        None => false,
    }
}

fn eprint_escaped_parts<E: Sink>(parts: &[&[u8]], err: &mut E)
    ensures { Eprints E.Sink (escaped (joined parts.now)) err.old err.new }
{
    if let Some((part, rest)) = parts.split_first() {
        eprint_escaped(part, err);
        eprint_escaped_parts(rest, err);
    }
}

// Writes a text, escaped byte by byte if one of its bytes needs that.
fn eprint_escaped<E: Sink>(text: &[u8], err: &mut E)
    ensures { Eprints E.Sink (escaped text.now) err.old err.new }
{
    if !needs_escape(text) {
        eprint(text, err);
        return;
    }
    for byte in text {
        eprint(escape(byte), err);
    }
}

/// Writes the parts, one after another.
pub fn eprint_parts<E: Sink>(parts: &[&[u8]], err: &mut E)
    ensures { Eprints E.Sink (joined parts.now) err.old err.new }
{
    if let Some((part, rest)) = parts.split_first() {
        eprint(part, err);
        eprint_parts(rest, err);
    }
}
