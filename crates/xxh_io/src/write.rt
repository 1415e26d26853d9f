//! Bytes and digest lines, written to a sink.

ghost use Rattle.std.specs.Prelude.{◌≡◌, ◌↔◌, ◌≤◌, true, false, Err, IfErr};
ghost use Rattle.xxh_io.specs.Digest.{Writes};
ghost use Rattle.xxh_io.specs.Hex.{hex_line};

use crate::digest_error::DigestError;
use crate::hex::write_digits;
use crate::streams::{Failed, Sink};

// Maximum number of digits of a line.
const MOST_DIGITS: usize = 32;

/// Writes all the bytes, as many at a time as the sink takes.
pub fn write_all<W: Sink>(bytes: &[u8], w: &mut W) -> Result<(), DigestError>
    requires { W.has_failed w.old ≡ false }
    ensures writes { Writes W.Sink bytes.now w.old w.new result }
    ensures write_failed { (result ≡ Err DigestError.WriteFailed) ↔ (W.has_failed w.new ≡ true) }
    ensures only { IfErr result (λ e. e ≡ DigestError.WriteFailed) }
{
    let mut rest = bytes;
    while !rest.is_empty() {
        match w.write(rest) {
            Ok(count) => rest = &rest[count..],
            Err(Failed) => return Err(DigestError::WriteFailed),
        }
    }
    Ok(())
}

/// Writes the value's lowest digits, up to 32 of them, and a newline.
pub fn write_line<W: Sink>(value: u128, digits: usize, w: &mut W) -> Result<(), DigestError>
    requires works { W.has_failed w.old ≡ false }
    requires room { digits ≤ 32 }
    ensures writes { Writes W.Sink (hex_line digits value) w.old w.new result }
    ensures write_failed { (result ≡ Err DigestError.WriteFailed) ↔ (W.has_failed w.new ≡ true) }
    ensures only { IfErr result (λ e. e ≡ DigestError.WriteFailed) }
{
    let mut line = [b'\n'; MOST_DIGITS + 1];
    write_digits(value, &mut line[..digits]);
    write_all(&line[..digits + 1], w)
}
