//! Errors of a digest.

use std::error::Error;
use std::fmt;

/// The error of a call that reads to the end of a source. Its text is `read failed`, `write failed` or `too long`.
#[derive(Clone, Copy, Debug, PartialEq, Eq)]
pub enum DigestError {
    /// A read failed.
    ReadFailed,
    /// A write failed, or took nothing.
    WriteFailed,
    /// Each of the allowed reads returned at least one byte.
    TooLong,
}

impl fmt::Display for DigestError {
    ghost use Rattle.std.specs.Prelude.{Some};
    ghost use Rattle.xxh_io.specs.Fault.{digest_text};

    ghost output = { λ e. Some (digest_text e) };

    fn fmt<W: fmt::Write>(&self, f: &mut fmt::Formatter<W>) -> fmt::Result {
        f.write_str(match self {
            DigestError::ReadFailed => "read failed",
            DigestError::WriteFailed => "write failed",
            DigestError::TooLong => "too long",
        })
    }
}

impl Error for DigestError {}
