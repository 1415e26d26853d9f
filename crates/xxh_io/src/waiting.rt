//! A buffer of bytes to be written.

ghost use Rattle.std.specs.Prelude.{◌≡◌, ◌↔◌, ◌+◌, ◌≤◌, ◌++◌, [], true, false, length, Err, IfErr, IfOk, OnErr};
ghost use Rattle.xxh_io.specs.Digest.{Refused, Writes};

use crate::digest_error::DigestError;
use crate::streams::Sink;
use crate::write::write_all;

/// A buffer of at most `N` bytes to be written.
#[derive(Drop)]
pub struct Waiting<const N: usize> {
    bytes: [u8; N],
    len: usize,
    ghost within: { len ≤ N },
}

impl<const N: usize> Waiting<N> {
    ghost use Rattle.xxh_io.specs.Waiting.{Gathers, waiting_bytes, waiting_count};

    /// Creates an empty buffer.
    pub fn new() -> Waiting<N>
        ensures bytes { waiting_bytes result ≡ [] }
        ensures count { waiting_count result ≡ 0 }
    {
        Waiting {
            bytes: [0; N],
            len: 0,
        }
    }

    /// Returns the number of buffered bytes.
    pub fn len(&self) -> usize
        ensures { result ≡ waiting_count self.now }
    {
        self.len
    }

    /// Appends bytes that fit.
    pub fn append(&mut self, bytes: &[u8])
        requires { waiting_count self.old + length bytes.now ≤ N }
        ensures bytes { waiting_bytes self.new ≡ waiting_bytes self.old ++ bytes.now }
        ensures count { waiting_count self.new ≡ waiting_count self.old + length bytes.now }
    {
        let all = &mut self.bytes[..];
        all[self.len..self.len + bytes.len()].copy_from_slice(bytes);
        self.len += bytes.len();
    }

    /// Appends bytes. If they don't fit, writes the buffered ones first. An error appends nothing, and the buffered
    /// bytes stay.
    pub fn push<W: Sink>(&mut self, bytes: &[u8], w: &mut W) -> Result<(), DigestError>
        requires works { W.has_failed w.old ≡ false }
        requires short { length bytes.now ≤ N }
        ensures gathers { IfOk result
            (λ _. Gathers W.Sink (waiting_bytes self.old ++ bytes.now) w.old w.new
            (waiting_bytes self.new)) }
        ensures refused { OnErr result
            (Refused W.Sink (waiting_bytes self.old) w.old w.new) }
        ensures kept { OnErr result (waiting_bytes self.new ≡ waiting_bytes self.old) }
        ensures write_failed { (result ≡ Err DigestError.WriteFailed)
            ↔ (W.has_failed w.new ≡ true) }
        ensures only { IfErr result (λ e. e ≡ DigestError.WriteFailed) }
    {
        if N - self.len < bytes.len() {
            self.flush(w)?;
        }
        self.append(bytes);
        Ok(())
    }

    /// Writes the buffered bytes. After an error they are still buffered.
    pub fn flush<W: Sink>(&mut self, w: &mut W) -> Result<(), DigestError>
        requires { W.has_failed w.old ≡ false }
        ensures writes { Writes W.Sink (waiting_bytes self.old) w.old w.new result }
        ensures empty { IfOk result (λ _. waiting_count self.new ≡ 0) }
        ensures kept { OnErr result (waiting_bytes self.new ≡ waiting_bytes self.old) }
        ensures write_failed { (result ≡ Err DigestError.WriteFailed)
            ↔ (W.has_failed w.new ≡ true) }
        ensures only { IfErr result (λ e. e ≡ DigestError.WriteFailed) }
    {
        write_all(&self.bytes[..self.len], w)?;
        self.len = 0;
        Ok(())
    }
}
