//! Standard writers as sinks.

ghost use Rattle.std.specs.Prelude.{◌≡◌, true, false, List, ℕ, IfOk, OnErr};
ghost use Rattle.std.specs.List.{concat};
ghost use Rattle.std.specs.Io.KnownBytes.{Appends, Keeps};
ghost use Rattle.xxh_io.specs.Pieces.{Pieces};
ghost use Rattle.xxh_io.specs.FromWrite.{has_write_failed, writer_of};
ghost use Rattle.xxh_io.specs.declared.from_write.FromWrite.{FromWrite};

use crate::streams::{Failed, Sink};
use std::io::Write;

/// A standard writer as a sink. Every error of a write is a failure, and so is a write that takes nothing.
#[derive(Drop)]
pub struct FromWrite<W> {
    inner: W,
    failed: bool,
}

impl<W: Write> FromWrite<W> {
    /// Creates a sink that has not failed.
    pub fn new(inner: W) -> FromWrite<W>
        ensures inner { writer_of result ≡ inner }
        ensures works { ⟦<FromWrite<W> as Sink>⟧.has_failed result ≡ false }
    {
        FromWrite {
            inner,
            failed: false,
        }
    }

    /// Flushes the writer. Every error is a failure of the sink; the writer keeps the bytes that it holds.
    pub fn flush(&mut self) -> Result<(), Failed>
        ensures bytes { Keeps (W.contents (writer_of self.old)) (W.contents (writer_of self.new)) }
        ensures ok { IfOk result (λ _. has_write_failed self.new ≡ has_write_failed self.old) }
        ensures err { OnErr result (has_write_failed self.new ≡ true) }
    {
        let flushed = self.inner.flush();
        self.failed = self.failed || flushed.is_err();
        match flushed {
            Ok(()) => Ok(()),
            Err(_) => Err(Failed),
        }
    }

    /// Returns the writer.
    pub fn into_inner(self) -> W
        ensures { result ≡ writer_of self }
    {
        let FromWrite { inner, failed: _ } = self;
        inner
    }
}

impl<W: Write> Sink for FromWrite<W> {
    ghost has_failed = { has_write_failed };

    ghost takes = { λ s piece t.
        Appends (W.contents (writer_of s)) (W.contents (writer_of t)) piece };

    ghost refuses = { λ s t. Keeps (W.contents (writer_of s)) (W.contents (writer_of t)) };

    fn failed(&self) -> bool {
        self.failed
    }

    fn write(&mut self, bytes: &[u8]) -> Result<usize, Failed> {
        match self.inner.write(bytes) {
            Ok(count) if count > 0 => Ok(count),
            _ => {
                self.failed = true;
                Err(Failed)
            }
        }
    }
}

/// Lemma (no code): if a writer exposes the bytes that it holds, then after it took some chunks it holds those from
/// before plus the chunks.
pub fn writer_pieces<W: Write>()
    ensures { (old new : FromWrite W) (pieces : List (List ℕ))
        → Pieces ⟦<FromWrite<W> as Sink>⟧.takes old pieces new
        → Appends (W.contents (writer_of old)) (W.contents (writer_of new)) (concat pieces) }
{}
