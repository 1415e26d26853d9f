//! Standard readers as sources.

ghost use Rattle.std.specs.Prelude.{◌≡◌, false, List, ℕ};
ghost use Rattle.std.specs.List.{concat};
ghost use Rattle.std.specs.Io.KnownBytes.{Consumes, Keeps};
ghost use Rattle.xxh_io.specs.Pieces.{Pieces};
ghost use Rattle.xxh_io.specs.FromRead.{ReadsPiece, has_read_failed, reader_of, reason_read};
ghost use Rattle.xxh_io.specs.declared.from_read.FromRead.{FromRead};

use crate::refusal::Refusal;
use crate::streams::{Failed, Source};
use crate::words::words_of;
use std::io::Read;

/// A standard reader as a source. Every error of a read is a failure, including an interruption.
#[derive(Drop)]
pub struct FromRead<R> {
    inner: R,
    // The error of the read that failed.
    failure: Option<Refusal>,
}

impl<R: Read> FromRead<R> {
    /// Creates a source that has not failed.
    pub fn new(inner: R) -> FromRead<R>
        ensures inner { reader_of result ≡ inner }
        ensures works { ⟦<FromRead<R> as Source>⟧.has_failed result ≡ false }
    {
        FromRead {
            inner,
            failure: None,
        }
    }

    /// Returns the reader.
    pub fn into_inner(self) -> R
        ensures { result ≡ reader_of self }
    {
        let FromRead { inner, failure: _ } = self;
        inner
    }
}

impl<R: Read> Source for FromRead<R> {
    ghost has_failed = { has_read_failed };

    ghost gives = { λ s piece t.
        ReadsPiece (R.remaining (reader_of s)) piece (R.remaining (reader_of t)) };

    ghost fails = { λ s t. Keeps (R.remaining (reader_of s)) (R.remaining (reader_of t)) };

    ghost reason = { reason_read };

    fn failed(&self) -> bool {
        self.failure.is_some()
    }

    fn failure(&self) -> Refusal {
        match self.failure {
            Some(failure) => failure,
            None => Refusal::new(0, b""),
        }
    }

    fn read(&mut self, buf: &mut [u8]) -> Result<usize, Failed> {
        match self.inner.read(buf) {
            Ok(count) => Ok(count),
            Err(error) => {
                self.failure = Some(words_of(error));
                Err(Failed)
            }
        }
    }
}

/// Lemma (no code): if a reader exposes its remaining bytes, then the chunks read plus the bytes still remaining are
/// the bytes that remained before.
pub fn reader_pieces<R: Read>()
    ensures { (old new : FromRead R) (pieces : List (List ℕ))
        → Pieces ⟦<FromRead<R> as Source>⟧.gives old pieces new
        → Consumes (R.remaining (reader_of old)) (R.remaining (reader_of new)) (concat pieces) }
{}
