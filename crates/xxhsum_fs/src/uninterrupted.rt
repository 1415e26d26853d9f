//! Reads that signals interrupt.

ghost use Rattle.std.specs.Prelude.{◌≡◌, ◌<◌, None, MatchResult, length, take};
ghost use Rattle.std.specs.Io.{ReadsAtMost};
ghost use Rattle.xxhsum_fs.specs.Uninterrupted.{FailsAtLast, GivesAtLast, SourceFails, SourceGives, failure_message, failure_of, has_failure, interrupted_reader};

use crate::calls::ReadCall;
use std::io;
use std::io::ErrorKind;
use xxh_io::refusal::Refusal;
use xxh_io::streams::{Failed, Source};
use xxh_io::words::words_of;

/// A source that repeats a call which a signal interrupted.
#[derive(Drop)]
pub struct Uninterrupted<R> {
    inner: R,
    // The error of the read that failed.
    failure: Option<Refusal>,
}

impl<R: ReadCall> Uninterrupted<R> {
    /// Creates a source that has not failed. Nothing was read yet from the reader.
    pub fn new(inner: R) -> Uninterrupted<R>
        ensures reader { interrupted_reader result ≡ inner }
        ensures works { failure_of result ≡ None }
    {
        Uninterrupted {
            inner,
            failure: None,
        }
    }
}

impl<R: ReadCall> Source for Uninterrupted<R> {
    ghost has_failed = { has_failure };

    ghost gives = { SourceGives R.ReadCall };

    ghost fails = { SourceFails R.ReadCall };

    ghost reason = { failure_message };

    fn failed(&self) -> bool {
        self.failure.is_some()
    }

    fn failure(&self) -> Refusal {
        match self.failure {
            Some(failure) => failure,
            None => Refusal::new(0, b""),
        }
    }

    fn read(&mut self, buf: &mut [u8]) -> Result<usize, Failed> {
        match read_at_last(&mut self.inner, buf) {
            Ok(count) => Ok(count),
            Err(error) => {
                self.failure = Some(words_of(error));
                Err(Failed)
            }
        }
    }
}

/// Reads bytes into the front of the buffer, and returns their number, or 0 at the end. Repeats a call which a signal
/// interrupted.
///
/// # Errors
///
/// The error of the first call that fails otherwise.
pub fn read_at_last<R: ReadCall>(reader: &mut R, buf: &mut [u8]) -> io::Result<usize>
    requires { 0 < length buf.old }
    ensures bound { ReadsAtMost result buf.new }
    ensures calls { MatchResult result
        (λ count. GivesAtLast R.ReadCall reader.old (take count buf.new) reader.new)
        (λ error. FailsAtLast R.ReadCall reader.old error reader.new) }
{
    for turn in 0..u64::MAX {
        match reader.read_once(buf) {
            Ok(count) => return Ok(count),
            Err(error) => {
                if error.kind() != ErrorKind::Interrupted {
                    return Err(error);
                }
            }
        }
    }
    Err(io::Error::from(ErrorKind::TimedOut))
}
