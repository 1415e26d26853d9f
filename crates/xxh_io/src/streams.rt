//! Streams to read bytes from and write bytes to.

ghost use Rattle.std.specs.Prelude.{◌≡◌, ◌<◌, ◌≤◌, List, ℕ, Bool, false, length, take, is_err, IfOk, OnErr};
ghost use Rattle.xxh_io.specs.Refusal.{refusal_text};

use crate::refusal::Refusal;

/// A read or a write failed. [`Source::failure`] has the reason of a read.
#[derive(Clone, Copy, Debug, PartialEq, Eq)]
pub struct Failed;

/// A stream to read bytes from.
///
/// A source that has failed once stays failed: no call may read from it again.
pub trait Source {
    // A read has failed.
    ghost has_failed: { Self → Bool };

    // A read of these bytes leads from the first source to the second.
    ghost gives: { Self → List ℕ → Self → Type 0 };

    // A read that fails leads from the first source to the second.
    ghost fails: { Self → Self → Type 0 };

    // The system's message for the read that failed.
    ghost reason: { Self → List ℕ };

    /// True if a read has failed.
    fn failed(&self) -> bool
        ensures { result ≡ has_failed self.now };

    /// Returns the system's error of the read that failed.
    fn failure(&self) -> Refusal
        ensures { refusal_text result ≡ reason self.now };

    /// Reads bytes into the front of the buffer, and returns their number, or 0 at the end of the input.
    ///
    /// The caller proves that the source has not failed and that the buffer is not empty.
    fn read(&mut self, buf: &mut [u8]) -> Result<usize, Failed>
        requires works { has_failed self.old ≡ false }
        requires room { 0 < length buf.old }
        ensures within { IfOk result (λ n. n ≤ length buf.new) }
        ensures piece { IfOk result (λ n. gives self.old (take n buf.new) self.new) }
        ensures fails { OnErr result (fails self.old self.new) }
        ensures failed { has_failed self.new ≡ is_err result };
}

/// A stream to write bytes to.
///
/// A sink that has failed once stays failed: no call may write to it again.
pub trait Sink {
    // A write has failed.
    ghost has_failed: { Self → Bool };

    // A write that takes these bytes leads from the first sink to the second.
    ghost takes: { Self → List ℕ → Self → Type 0 };

    // A write that fails leads from the first sink to the second.
    ghost refuses: { Self → Self → Type 0 };

    /// True if a write has failed.
    fn failed(&self) -> bool
        ensures { result ≡ has_failed self.now };

    /// Writes a front of the bytes, at least one of them, and returns their number.
    ///
    /// The caller proves that the sink has not failed and that there are bytes.
    fn write(&mut self, bytes: &[u8]) -> Result<usize, Failed>
        requires works { has_failed self.old ≡ false }
        requires some { 0 < length bytes.now }
        ensures within { IfOk result (λ n. n ≤ length bytes.now) }
        ensures progress { IfOk result (λ n. 0 < n) }
        ensures piece { IfOk result (λ n. takes self.old (take n bytes.now) self.new) }
        ensures refuses { OnErr result (refuses self.old self.new) }
        ensures failed { has_failed self.new ≡ is_err result };
}
