//! A sink that passes on whole messages.

ghost use Rattle.std.specs.Prelude.{◌≡◌, ◌≤◌, ◌<◌, [], false, true, List, ℕ, IfOk, OnErr, is_err, length, take};
ghost use Rattle.xxh_io.specs.Digest.{Refused, Took};

use crate::output::Output;
use xxh_io::streams::{Failed, Sink};

/// A sink in front of one that may hold bytes. It passes on its parts, and writes what is held after each part that
/// ends with a newline. So a message of many parts is one write.
#[derive(Drop)]
pub struct Messages<W> {
    inner: W,
}

impl<W: Output> Messages<W> {
    ghost use Rattle.xxhsum_output.specs.Messages.{holder_of};
    ghost use Rattle.xxhsum_output.specs.declared.messages.Messages.{Messages};

    /// Wraps this sink.
    pub fn new(inner: W) -> Messages<W>
        ensures { holder_of result ≡ inner }
    {
        Messages { inner }
    }

    /// Returns the inner sink.
    pub fn into_inner(self) -> W
        ensures { result ≡ holder_of self }
    {
        let Messages { inner } = self;
        inner
    }

    /// Lemma (no code), the laws of such a sink: the inner sink took and refused the bytes that this one did.
    pub fn laws()
        ensures taken { (old new : Messages W) (bytes : List ℕ)
            → Took ⟦<Messages<W> as Sink>⟧ bytes old new
            → Took W.Sink bytes (holder_of old) (holder_of new) }
        ensures refused { (old new : Messages W) (bytes : List ℕ)
            → Refused ⟦<Messages<W> as Sink>⟧ bytes old new
            → Refused W.Sink bytes (holder_of old) (holder_of new) }
    {}
}

impl<W: Output> Sink for Messages<W> {
    ghost use Rattle.xxhsum_output.specs.Messages.{TakesPart, holder_of, is_whole};

    ghost has_failed = { λ s. W.has_failed (holder_of s) };

    ghost takes = { TakesPart W.Sink };

    ghost refuses = { λ s t. W.refuses (holder_of s) (holder_of t) };

    fn failed(&self) -> bool {
        self.inner.failed()
    }

    fn write(&mut self, bytes: &[u8]) -> Result<usize, Failed>
        requires works { W.has_failed (holder_of self.old) ≡ false }
        requires some { 0 < length bytes.now }
        ensures within { IfOk result (λ n. n ≤ length bytes.now) }
        ensures progress { IfOk result (λ n. 0 < n) }
        ensures piece { IfOk result (λ n. TakesPart W.Sink self.old (take n bytes.now) self.new) }
        ensures refuses { OnErr result (W.refuses (holder_of self.old) (holder_of self.new)) }
        ensures failed { W.has_failed (holder_of self.new) ≡ is_err result }
        ensures released { IfOk result (λ n. is_whole (take n bytes.now) ≡ true
            → W.has_lost (holder_of self.new) ≡ false → W.held (holder_of self.new) ≡ []) }
    {
        let count = self.inner.write(bytes)?;
        if bytes[..count].ends_with(b"\n") {
            self.inner.release();
        }
        Ok(count)
    }
}
