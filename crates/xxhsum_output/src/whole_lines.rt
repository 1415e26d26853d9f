//! A sink that buffers lines and writes them whole.

ghost use Rattle.std.specs.Prelude.{◌≡◌, ◌≤◌, [], false, List, ℕ, length, IfOk, OnErr, is_err};
ghost use Rattle.xxh_io.specs.Digest.{Refused, Took};

use crate::output::Output;
use xxh_io::streams::{Failed, Sink};
use xxh_io::waiting::Waiting;

/// Maximum number of buffered bytes.
pub const MOST_WAITING: usize = 4096;

/// A line buffer in front of another sink. It passes many lines per write, and never splits one write over two. Lines
/// are buffered up to 4,096 bytes together; a longer line is passed on by itself.
#[derive(Drop)]
pub struct WholeLines<W> {
    inner: W,
    waiting: Waiting<MOST_WAITING>,
    // Maximum number of buffered bytes: 0 if each line is passed on at once.
    capacity: usize,
    has_failed: bool,
    ghost bounded: { capacity ≤ 4096 },
}

impl<W: Sink> WholeLines<W> {
    ghost use Rattle.std.specs.Prelude.{◌<◌, take};
    ghost use Rattle.xxh_io.specs.Waiting.{waiting_count};
    ghost use Rattle.xxhsum_output.specs.WholeLines.{Reaches, RefusesLine, TakesLine, behind, waiting_lines};
    ghost use Rattle.xxhsum_output.specs.declared.whole_lines.WholeLines.{WholeLines};

    /// Creates an empty buffer in front of this sink. If `gathers` is false, each line is passed on at once.
    pub fn new(inner: W, gathers: bool) -> WholeLines<W>
        ensures behind { behind result ≡ inner }
        ensures empty { waiting_lines result ≡ [] }
        ensures works { ⟦<WholeLines<W> as Sink>⟧.has_failed result ≡ false }
    {
        WholeLines {
            inner,
            waiting: Waiting::new(),
            capacity: if gathers { MOST_WAITING } else { 0 },
            has_failed: false,
        }
    }

    /// Returns the inner sink. Buffered lines are lost.
    pub fn into_inner(self) -> W
        ensures { result ≡ behind self }
    {
        let WholeLines { inner, .. } = self;
        inner
    }

    // Appends a line to the buffered ones. If it doesn't fit, those are written first, and then it is buffered, or
    // passed on by itself.
    fn take_line(&mut self, line: &[u8]) -> Result<usize, Failed>
        requires some { 0 < length line.now }
        ensures within { IfOk result (λ n. n ≤ length line.now) }
        ensures progress { IfOk result (λ n. 0 < n) }
        ensures takes { IfOk result (λ n. TakesLine W.Sink self.old (take n line.now) self.new) }
        ensures refuses { OnErr result (RefusesLine W.Sink self.old self.new) }
    {
        if self.inner.failed() {
            return Err(Failed);
        }
        if line.len() <= self.capacity.saturating_sub(self.waiting.len()) {
            self.waiting.append(line);
            return Ok(line.len());
        }
        self.write_waiting()?;
        if line.len() > self.capacity {
            return self.inner.write(line);
        }
        self.waiting.append(line);
        Ok(line.len())
    }

    // Writes the buffered lines.
    fn write_waiting(&mut self) -> Result<(), Failed>
        requires { W.has_failed (behind self.old) ≡ false }
        ensures written { IfOk result
            (λ _. Took W.Sink (waiting_lines self.old) (behind self.old) (behind self.new)) }
        ensures empty { IfOk result (λ _. waiting_lines self.new ≡ []) }
        ensures count { IfOk result (λ _. waiting_count self.new.waiting ≡ 0) }
        ensures same { self.new.has_failed ≡ self.old.has_failed }
        ensures refused { OnErr result
            (Refused W.Sink (waiting_lines self.old) (behind self.old) (behind self.new)) }
        ensures failed { W.has_failed (behind self.new) ≡ is_err result }
    {
        match self.waiting.flush(&mut self.inner) {
            Ok(()) => Ok(()),
            Err(_) => Err(Failed),
        }
    }

    /// Lemma (no code), the laws of such a sink: if nothing was buffered, the inner sink took what this one took,
    /// except the buffered bytes; or a write there failed, and the inner sink took a prefix of them.
    pub fn laws()
        ensures taken { (old new : WholeLines W) (bytes : List ℕ)
            → W.has_failed (behind old) ≡ false → waiting_lines old ≡ []
            → Took ⟦<WholeLines<W> as Sink>⟧ bytes old new
            → Reaches W.Sink bytes (behind old) new }
        ensures refused { (old new : WholeLines W) (bytes : List ℕ)
            → W.has_failed (behind old) ≡ false → waiting_lines old ≡ []
            → Refused ⟦<WholeLines<W> as Sink>⟧ bytes old new
            → Refused W.Sink bytes (behind old) (behind new) }
    {}
}

impl<W: Sink> Sink for WholeLines<W> {
    ghost use Rattle.xxhsum_output.specs.WholeLines.{TakesPiece, RefusesLine, has_failed};

    ghost has_failed = { has_failed };

    ghost takes = { TakesPiece W.Sink };

    ghost refuses = { RefusesLine W.Sink };

    fn failed(&self) -> bool {
        self.has_failed
    }

    fn write(&mut self, bytes: &[u8]) -> Result<usize, Failed> {
        let taken = self.take_line(bytes);
        self.has_failed = taken.is_err();
        taken
    }
}

impl<W: Sink> Output for WholeLines<W> {
    ghost use Rattle.xxhsum_output.specs.WholeLines.{waiting_lines, behind};

    ghost held = { waiting_lines };

    ghost has_lost = { λ s. W.has_failed (behind s) };

    fn has_lost(&self) -> bool {
        self.inner.failed()
    }

    fn release(&mut self) {
        if self.inner.failed() {
            return;
        }
        // What could not be written is lost, and `has_lost` is then true.
        let _ = self.write_waiting();
    }
}
