//! Sources in memory, which expose their bytes: one that follows a script, and one over a slice.

ghost use Rattle.std.specs.Prelude.{◌≡◌, ◌<◌, ◌≤◌, ◌+◌, ◌==◌, [], length, false, take, is_err, IfOk, OnErr, drop, min, slice_index};

use crate::refusal::Refusal;
use crate::streams::{Failed, Source};

/// A source that returns bytes in chunks of given sizes, and fails at one read. Allocates nothing.
///
/// Read j, counted from 1, fails if j is `fail_at` (0 never fails). Otherwise it returns the next bytes: as many as the
/// least of `sizes[j - 1]`, the remaining bytes, and the buffer's length. Past the end of `sizes` it returns none. The
/// error of the read that fails is `Input/output error`.
///
/// ```
/// let mut source = ScriptSource::new(b"some bytes", &[4, 1, 5], 3);
/// let mut buf = [0; 8];
/// source.read(&mut buf) // Ok(4), `some`
/// source.read(&mut buf) // Ok(1), a space
/// source.read(&mut buf) // Err(Failed)
/// ```
#[derive(Clone, Copy)]
pub struct ScriptSource<'a> {
    bytes: &'a [u8],
    sizes: &'a [usize],
    fail_at: u64,
    // Number of bytes returned so far.
    at: usize,
    reads: u64,
    failed: bool,
    ghost within: { at ≤ length bytes.now },
}

impl<'a> ScriptSource<'a> {
    ghost use Rattle.xxh_io.specs.Script.{next_size, script_fail_at, script_reads, script_rest, script_sizes};

    /// Creates a source at its beginning.
    pub fn new(bytes: &'a [u8], sizes: &'a [usize], fail_at: u64) -> ScriptSource<'a>
        ensures bytes { script_rest result ≡ bytes.now }
        ensures sizes { script_sizes result ≡ sizes.now }
        ensures fail_at { script_fail_at result ≡ fail_at }
        ensures reads { script_reads result ≡ 0 }
        ensures works { ⟦<ScriptSource<'static> as Source>⟧.has_failed result ≡ false }
    {
        ScriptSource {
            bytes,
            sizes,
            fail_at,
            at: 0,
            reads: 0,
            failed: false,
        }
    }

    /// Returns the number of reads, including failed ones, saturating at `u64::MAX`.
    pub fn reads(&self) -> u64
        ensures { result ≡ script_reads self.now }
    {
        let ScriptSource { reads, .. } = *self;
        reads
    }

    // Returns the number of bytes that the next read returns for a buffer of this size.
    fn next_size(&self, offered: usize) -> usize
        ensures size { result ≡ next_size self.now offered }
        ensures offered { result ≤ offered }
        ensures left { self.now.at + result ≤ length self.now.bytes.now }
    {
        let size = match usize::try_from(self.reads) {
            Ok(read) if read < self.sizes.len() => self.sizes[read],
            _ => 0,
        };
        size.min(self.bytes.len() - self.at).min(offered)
    }
}

impl Source for ScriptSource<'_> {
    ghost use Rattle.xxh_io.specs.Script.{counted, next_size, script_fail_at, script_reads, script_reason, ScriptFails, ScriptGives};

    ghost has_failed = { λ s. s.failed };

    ghost gives = { ScriptGives };

    ghost fails = { ScriptFails };

    ghost reason = { λ _. script_reason };

    fn failed(&self) -> bool {
        self.failed
    }

    fn failure(&self) -> Refusal {
        Refusal::new(5, b"Input/output error")
    }

    fn read(&mut self, buf: &mut [u8]) -> Result<usize, Failed>
        requires works { self.old.failed ≡ false }
        requires room { 0 < length buf.old }
        ensures within { IfOk result (λ n. n ≤ length buf.new) }
        ensures piece { IfOk result (λ n. ScriptGives self.old (take n buf.new) self.new) }
        ensures fails { OnErr result (ScriptFails self.old self.new) }
        ensures failed { self.new.failed ≡ is_err result }

        // Stronger than the trait's clauses.
        ensures size { IfOk result (λ n. n ≡ next_size self.old (length buf.old)) }
        ensures fails_at { is_err result
            ≡ (counted (script_reads self.old) == script_fail_at self.old) }
    {
        let size = self.next_size(buf.len());
        self.reads = self.reads.saturating_add(1);
        if self.reads == self.fail_at {
            self.failed = true;
            return Err(Failed);
        }
        buf[..size].copy_from_slice(&self.bytes[self.at..self.at + size]);
        self.at += size;
        Ok(size)
    }
}

/// The bytes of a slice as a source. Each read returns as many bytes as remain and fit, and none fails.
#[derive(Clone, Copy)]
pub struct SliceSource<'a> {
    rest: &'a [u8],
}

impl<'a> SliceSource<'a> {
    ghost use Rattle.xxh_io.specs.Script.{slice_rest};

    /// Creates a source at its beginning.
    pub fn new(bytes: &'a [u8]) -> SliceSource<'a>
        ensures { slice_rest result ≡ bytes.now }
    {
        SliceSource { rest: bytes }
    }
}

impl Source for SliceSource<'_> {
    ghost use Rattle.xxh_io.specs.Script.{SliceGives, slice_rest};

    ghost has_failed = { λ _. false };

    ghost gives = { SliceGives };

    ghost fails = { λ _ _. ⊥ };

    ghost reason = { λ _. [] };

    fn failed(&self) -> bool {
        false
    }

    fn failure(&self) -> Refusal {
        Refusal::new(0, b"")
    }

    fn read(&mut self, buf: &mut [u8]) -> Result<usize, Failed>
        requires room { 0 < length buf.old }
        ensures within { IfOk result (λ n. n ≤ length buf.new) }
        ensures piece { IfOk result (λ n. SliceGives self.old (take n buf.new) self.new) }
        ensures fails { OnErr result ⊥ }
        ensures failed { false ≡ is_err result }

        // Stronger than the trait's clauses.
        ensures size { IfOk result (λ n. n ≡ min (length (slice_rest self.old)) (length buf.old)) }
        ensures bytes { IfOk result (λ n. take n buf.new ≡ take n (slice_rest self.old)) }
        ensures rest { IfOk result (λ n. slice_rest self.new ≡ drop n (slice_rest self.old)) }
    {
        let size = self.rest.len().min(buf.len());
        let (piece, rest) = self.rest.split_at(size);
        buf[..size].copy_from_slice(piece);
        self.rest = rest;
        Ok(size)
    }
}
