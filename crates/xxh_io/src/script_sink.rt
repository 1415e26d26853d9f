//! A sink in memory that follows a script and exposes its bytes.

ghost use Rattle.std.specs.Prelude.{◌≡◌, ◌↔◌, ◌⊎◌, ◌<◌, ◌≤◌, ◌-◌, [], length, true, false, take, min, is_err, IfOk, OnErr};

use crate::streams::{Failed, Sink};

/// A sink for `N` bytes that takes a limited number of bytes per write, and fails at one write. Allocates nothing.
///
/// Write j, counted from 1, fails if j is `fail_at` (0 never fails), or if the sink is full and bytes are passed.
/// Otherwise it takes as many bytes as the least of `take`, the bytes passed, and the space left.
#[derive(Drop)]
pub struct ScriptSink<const N: usize> {
    bytes: [u8; N],
    len: usize,
    take: usize,
    fail_at: u64,
    writes: u64,
    failed: bool,
    ghost within: { len ≤ N },
    ghost some: { 1 ≤ take },
}

impl<const N: usize> ScriptSink<N> {
    ghost use Rattle.xxh_io.specs.Script.{sink_bytes, sink_fail_at, sink_take, sink_writes};

    /// Creates an empty sink. The caller proves that it takes at least one byte a write.
    pub fn new(take: usize, fail_at: u64) -> ScriptSink<N>
        requires { 1 ≤ take }
        ensures bytes { sink_bytes result ≡ [] }
        ensures take { sink_take result ≡ take }
        ensures fail_at { sink_fail_at result ≡ fail_at }
        ensures writes { sink_writes result ≡ 0 }
        ensures works { ⟦<ScriptSink<N> as Sink>⟧.has_failed result ≡ false }
    {
        ScriptSink {
            bytes: [0; N],
            len: 0,
            take,
            fail_at,
            writes: 0,
            failed: false,
        }
    }

    /// Returns the bytes that were taken.
    pub fn bytes(&self) -> &[u8]
        ensures { result.now ≡ sink_bytes self.now }
    {
        &self.bytes[..self.len]
    }
}

impl<const N: usize> Sink for ScriptSink<N> {
    ghost use Rattle.xxh_io.specs.Script.{counted, sink_bytes, sink_fail_at, sink_take, sink_writes, ScriptRefuses, ScriptTakes};

    ghost has_failed = { λ s. s.failed };

    ghost takes = { ScriptTakes };

    ghost refuses = { ScriptRefuses };

    fn failed(&self) -> bool {
        self.failed
    }

    fn write(&mut self, bytes: &[u8]) -> Result<usize, Failed>
        requires works { self.old.failed ≡ false }
        requires some { 0 < length bytes.now }
        ensures within { IfOk result (λ n. n ≤ length bytes.now) }
        ensures progress { IfOk result (λ n. 0 < n) }
        ensures piece { IfOk result (λ n. ScriptTakes self.old (take n bytes.now) self.new) }
        ensures refuses { OnErr result (ScriptRefuses self.old self.new) }
        ensures failed { self.new.failed ≡ is_err result }

        // Stronger than the trait's clauses.
        ensures size { IfOk result
            (λ n. n ≡ min (sink_take self.old)
            (min (length bytes.now) (N - length (sink_bytes self.old)))) }
        ensures fails_at { is_err result ≡ true
            ↔ (counted (sink_writes self.old) ≡ sink_fail_at self.old)
            ⊎ (length (sink_bytes self.old) ≡ N) }
    {
        self.writes = self.writes.saturating_add(1);
        let room = N - self.len;
        if self.writes == self.fail_at || room == 0 {
            self.failed = true;
            return Err(Failed);
        }
        let count = self.take.min(bytes.len()).min(room);
        let all = &mut self.bytes[..];
        all[self.len..self.len + count].copy_from_slice(&bytes[..count]);
        self.len += count;
        Ok(count)
    }
}
