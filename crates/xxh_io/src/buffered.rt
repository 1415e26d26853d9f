//! A fixed buffer in front of a reader.

ghost use Rattle.std.specs.Prelude.{◌≡◌, ◌<◌, ◌≤◌, [], OnOk, OnErr};
ghost use Rattle.std.specs.Io.KnownBytes.{Keeps, IsAtEnd};

use std::io;
use std::io::Read;

/// A reader with a buffer of `N` bytes, so that many short reads become few long ones of the reader. Allocates nothing.
///
/// A read returns bytes of the buffer. Only if the buffer is empty does it read from the reader, once, and directly
/// into the caller's buffer if that is as long. An error of the reader therefore comes after all the bytes before it,
/// and loses none.
#[derive(Drop)]
pub struct Buffered<R, const N: usize> {
    inner: R,
    buf: [u8; N],
    // `buf[start..end]` is unread.
    start: usize,
    end: usize,
    ghost some: { 0 < N },
    ghost ordered: { start ≤ end },
    ghost in_bounds: { end ≤ N },
}

impl<R: Read, const N: usize> Buffered<R, N> {
    ghost use Rattle.xxh_io.specs.Buffered.{buffered_bytes, buffered_reader, buffered_remaining};

    /// Creates an empty buffer in front of the reader.
    pub fn new(inner: R) -> Buffered<R, N>
        requires { 0 < N }
        ensures reader { buffered_reader result ≡ inner }
        ensures empty { buffered_bytes result ≡ [] }
    {
        Buffered {
            inner,
            buf: [0; N],
            start: 0,
            end: 0,
        }
    }

    // Reads once into the whole buffer, unless it has unread bytes.
    fn fill(&mut self) -> io::Result<()>
        ensures bytes { Keeps (buffered_remaining R.remaining self.old)
            (buffered_remaining R.remaining self.new) }
        ensures err { OnErr result (buffered_bytes self.old ≡ []) }
        ensures end { OnOk result
            (self.new.end ≤ self.new.start → IsAtEnd (R.remaining self.new.inner)) }
    {
        if self.start < self.end {
            return Ok(());
        }
        let count = self.inner.read(&mut self.buf)?;
        self.start = 0;
        self.end = count;
        Ok(())
    }
}

impl<R: Read, const N: usize> Read for Buffered<R, N> {
    ghost use Rattle.std.specs.Io.{ReadsAtMost};
    ghost use Rattle.std.specs.Io.KnownBytes.{ReadConsumes};
    ghost use Rattle.xxh_io.specs.Buffered.{buffered_bytes, buffered_remaining};

    ghost remaining = { buffered_remaining R.remaining };

    fn read(&mut self, buf: &mut [u8]) -> io::Result<usize>
        ensures bound { ReadsAtMost result buf.new }
        ensures bytes { ReadConsumes (buffered_remaining R.remaining self.old)
            (buffered_remaining R.remaining self.new) result buf.new }
        ensures err { OnErr result (buffered_bytes self.old ≡ []) }
    {
        // A long read needs no copy.
        if self.start >= self.end && buf.len() >= N {
            return self.inner.read(buf);
        }
        self.fill()?;
        let filled = &self.buf[..];
        let waiting = &filled[self.start..self.end];
        let count = waiting.len().min(buf.len());
        buf[..count].copy_from_slice(&waiting[..count]);
        self.start += count;
        Ok(count)
    }
}
