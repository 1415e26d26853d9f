//! Standard readers and writers as streams.

use std::io;
use std::io::{ErrorKind, Read, Write};
use std::test::Fail;
use xxh_io::digest_error::DigestError;
use xxh_io::from_read::FromRead;
use xxh_io::from_write::FromWrite;
use xxh_io::streams::{Sink, Source};
use xxh_io::write::{write_all, write_line};

// A slice as a writer takes what fits, and then nothing.
#[test]
fn a_writer_that_takes_three_bytes_and_then_nothing(rt: HostRuntime) {
    let mut room = [0; 3];
    let mut w = FromWrite::new(room.as_mut_slice());
    assert!(rt; write_line(0xef46, 4, &mut w) == Err(DigestError::WriteFailed));
    drop(w);
    assert!(rt; room.as_slice() == b"ef4".as_slice());
}

/// Returns one byte, and is interrupted at its second read.
#[derive(Drop)]
struct Interrupted {
    is_second: bool,
}

impl Read for Interrupted {
    fn read(&mut self, buf: &mut [u8]) -> io::Result<usize> {
        if self.is_second {
            return Err(io::Error::from(ErrorKind::Interrupted));
        }
        self.is_second = true;
        if buf.is_empty() {
            return Ok(0);
        }
        buf[0] = 1;
        Ok(1)
    }
}

#[test]
fn an_interruption_is_a_failure(rt: HostRuntime) {
    let mut r = FromRead::new(Interrupted { is_second: false });
    let mut buf = [0; 4];
    assert!(rt; r.read(&mut buf) == Ok(1));
    assert!(rt; !r.failed());
    assert!(rt; r.read(&mut buf).is_err());
    assert!(rt; r.failed());
}

/// Takes some bytes per write, fails at one write, counted from 1, and takes all bytes afterwards.
#[derive(Drop)]
struct FailsOnce {
    take: usize,
    fail_at: usize,
    writes: usize,
}

impl Write for FailsOnce {
    fn write(&mut self, buf: &[u8]) -> io::Result<usize> {
        self.writes = self.writes.saturating_add(1);
        if self.writes == self.fail_at {
            return Err(io::Error::from(ErrorKind::Interrupted));
        }
        Ok(buf.len().min(self.take))
    }

    fn flush(&mut self) -> io::Result<()> {
        Ok(())
    }
}

// Writes the nine bytes of a line, this many at a time, with one failing write: that is the last.
fn stops(take: usize, fail_at: usize) -> bool {
    let mut w = FromWrite::new(FailsOnce {
        take,
        fail_at,
        writes: 0,
    });
    let answer = write_all(b"92f68bd9\n", &mut w);
    let failed = w.failed();
    answer == Err(DigestError::WriteFailed) && failed && w.into_inner().writes == fail_at
}

// One error is a failure, whatever was taken before it: the write is not repeated. A writer that takes nothing fails
// too.
#[test]
fn a_write_that_fails_once_is_a_failure(rt: HostRuntime) {
    for (take, fail_at) in [
        (1, 1),
        (1, 2),
        (1, 9),
        (4, 1),
        (4, 2),
        (4, 3),
        (8, 1),
        (8, 2),
        (9, 1),
    ] {
        assert!(rt; stops(take, fail_at), "{take} {fail_at}");
    }
    let mut w = FromWrite::new(FailsOnce {
        take: 0,
        fail_at: 0,
        writes: 0,
    });
    assert!(rt; w.write(b"some bytes").is_err());
    assert!(rt; w.failed());
}

// The bytes pass through a reader and a writer unchanged, and neither fails.
fn comes_through(bytes: &[u8], w: &mut FromWrite<Vec<u8>>) -> bool {
    let mut buf = [0; 600];
    let mut r = FromRead::new(bytes);
    let read = r.read(&mut buf) == Ok(bytes.len());
    let same = buf.get(..bytes.len()) == Some(bytes);
    if r.failed() || w.failed() || bytes.is_empty() {
        return false;
    }
    read && same && w.write(bytes) == Ok(bytes.len()) && !w.failed()
}

// Each byte as the last one, and lengths past 300: no read or write fails for no reason, or changes a byte.
#[test]
fn each_byte_and_many_lengths(rt: HostRuntime) -> Result<(), Fail> {
    let mut bytes = Vec::new(rt.alloc());
    for i in 0..600u64 {
        bytes.push((i % 256) as u8)?;
        let mut w = FromWrite::new(Vec::new(rt.alloc()));
        assert!(rt; comes_through(bytes.as_slice(), &mut w), "{i}");
        assert!(rt; w.into_inner().as_slice() == bytes.as_slice(), "{i}");
    }
    Ok(())
}
