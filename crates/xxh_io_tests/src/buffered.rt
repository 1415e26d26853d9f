//! The buffer in front of a reader.

ghost use Rattle.std.specs.Prelude.{◌<◌, ◌≤◌};

use std::alloc::{AllocError, Global};
use std::io;
use std::io::{ErrorKind, Read};
use std::test::Fail;
use xxh_io::buffered::Buffered;
use xxh_io::from_read::FromRead;
use xxh_io::refusal::Refusal;
use xxh_io::streams::Source;

/// Returns up to three bytes a read, and fails once, at its second read.
#[derive(Drop)]
struct Stumbling<'a> {
    left: &'a [u8],
    reads: usize,
}

impl Read for Stumbling<'_> {
    fn read(&mut self, buf: &mut [u8]) -> io::Result<usize> {
        self.reads = self.reads.saturating_add(1);
        if self.reads == 2 {
            return Err(io::Error::from(ErrorKind::Interrupted));
        }
        let count = buf.len().min(3);
        self.left.read(&mut buf[..count])
    }
}

// The result of one read of this many bytes.
fn given<'a>(r: &mut Buffered<Stumbling<'_>, 4>, room: &'a mut [u8]) -> &'a [u8] {
    match r.read(room) {
        Ok(count) => &room[..count],
        // The error is the reader's own (not in a clause).
        Err(error) if error.kind() == ErrorKind::Interrupted => b"interrupted",
        Err(_) => b"another error",
    }
}

// Three bytes are buffered, and are returned by twos; the error comes after them, and the reading continues after it,
// by fives, with no byte lost.
#[test]
fn bytes_in_order_and_an_error_after_those_that_wait(rt: HostRuntime) {
    let mut r = Buffered::<_, 4>::new(Stumbling {
        left: b"some bytes",
        reads: 0,
    });
    for want in [b"so".as_slice(), b"m", b"interrupted"] {
        let mut room = [0; 2];
        assert!(rt; given(&mut r, &mut room) == want);
    }
    for want in [b"e b".as_slice(), b"yte", b"s", b"", b""] {
        let mut room = [0; 5];
        assert!(rt; given(&mut r, &mut room) == want);
    }
}

/// The bytes 0 to 250, repeated.
fn cycling(alloc: Global, len: usize) -> Result<Vec<u8>, AllocError> {
    let mut bytes = Vec::new(alloc);
    for i in 0..len {
        bytes.push((i % 251) as u8)?;
    }
    Ok(bytes)
}

// True if the bytes come through a buffer of `N` bytes, this many at once, and nothing after them.
fn comes_through<const N: usize>(bytes: &[u8], at_once: usize) -> bool
    requires some { 0 < N }
    requires few { N ≤ 65536 }
{
    let mut r = Buffered::<_, N>::new(bytes);
    let mut rest = bytes;
    let mut buf = [0; 4096];
    let offered = at_once.min(4096);
    for _ in 0..u64::MAX {
        let Ok(count) = r.read(&mut buf[..offered]) else {
            return false;
        };
        if count == 0 {
            break;
        }
        let Some(after) = rest.strip_prefix(&buf[..count.min(4096)]) else {
            return false;
        };
        rest = after;
    }
    let ended = match r.read(&mut buf) {
        Ok(count) => count == 0,
        Err(_) => false,
    };
    rest.is_empty() && ended
}

// Buffers of one byte and of four; inputs that end before the buffer's end, at it, after it, and after many; reads that
// are shorter than the buffer, as long, and longer.
#[test]
fn inputs_around_the_edge_of_a_small_buffer(rt: HostRuntime) -> Result<(), Fail> {
    for len in [0, 1, 2, 3, 4, 5, 7, 8, 9, 40] {
        let bytes = cycling(rt.alloc(), len)?;
        for at_once in [1, 3, 4, 5, 4096] {
            assert!(rt;
                comes_through::<1>(bytes.as_slice(), at_once),
                "{len} by {at_once}"
            );
            assert!(rt;
                comes_through::<4>(bytes.as_slice(), at_once),
                "{len} by {at_once}"
            );
        }
    }
    Ok(())
}

// Inputs around the edge of a buffer of the program's size.
#[test]
fn inputs_around_the_edge_of_a_large_buffer(rt: HostRuntime) -> Result<(), Fail> {
    for len in [65535, 65536, 65537, 131072, 200000] {
        let bytes = cycling(rt.alloc(), len)?;
        for at_once in [1000, 4096] {
            assert!(rt;
                comes_through::<65536>(bytes.as_slice(), at_once),
                "{len} by {at_once}"
            );
        }
    }
    Ok(())
}

/// Returns this many bytes once, and fails at its second read; a third would return the end.
#[derive(Drop)]
struct FailsAfter {
    count: usize,
    last: u8,
    reads: usize,
}

impl Read for FailsAfter {
    fn read(&mut self, buf: &mut [u8]) -> io::Result<usize> {
        self.reads = self.reads.saturating_add(1);
        if self.reads == 2 {
            return Err(io::Error::from_raw_os_error(116));
        }
        if self.reads > 2 {
            return Ok(0);
        }
        let count = self.count.min(buf.len());
        if let Some(last) = buf[..count].last_mut() {
            *last = self.last;
        }
        Ok(count)
    }
}

// The first read returns the bytes, and the second fails.
fn fails_second(count: usize, last: u8) -> bool {
    let mut buf = [0; 4096];
    let mut r = FromRead::new(FailsAfter {
        count,
        last,
        reads: 0,
    });
    let first = r.read(&mut buf);
    if r.failed() {
        return false;
    }
    let second = r.read(&mut buf);
    first == Ok(count)
        && second.is_err()
        && r.failed()
        && r.failure() == Refusal::new(116, b"Stale file handle")
}

// Whatever was read before it, one error is a failure, with the system's message.
#[test]
fn an_error_after_any_bytes_is_a_failure(rt: HostRuntime) {
    for count in [1, 2, 255, 256, 300, 301, 4095, 4096] {
        for last in [0, 1, 10, 127, 128, 255] {
            assert!(rt; fails_second(count, last), "{count}, {last}");
        }
    }
}
