//! The program over a process of the tests: its arguments, its streams, and the flush at the end.

use std::alloc::{Alloc, AllocError, Global};
use std::env::{Env, FillError};
use std::io;
use std::io::{ErrorKind, Write};
use xxh_program::program::run_process;

/// The arguments of a process, the program's name first, and its memory.
#[derive(Drop)]
struct Arguments<'a> {
    words: &'a [&'a [u8]],
    alloc: Global,
}

impl Env for Arguments<'_> {
    fn arg(&self, i: usize, buf: &mut [u8]) -> Result<usize, FillError> {
        let Some(word) = self.words.get(i) else {
            return Err(FillError::NotPresent);
        };
        let len = word.len();
        if len > buf.len() {
            return Err(FillError::TooLong);
        }
        buf[..len].copy_from_slice(word);
        Ok(len)
    }

    fn var(&self, _name: &str, _buf: &mut [u8]) -> Result<usize, FillError> {
        Err(FillError::NotPresent)
    }

    fn var_at(&self, _i: usize, _buf: &mut [u8]) -> Result<usize, FillError> {
        Err(FillError::NotPresent)
    }
}

impl Alloc for Arguments<'_> {
    type A = Global;

    fn alloc(&self) -> Global {
        self.alloc
    }
}

/// Keeps what is written, and counts the flushes. A flush fails if it is set to.
#[derive(Drop)]
struct Stream {
    bytes: Vec<u8>,
    flushes: usize,
    flush_fails: bool,
}

impl Stream {
    fn new(alloc: Global, flush_fails: bool) -> Stream {
        Stream {
            bytes: Vec::new(alloc),
            flushes: 0,
            flush_fails,
        }
    }
}

impl Write for Stream {
    fn write(&mut self, buf: &[u8]) -> io::Result<usize> {
        self.bytes.extend_from_slice(buf)?;
        Ok(buf.len())
    }

    fn flush(&mut self) -> io::Result<()> {
        self.flushes = self.flushes.saturating_add(1);
        if self.flush_fails {
            Err(io::Error::from(ErrorKind::StorageFull))
        } else {
            Ok(())
        }
    }
}

/// The result of a process.
#[derive(Drop)]
struct Ended {
    status: u8,
    out: Stream,
    err: Stream,
    unread: usize,
}

fn run_with(alloc: Global, words: &[&[u8]], flush_fails: bool) -> Ended {
    let process = Arguments { words, alloc };
    let mut input = b"some bytes".as_slice();
    let mut out = Stream::new(alloc, flush_fails);
    let mut err = Stream::new(alloc, false);
    let status = run_process(&process, &mut input, &mut out, &mut err);
    Ended {
        status,
        out,
        err,
        unread: input.len(),
    }
}

impl Ended {
    /// True if everything was read, the line was printed and flushed once, and no error was written.
    fn printed(&self) -> bool {
        let line = self.out.bytes.as_slice() == b"eab55659a496d78b\n".as_slice();
        let quiet = self.status == 0 && self.err.bytes.is_empty() && self.unread == 0;
        line && quiet && self.out.flushes == 1
    }

    /// True if this status was returned and this line written to standard error, and nothing was read or printed.
    fn refused(&self, status: u8, line: &[u8]) -> bool {
        let unread = self.out.bytes.is_empty() && self.unread == 10;
        unread && self.status == status && self.err.bytes.as_slice() == line
    }
}

#[test]
fn the_words_are_those_after_the_name(rt: HostRuntime) {
    for name in [b"xxh".as_slice(), b"", b"hash"] {
        assert!(rt; run_with(rt.alloc(), &[name, b"hash", b"64", b"1234"], false).printed());
    }
}

const USAGE: &[u8] =
    b"xxh: usage: xxh hash|save|resume 32|64|3-64|3-128 [SEED|JSON] or xxh blocks SIZE\n";

// No arguments; and one that is not UTF-8 in the name, a command, a seed and one argument too many.
const NO_WORDS: [&[&[u8]]; 5] = [
    &[],
    &[b"xxh\xff", b"hash", b"64"],
    &[b"xxh", b"\xff", b"64"],
    &[b"xxh", b"hash", b"64", b"\xc3"],
    &[b"xxh", b"hash", b"64", b"1", b"\x80"],
];

#[test]
fn arguments_that_are_no_words(rt: HostRuntime) {
    for words in NO_WORDS {
        assert!(rt; run_with(rt.alloc(), words, false).refused(2, USAGE));
    }
}

// The line was printed before; the flush's error is reported.
fn is_told(alloc: Global) -> bool {
    let done = run_with(alloc, &[b"xxh", b"hash", b"64", b"1234"], true);
    let line = done.out.bytes.as_slice() == b"eab55659a496d78b\n".as_slice();
    let message = done.err.bytes.as_slice() == b"xxh: write failed\n".as_slice();
    done.status == 1 && line && message && done.out.flushes == 1 && done.unread == 0
}

#[test]
fn a_flush_that_fails(rt: HostRuntime) {
    assert!(rt; is_told(rt.alloc()));
    // An earlier error is the one that is reported.
    let done = run_with(rt.alloc(), &[b"xxh", b"hash", b"64", b"x"], true);
    assert!(rt; done.refused(2, b"xxh: bad seed\n"));
}

// An argument that is longer than any buffer of the system.
#[test]
fn a_long_word(rt: HostRuntime) -> Result<(), AllocError> {
    let mut zeros = Vec::new(rt.alloc());
    for _ in 0..10000u64 {
        zeros.push(b'0')?;
    }
    zeros.extend_from_slice(b"1234")?;
    let words = [b"xxh".as_slice(), b"hash", b"64", zeros.as_slice()];
    assert!(rt; run_with(rt.alloc(), &words, false).printed());
    Ok(())
}
