//! Digests over streams that follow a script. Each expected value is published by xxHash or twox-hash, or comes from
//! the C library 0.8.1.

use crate::calls::{Way, cycling, digest_by};
use std::alloc::AllocError;
use xxh_program::program::{
    DigestError, Kind, ScriptSink, ScriptSource, digest_of_bytes, value_of_source,
};

// Two blocks of the bytes 0 and 1, and one of the byte 0.
pub(crate) const PAIRS: &[u8] = b"\
0000000000000000 6a4a5274c1b0d3add6645fc3051a9457
0000000000000002 6a4a5274c1b0d3add6645fc3051a9457
0000000000000004 a6cd5e9392000f6ac44bdff4074eecdb
";

// A way, the bytes, their lines, and how many bytes of these are written once five bytes were read.
const ROWS: [(Way, &[u8], &[u8], usize); 7] = [
    (
        Way::Fresh(Kind::X32, 0),
        b"Hello, world!\0",
        b"9e5e7e93\n",
        0,
    ),
    (
        Way::Fresh(Kind::X64, 1234),
        b"some bytes",
        b"eab55659a496d78b\n",
        0,
    ),
    (
        Way::Fresh(Kind::X3_64, 1234),
        b"some bytes",
        b"582ee33d9ad8c6e9\n",
        0,
    ),
    (
        Way::Fresh(Kind::X3_128, 1234),
        b"some bytes",
        b"d13af43e9c4507cfc327b2ddc4f87078\n",
        0,
    ),
    (Way::From32, b" bytes", b"92f68bd9\n", 0),
    (Way::From64, b" bytes", b"eab55659a496d78b\n", 0),
    (Way::Blocks(2), &[0, 1, 0, 1, 0], PAIRS, 100),
];

/// A read that fails, how many reads are allowed, and a write that fails.
#[derive(Clone, Copy)]
struct Ends {
    read_fails: u64,
    max_reads: u64,
    write_fails: u64,
}

const SOUND: Ends = Ends {
    read_fails: 0,
    max_reads: 4,
    write_fails: 0,
};

// True if a digest of chunks of four bytes, of one and of all that is left has this result, and writes this by fives.
fn comes_to(
    way: Way,
    bytes: &[u8],
    ends: Ends,
    answer: Result<(), DigestError>,
    written: &[u8],
) -> bool {
    let mut r = ScriptSource::new(bytes, &[4, 1, 9], ends.read_fails);
    let mut w = ScriptSink::<150>::new(5, ends.write_fails);
    let given = digest_by(way, ends.max_reads, &mut r, &mut w);
    given == answer && w.bytes() == written
}

// A read, a write or the limit fails in mid-stream: no digest continues, nor takes what it has as the end.
#[test]
fn each_digest_and_its_failures(rt: HostRuntime) {
    for (way, bytes, lines, count) in ROWS {
        assert!(rt; comes_to(way, bytes, SOUND, Ok(()), lines));
        let front = lines.get(..count).unwrap_or(lines);
        let ends = Ends {
            read_fails: 3,
            ..SOUND
        };
        assert!(rt; comes_to(way, bytes, ends, Err(DigestError::ReadFailed), front));
        let ends = Ends {
            max_reads: 2,
            ..SOUND
        };
        assert!(rt; comes_to(way, bytes, ends, Err(DigestError::TooLong), front));
        let front = lines.get(..5).unwrap_or(lines);
        let ends = Ends {
            write_fails: 2,
            ..SOUND
        };
        assert!(rt; comes_to(way, bytes, ends, Err(DigestError::WriteFailed), front));
    }
}

// Returns the number of reads of a digest if each read returns all that is offered.
fn reads_of(way: Way, bytes: &[u8]) -> u64 {
    let mut r = ScriptSource::new(bytes, &[1000000; 10], 0);
    let mut w = ScriptSink::<200>::new(200, 0);
    match digest_by(way, 10, &mut r, &mut w) {
        Ok(()) => r.reads(),
        Err(_) => 0,
    }
}

// Each read is offered 4,096 bytes: 8,192 bytes take two reads, and 8,193 a third. Then comes the end.
#[test]
fn each_read_is_offered_the_whole_buffer(rt: HostRuntime) -> Result<(), AllocError> {
    let shorter = cycling(rt.alloc(), 8192)?;
    let longer = cycling(rt.alloc(), 8193)?;
    for (way, ..) in ROWS {
        let way = match way {
            Way::Blocks(_) => Way::Blocks(4096),
            _ => way,
        };
        assert!(rt; reads_of(way, shorter.as_slice()) == 3);
        assert!(rt; reads_of(way, longer.as_slice()) == 4);
    }
    Ok(())
}

// Only bytes in memory: no call of the digest gets an allocator, so none can allocate.
#[test]
fn the_line_of_bytes_in_memory(rt: HostRuntime) {
    let mut sink = ScriptSink::<60>::new(7, 0);
    let answer = digest_of_bytes(Kind::X32, 1234, b"some bytes", &mut sink);
    assert!(rt; answer == Ok(()) && sink.bytes() == b"92f68bd9\n".as_slice());
}

// True if the value is this, by reads that are offered 64 bytes: 157 that return some, and one that returns none.
fn has_value(kind: Kind, bytes: &[u8], value: u128) -> bool {
    let mut r = ScriptSource::new(bytes, &[1000; 160], 0);
    let answer = value_of_source(kind, 0, u64::MAX, &mut r, &mut [0; 64]);
    answer == Ok(value) && r.reads() == 158
}

#[test]
fn the_value_of_a_source(rt: HostRuntime) -> Result<(), AllocError> {
    let bytes = cycling(rt.alloc(), 10000)?;
    for (kind, value) in [
        (Kind::X32, 0x96bf9b9b),
        (Kind::X64, 0xb3dba2084c8288c4),
        (Kind::X3_64, 0x1cb3abee1c2fc1c4),
        (Kind::X3_128, 0x89dec82a789965e61cb3abee1c2fc1c4),
    ] {
        assert!(rt; has_value(kind, bytes.as_slice(), value));
    }
    Ok(())
}
