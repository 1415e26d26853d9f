//! What the program prints and returns, over memory and over streams that fail.

use crate::calls::{Ran, cycling, run_by, run_line};
use crate::digests::PAIRS;
use std::alloc::{AllocError, Global};
use xxh_program::program::{ScriptSink, ScriptSource};

const SOME: &[u8] = b"some bytes";

const RESUME_32: &str =
    "resume 32 {\"buffer\":[72,101,108,108,111,44,32,119,111,114,108,100,33,0,0,0],\"buffer_usage\":14,\"core\":{\"v1\":606290984,\"v2\":2246822519,\"v3\":0,\"v4\":1640531535},\"seed\":0,\"total_len\":14}";

const RESUME_64: &str =
    "resume 64 {\"buffer\":[72,101,108,108,111,44,32,119,111,114,108,100,33,0,0,0,0,0,0,0,0,0,0,0,0,0,0,0,0,0,0,0],\"buffer_usage\":14,\"core\":{\"v1\":6983438078262162902,\"v2\":14029467366897019727,\"v3\":0,\"v4\":7046029288634856825},\"seed\":0,\"total_len\":14}";

// Arguments, the input, and the output: each command, with each of its algorithms. The values and states are the C
// library's.
const PRINTED: [(&str, &[u8], &[u8]); 15] = [
    ("hash 32", SOME, b"29f97ecd\n"),
    ("hash 64", SOME, b"55cfd3deadcabb2a\n"),
    ("hash 3-64", SOME, b"45c97cf9b0447624\n"),
    ("hash 3-128", SOME, b"99736577b441a1bbd3ec197fe371e984\n"),
    ("hash 32 4294967295", SOME, b"17343bb3\n"),
    ("hash 64 18446744073709551615", SOME, b"68cffc67a3e39e33\n"),
    (
        "hash 3-64 18446744073709551615",
        SOME,
        b"f2bedbe5c1d104be\n",
    ),
    (
        "hash 3-128 0001234",
        SOME,
        b"d13af43e9c4507cfc327b2ddc4f87078\n",
    ),
    ("hash 64", b"", b"ef46db3751d8e999\n"),
    (
        "save 32",
        b"Hello, world!\0",
        b"{\"buffer\":[72,101,108,108,111,44,32,119,111,114,108,100,33,0,0,0],\"buffer_usage\":14,\"core\":{\"v1\":606290984,\"v2\":2246822519,\"v3\":0,\"v4\":1640531535},\"seed\":0,\"total_len\":14}\n",
    ),
    (
        "save 64 18446744073709551615",
        SOME,
        b"{\"buffer\":[115,111,109,101,32,98,121,116,101,115,0,0,0,0,0,0,0,0,0,0,0,0,0,0,0,0,0,0,0,0,0,0],\"buffer_usage\":10,\"core\":{\"v1\":6983438078262162901,\"v2\":14029467366897019726,\"v3\":18446744073709551615,\"v4\":7046029288634856824},\"seed\":18446744073709551615,\"total_len\":10}\n",
    ),
    (RESUME_32, b"", b"9e5e7e93\n"),
    (RESUME_64, b"", b"7b06c531ea43e89f\n"),
    ("blocks 2", &[0, 1, 0, 1, 0], PAIRS),
    ("blocks 18446744073709551615", b"", b""),
];

#[test]
fn what_each_command_prints(rt: HostRuntime) -> Result<(), AllocError> {
    for (words, input, out) in PRINTED {
        let ran = run_line(rt.alloc(), words, input)?;
        assert!(rt; ran.printed(out), "{words}");
    }
    Ok(())
}

// Arguments and their error message. No hasher has the states of the last three cases, by their counts and by their
// accumulators.
const REFUSED: &str = "\
|xxh: usage: xxh hash|save|resume 32|64|3-64|3-128 [SEED|JSON] or xxh blocks SIZE
hash 64 1 2|xxh: usage: xxh hash|save|resume 32|64|3-64|3-128 [SEED|JSON] or xxh blocks SIZE
hash 32 4294967296|xxh: bad seed
save 64 +1|xxh: bad seed
blocks 0|xxh: bad size
resume 32 {}|xxh: bad state
resume 64 {}|xxh: bad state
resume 32 {\"buffer\":[0,0,0,0,0,0,0,0,0,0,0,0,0,0,0,0],\"buffer_usage\":17,\"core\":{\"v1\":606290984,\"v2\":2246822519,\"v3\":0,\"v4\":1640531535},\"seed\":0,\"total_len\":14}|xxh: bad state
resume 64 {\"buffer\":[0,0,0,0,0,0,0,0,0,0,0,0,0,0,0,0,0,0,0,0,0,0,0,0,0,0,0,0,0,0,0,0],\"buffer_usage\":14,\"core\":{\"v1\":1,\"v2\":14029467366897019727,\"v3\":0,\"v4\":7046029288634856825},\"seed\":0,\"total_len\":14}|xxh: bad state";

// True if it printed this line, with status 2, and read and printed nothing else.
fn is_refused(ran: &Ran, line: &str) -> bool {
    let quiet = ran.status == 2 && ran.out.is_empty() && ran.unread == 10;
    quiet && ran.err.as_slice().strip_suffix(b"\n") == Some(line.as_bytes())
}

#[test]
fn words_that_are_refused(rt: HostRuntime) -> Result<(), AllocError> {
    for row in REFUSED.lines() {
        let (words, line) = row.split_once('|').unwrap_or((row, ""));
        let ran = run_line(rt.alloc(), words, SOME)?;
        assert!(rt; is_refused(&ran, line), "{words}");
    }
    Ok(())
}

// If the second read fails, nothing is printed; with space for eight bytes, those are. Both print their error message.
fn reports(
    alloc: Global,
    line: &str,
    read_fails: u64,
    printed: usize,
    message: &[u8],
) -> Result<bool, AllocError> {
    let words: Vec<&str> = line.split(' ').collect(alloc)?;
    let mut r = ScriptSource::new(SOME, &[4, 6], read_fails);
    let mut out = ScriptSink::<8>::new(1000, 0);
    let mut err = ScriptSink::<40>::new(7, 0);
    let status = run_by(alloc, &words, &mut r, &mut out, &mut err);
    Ok(status == 1 && out.bytes().len() == printed && err.bytes() == message)
}

#[test]
fn ends_that_fail(rt: HostRuntime) -> Result<(), AllocError> {
    for line in [
        "hash 64", "save 32", "save 64", RESUME_32, RESUME_64, "blocks 5",
    ] {
        assert!(rt;
            reports(
                rt.alloc(),
                line,
                1,
                0,
                b"xxh: read failed: Input/output error\n"
            )?,
            "{line}"
        );
        assert!(rt;
            reports(rt.alloc(), line, 0, 8, b"xxh: write failed\n")?,
            "{line}"
        );
    }
    Ok(())
}

// Returns the number of reads for these arguments if each read returns all that is offered.
fn reads_of(alloc: Global, line: &str, bytes: &[u8]) -> Result<u64, AllocError> {
    let words: Vec<&str> = line.split(' ').collect(alloc)?;
    let mut r = ScriptSource::new(bytes, &[1000000; 10], 0);
    let mut out = ScriptSink::<1000>::new(1000, 0);
    let mut err = ScriptSink::<40>::new(40, 0);
    let status = run_by(alloc, &words, &mut r, &mut out, &mut err);
    Ok(if status == 0 { r.reads() } else { 0 })
}

// Twice what is offered takes two reads, and one byte more takes a third. Then comes the end.
#[test]
fn reads_are_long_where_nothing_is_saved(rt: HostRuntime) -> Result<(), AllocError> {
    for (line, offered) in [
        ("hash 64 1", 131072),
        ("blocks 131072", 131072),
        ("save 32 1", 4096),
        ("save 64 1", 4096),
    ] {
        let bytes = cycling(rt.alloc(), 2 * offered + 1)?;
        let shorter = bytes.get(..2 * offered).unwrap_or(b"");
        assert!(rt; reads_of(rt.alloc(), line, shorter)? == 3, "{line}");
        assert!(rt;
            reads_of(rt.alloc(), line, bytes.as_slice())? == 4,
            "{line}"
        );
    }
    Ok(())
}
