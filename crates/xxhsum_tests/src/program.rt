//! The program over a table of names. Digests, lines and outputs are those of Debian's `xxhsum` 0.8.1 over such files.

use crate::entry::entry;
use std::alloc::{AllocError, Global};
use xxh_io::kind::Kind;
use xxh_io::script_sink::ScriptSink;
use xxh_io::script_source::ScriptSource;
use xxhsum_fs::memory::{MemoryEntry, MemoryFiles};
use xxhsum_options::options::{Options, ParsedArgs, parse_args};
use xxhsum_program::check::{check_list, check_lists};
use xxhsum_program::context::Context;
use xxhsum_program::hash::{hash_input, hash_names};
use xxhsum_program::process::Interactive;
use xxhsum_program::progress_reader::ProgressDisplay;
use xxhsum_program::stop::Stop;
use xxhsum_program::streams::Streams;
use xxhsum_program::terminal::Terminal;

const LIST: &[u8] =
    b"26c7827d889f6da3  a\ndeadbeefdeadbeef  b\nnonsense\n0123456789abcdef  gone\nXXH3 (b) = d30345fef8ac3570";

// The output for it.
const CHECKED: &[u8] =
    b"a: OK\nb: FAILED\nL:4: Could not open or read 'gone': No such file or directory.\nb: OK\n1 line is improperly formatted\n1 listed file could not be read\n1 computed checksum did NOT match\n";

// The message for the file whose second read fails, as in docs/XXHSUM.md.
const BAD: &[u8] = b"Error: Could not read 'bad': Input/output error. \n";

const NO_TERMINAL: Interactive = Interactive {
    input: false,
    errors: false,
};

// The files a and b, the folder d, a file whose second read fails, and a list.
fn entries<'a>() -> [MemoryEntry<'a, ScriptSource<'a>>; 5] {
    [
        entry(b"a", ScriptSource::new(b"hello", &[2, 9], 0), false),
        entry(b"b", ScriptSource::new(b"bytes", &[4, 9], 0), false),
        entry(b"d", ScriptSource::new(b"", &[], 1), true),
        entry(b"bad", ScriptSource::new(b"hello", &[2, 9], 2), false),
        entry(b"L", ScriptSource::new(LIST, &[7, 999], 0), false),
    ]
}

pub(crate) fn names(alloc: Global, all: &[&[u8]]) -> Result<Vec<Vec<u8>>, AllocError> {
    let mut names = Vec::new(alloc);
    for name in all {
        names.push(name.to_vec(alloc)?)?;
    }
    Ok(names)
}

pub(crate) fn options(kind: Kind, words: &[Vec<u8>]) -> Result<Options, AllocError> {
    match parse_args(kind, words) {
        ParsedArgs::Run { options, .. } => Ok(options),
        _ => Err(AllocError),
    }
}

#[test]
fn each_name_has_its_line(rt: HostRuntime) -> Result<(), AllocError> {
    let entries = entries();
    let files = MemoryFiles::new(&entries);
    let names = names(rt.alloc(), &[b"a", b"b", b"d", b"gone"])?;
    let options = options(Kind::X64, &names)?;
    for (refuses, message) in [
        (
            0,
            b"xxhsum: d: Is a directory \nError: Could not open 'gone': No such file or directory. \n".as_slice(),
        ),
        (1, b""),
        (3, b"xxhsum: d"),
    ] {
        let mut streams = Streams::new(
            ScriptSink::<99>::new(9, 0),
            ScriptSink::<99>::new(99, refuses),
        );
        let context = Context {
            alloc: rt.alloc(),
            store: &files,
            options,
            progress: ProgressDisplay::new(Terminal::new(rt.stderr(), &rt), NO_TERMINAL, options),
        };
        let all = hash_names(&context, &names, &mut streams);
        assert!(rt; all == Ok(false));
        assert!(rt;
            streams.out.bytes() == b"26c7827d889f6da3  a\n2d83aaba506794c4  b\n".as_slice()
        );
        assert!(rt; streams.messages().bytes() == message);
    }
    Ok(())
}

// A file that can't be read doesn't end the run; a failed write does, at once.
#[test]
fn a_failed_write_alone_stops_the_run(rt: HostRuntime) -> Result<(), AllocError> {
    let entries = entries();
    let files = MemoryFiles::new(&entries);
    let names = names(rt.alloc(), &[b"a", b"bad", b"b"])?;
    let options = options(Kind::X64, &names)?;
    for (write_fails, answer, printed) in [
        (
            0,
            Ok(false),
            b"26c7827d889f6da3  a\n2d83aaba506794c4  b\n".as_slice(),
        ),
        (2, Err(Stop::WriteFailed), b"26c7827d8"),
    ] {
        let mut streams = Streams::new(
            ScriptSink::<99>::new(9, write_fails),
            ScriptSink::<99>::new(99, 0),
        );
        let context = Context {
            alloc: rt.alloc(),
            store: &files,
            options,
            progress: ProgressDisplay::new(Terminal::new(rt.stderr(), &rt), NO_TERMINAL, options),
        };
        let all = hash_names(&context, &names, &mut streams);
        assert!(rt; all == answer);
        assert!(rt; streams.out.bytes() == printed);
        if write_fails == 0 {
            assert!(rt; streams.messages().bytes() == BAD);
        }
    }
    Ok(())
}

#[test]
fn standard_input_has_its_line(rt: HostRuntime) -> Result<(), AllocError> {
    let options = options(Kind::X32, &names(rt.alloc(), &[b"--tag"])?)?;
    for (read_fails, printed, message) in [
        (0, b"XXH32 (stdin) = fb0077f9\n".as_slice(), b"".as_slice()),
        (
            2,
            b"",
            b"Error: Could not read 'stdin': Input/output error.\n",
        ),
    ] {
        let progress = ProgressDisplay::new(Terminal::new(rt.stderr(), &rt), NO_TERMINAL, options);
        let mut input = progress.watch(ScriptSource::new(b"hello", &[1, 9], read_fails));
        let mut streams = Streams::new(ScriptSink::<99>::new(99, 0), ScriptSink::<99>::new(99, 0));
        let all = hash_input(rt.alloc(), options, b"stdin", &mut input, &mut streams);
        assert!(rt; all == Ok(read_fails == 0));
        assert!(rt; streams.out.bytes() == printed);
        assert!(rt; streams.messages().bytes() == message);
    }
    Ok(())
}

#[test]
fn a_list_is_checked(rt: HostRuntime) -> Result<(), AllocError> {
    let entries = entries();
    let files = MemoryFiles::new(&entries);
    let options = options(Kind::X64, &names(rt.alloc(), &[b"-c", b"-w"])?)?;
    let context = Context {
        alloc: rt.alloc(),
        store: &files,
        options,
        progress: ProgressDisplay::new(Terminal::new(rt.stderr(), &rt), NO_TERMINAL, options),
    };
    let mut streams = Streams::new(ScriptSink::<300>::new(300, 0), ScriptSink::<99>::new(99, 0));
    let source = ScriptSource::new(LIST, &[7, 999], 0);
    let good = check_list(&context, b"L", source, &mut streams);
    assert!(rt; good == Ok(false));
    assert!(rt; streams.out.bytes() == CHECKED);
    assert!(rt;
        streams.messages().bytes()
            == b"L:3: Error: Improperly formatted checksum line.\n".as_slice()
    );
    let lists = names(rt.alloc(), &[b"L"])?;
    let mut streams = Streams::new(ScriptSink::<300>::new(300, 0), ScriptSink::<99>::new(99, 0));
    let good = check_lists(&context, &lists, &mut streams);
    assert!(rt; good == Ok(false));
    assert!(rt; streams.out.bytes() == CHECKED);
    Ok(())
}
