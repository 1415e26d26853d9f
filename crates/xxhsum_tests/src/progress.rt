//! Progress of long files. The lines have the numbers that a reader of such a terminal would calculate: a line at each
//! 64 MiB, with the MiB so far, MiB per second, and seconds left.

use crate::entry::entry;
use crate::files::first_read;
use crate::program::{names, options};
use std::alloc::AllocError;
use xxh_io::kind::Kind;
use xxh_io::script_sink::ScriptSink;
use xxh_io::script_source::ScriptSource;
use xxhsum_fs::memory::MemoryFiles;
use xxhsum_program::process::Interactive;
use xxhsum_program::progress::Progress;
use xxhsum_program::progress_reader::ProgressDisplay;
use xxhsum_program::terminal::Terminal;

const MIB: usize = 1048576;

// Counts of bytes read with the times at which the reads end (ms, from a start at 500); the size; whether progress is
// on; and the output.
const READS: &[(&[(usize, u64)], Option<u64>, bool, &str)] = &[
    (
        &[(63 * MIB, 600), (1048575, 700), (1, 756), (0, 800)],
        None,
        true,
        "\r\x1b[K\x1b[?7l64 MiB, 250 MiB/s\x1b[?7h\r\r\x1b[K",
    ),
    (&[(63 * MIB, 600), (1048575, 700), (0, 800)], None, true, ""),
    (
        &[(200 * MIB, 1500), (1, 1501), (56 * MIB, 2500), (0, 2600)],
        Some(1073741824),
        true,
        "\r\x1b[K\x1b[?7l200 MiB, 200 MiB/s, 4 s left\x1b[?7h\r\r\x1b[K\x1b[?7l256 MiB, 128 MiB/s, 5 s left\x1b[?7h\r\r\x1b[K",
    ),
    (
        &[(64 * MIB, 600), (64 * MIB, 700), (0, 800)],
        None,
        false,
        "",
    ),
    (
        &[(usize::MAX, 500), (MIB, 501), (0, 502)],
        Some(5),
        true,
        "\r\x1b[K\x1b[?7l17592186044415 MiB, 17592186044415999 MiB/s, 0 s left\x1b[?7h\r\r\x1b[K",
    ),
];

#[test]
fn long_reads_are_shown(rt: HostRuntime) {
    for (reads, size, is_on, want) in READS {
        let mut progress = Progress::new(ScriptSink::<300>::new(300, 0), *is_on, *size, 500);
        for (count, now) in *reads {
            progress.show_at(*count, *now);
        }
        let end = progress.into_end();
        assert!(rt; end.bytes() == want.as_bytes(), "{want}");
    }
}

// A file whose progress is shown has the same bytes.
#[test]
fn watched_files_give_what_they_have(rt: HostRuntime) -> Result<(), AllocError> {
    let entries = [
        entry(b"a", ScriptSource::new(b"hello", &[3, 16], 0), false),
        entry(b"d", ScriptSource::new(b"", &[], 1), true),
    ];
    let files = MemoryFiles::new(&entries);
    let interactive = Interactive {
        input: false,
        errors: true,
    };
    let options = options(Kind::X64, &names(rt.alloc(), &[])?)?;
    let progress = ProgressDisplay::new(Terminal::new(rt.stderr(), &rt), interactive, options);
    for (name, want) in [
        (b"a".as_slice(), b"hel".as_slice()),
        (b"d", b"fails"),
        (b"gone", b"refused"),
    ] {
        assert!(rt; first_read(progress.open(&files, name), &mut [0; 16]) == want);
    }
    Ok(())
}
