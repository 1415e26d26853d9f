//! Files by name, in memory and of the system.

use crate::entry::entry;
use std::test::Fail;
use xxh_io::refusal::Refusal;
use xxh_io::script_source::{ScriptSource, SliceSource};
use xxh_io::streams::Source;
use xxhsum_fs::below::Below;
use xxhsum_fs::calls::Process;
use xxhsum_fs::memory::{MemoryEntry, MemoryFiles};
use xxhsum_fs::store::Store;
use xxhsum_fs::system::SystemFiles;

// Returns the result of the first read of an opened file, or a word if it isn't open.
pub(crate) fn first_read<R: Source + Drop>(
    opened: Result<R, Refusal>,
    room: &mut [u8; 16],
) -> &[u8] {
    let Ok(mut file) = opened else {
        return b"refused";
    };
    if file.failed() {
        return b"failed";
    }
    match file.read(room) {
        Ok(count) => &room[..count],
        Err(_) => b"fails",
    }
}

// True if each name has its case's result: the first read of its file, or a word if there is none; and whether it is a
// directory.
fn leads_to<S: Store>(store: &S, rows: &[(&[u8], &[u8], bool)]) -> bool {
    rows.iter().all(|(name, want, is_directory)| {
        first_read(store.open(name), &mut [0; 16]) == *want
            && store.is_directory(name) == *is_directory
    })
}

// The first of two entries of one name is used; a read may fail as in the script.
#[test]
fn a_table_gives_the_source_of_the_first_entry(rt: HostRuntime) {
    let entries = [
        entry(b"a", ScriptSource::new(b"hello", &[16], 0), false),
        entry(b"a", ScriptSource::new(b"world", &[16], 0), false),
        entry(b"\xff", ScriptSource::new(b"bytes", &[3, 16], 0), false),
        entry(b"d", ScriptSource::new(b"", &[], 1), true),
    ];
    let store = MemoryFiles::new(&entries);
    assert!(rt;
        leads_to(
            &store,
            &[
                (b"a", b"hello", false),
                (b"\xff", b"byt", false),
                (b"d", b"fails", true),
                (b"gone", b"refused", false),
                (b"", b"refused", false),
            ]
        )
    );
}

// A name is relative to the directory unless it is empty or begins with a slash. A path has at most 4,095 bytes.
#[test]
fn a_name_leads_below_its_directory(rt: HostRuntime) -> Result<(), Fail> {
    let entries = [
        entry(b"d/a", ScriptSource::new(b"hello", &[16], 0), false),
        entry(b"/a", ScriptSource::new(b"world", &[16], 0), false),
        entry(b"d/b", ScriptSource::new(b"", &[], 1), true),
    ];
    let files = MemoryFiles::new(&entries);
    let below = Below::new(b"d", &files);
    assert!(rt;
        leads_to(
            &below,
            &[
                (b"a", b"hello", false),
                (b"/a", b"world", false),
                (b"b", b"fails", true),
                (b"d/a", b"refused", false),
                (b"", b"refused", false),
            ]
        )
    );
    assert!(rt;
        leads_to(
            &Below::new(b"", &files),
            &[(b"d/a", b"hello", false), (b"a", b"refused", false)]
        )
    );
    let long = [b'a'; 4094];
    for (name, words) in [
        (&long[1..], b"No such file or directory".as_slice()),
        (&long[..], b"File name too long"),
    ] {
        let Err(why) = below.open(name) else {
            return Err(Fail::from("it is there"));
        };
        assert!(rt; why.text() == words);
    }
    Ok(())
}

#[test]
fn a_slice_is_given_whole(rt: HostRuntime) {
    let entries = [MemoryEntry {
        name: b"a".as_slice(),
        source: SliceSource::new(b"hello"),
        is_directory: false,
    }];
    assert!(rt;
        first_read(MemoryFiles::new(&entries).open(b"a"), &mut [0; 16]) == b"hello".as_slice()
    );
}

// A missing file is refused, as the system would.
#[test]
fn a_refusal_has_its_words(rt: HostRuntime) -> Result<(), Fail> {
    let Err(why) = MemoryFiles::new(&[entry(b"a", ScriptSource::new(b"", &[], 0), false)]).open(
        b"gone",
    ) else {
        return Err(Fail::from("it is there"));
    };
    assert!(rt; why == Refusal::new(2, b"No such file or directory"));
    assert!(rt; why.text() == b"No such file or directory".as_slice());
    assert!(rt; Refusal::new(1, &[b'x'; 300]).text() == [b'x'; 256].as_slice());
    Ok(())
}

// What every system has: the empty file, the root directory, and names of nothing.
#[test]
fn the_system_gives_its_files(rt: HostRuntime) {
    assert!(rt;
        leads_to(
            &SystemFiles::new(&Process::new(&rt)),
            &[
                (b"/dev/null", b"", false),
                (b"/", b"fails", true),
                (b"/dev/null/a", b"refused", false),
                (b"/\xff", b"refused", false),
                (b"", b"refused", false),
            ]
        )
    );
}

// An error has only the system's message, without the number that std appends.
#[test]
fn a_refusal_of_the_system_has_its_words(rt: HostRuntime) -> Result<(), Fail> {
    for (name, words) in [
        (b"/dev/null/a".as_slice(), b"Not a directory".as_slice()),
        (b"/no such name", b"No such file or directory"),
        (b"/\xff", b"The name is not UTF-8"),
    ] {
        let Err(why) = SystemFiles::new(&Process::new(&rt)).open(name) else {
            return Err(Fail::from("it is there"));
        };
        assert!(rt; why.text() == words);
    }
    Ok(())
}
