//! Buffered lines: the writes of the inner sink.

use xxh_io::script_sink::ScriptSink;
use xxh_io::streams::Sink;
use xxh_io::write::write_all;
use xxhsum_output::output::Output;
use xxhsum_output::whole_lines::WholeLines;

// Creates a buffer in front of a sink whose write of this number fails, so that the sink has the bytes of the writes
// before it.
fn failing_at(write: u64, gathers: bool) -> WholeLines<ScriptSink<99999>> {
    WholeLines::new(ScriptSink::new(99999, write), gathers)
}

// Returns how many bytes the inner sink has after lines of these lengths, if its write of this number fails.
fn written(lengths: &[usize], write: u64, gathers: bool) -> usize {
    let line = [b'x'; 9999];
    let mut lines = failing_at(write, gathers);
    for length in lengths {
        if !lines.failed() {
            let _ = write_all(&line[..(*length).min(9999)], &mut lines);
        }
    }
    lines.release();
    lines.into_inner().bytes().len()
}

#[test]
fn lines_of_at_most_4096_bytes_are_one_write(rt: HostRuntime) {
    for (lengths, write, count) in [
        ([4096, 0, 0].as_slice(), 2, 4096),
        (&[2000, 2000, 96], 1, 0),
        (&[2000, 2000, 96], 2, 4096),
        (&[2000, 2000, 97], 2, 4000),
        (&[2000, 2000, 97], 3, 4097),
        (&[100, 5000, 100], 2, 100),
        (&[100, 5000, 100], 3, 5100),
        (&[100, 5000, 100], 4, 5200),
        (&[4097, 1], 2, 4097),
    ] {
        assert!(rt; written(lengths, write, true) == count);
    }
}

#[test]
fn each_line_is_passed_at_once(rt: HostRuntime) {
    for (write, count) in [(1, 0), (2, 5), (3, 12), (4, 13)] {
        assert!(rt; written(&[5, 7, 1], write, false) == count);
    }
}

#[test]
fn lines_that_could_not_be_written_are_lost(rt: HostRuntime) {
    let mut lines = failing_at(1, true);
    assert!(rt; !lines.failed());
    assert!(rt; write_all(b"line\n", &mut lines) == Ok(()));
    assert!(rt; !lines.has_lost());
    lines.release();
    assert!(rt; lines.has_lost());
    assert!(rt; !lines.failed());
    assert!(rt; write_all(b"next\n", &mut lines).is_err());
    assert!(rt; lines.failed());
    assert!(rt; lines.into_inner().bytes() == b"".as_slice());
}
