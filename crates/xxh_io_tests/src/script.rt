//! The source that follows a script.

use xxh_io::script_source::ScriptSource;
use xxh_io::streams::Source;

// The result of one read of six bytes, if the source has not failed.
fn six<'a>(r: &mut ScriptSource<'_>, buf: &'a mut [u8; 6]) -> &'a [u8] {
    if r.failed() {
        return b"failed";
    }
    match r.read(buf) {
        Ok(count) => &buf[..count],
        Err(_) => b"fails",
    }
}

// First the buffer has fewer than the script; then the script has fewer; then more than remains.
#[test]
fn a_source_gives_the_least_of_three(rt: HostRuntime) {
    let mut r = ScriptSource::new(b"some bytes", &[100, 3, 100], 0);
    for want in [b"some b".as_slice(), b"yte", b"s", b""] {
        let mut buf = [0; 6];
        assert!(rt; six(&mut r, &mut buf) == want);
        assert!(rt; buf[want.len().min(6)..].iter().all(|byte| *byte == 0));
    }
    assert!(rt; r.reads() == 4);
}
