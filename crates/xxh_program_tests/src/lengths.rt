//! Inputs of many lengths, saved and resumed.
//!
//! The contracts allow out of memory in every call that allocates, so a body that gives up past some length is proved.
//! So these tests take every length up to the fourth stripe of XXH64, and those around where a buffer or a read ends.

use crate::calls::{cycling, run_line};
use std::alloc::{AllocError, Global};
use std::str;
use twox_hash::{XxHash32, XxHash64};

// Saves the first part with these arguments, and resumes over the second: true if the line is this. The maximum seed
// has accumulators of many digits.
fn resumes(
    alloc: Global,
    kind: &str,
    seed: u64,
    parts: (&[u8], &[u8]),
    line: &str,
) -> Result<bool, AllocError> {
    let words = format!(in alloc; "save {kind} {seed}")?;
    let saved = run_line(alloc, words.as_str(), parts.0)?;
    let text = str::from_utf8(saved.out.as_slice()).unwrap_or("");
    let words = format!(in alloc; "resume {kind} {text}")?;
    let ran = run_line(alloc, words.as_str(), parts.1)?;
    Ok(saved.printed(text.as_bytes()) && ran.printed(line.as_bytes()))
}

// True if both algorithms continue after this many bytes to the line of the library's one-shot.
fn is_saved_and_resumed(alloc: Global, bytes: &[u8], cut: usize) -> Result<bool, AllocError> {
    let parts = bytes.split_at_checked(cut).unwrap_or((bytes, b""));
    let value = XxHash32::oneshot(u32::MAX, bytes);
    let line = format!(in alloc; "{value:08x}\n")?;
    let first = resumes(alloc, "32", u64::from(u32::MAX), parts, line.as_str())?;
    let value = XxHash64::oneshot(u64::MAX, bytes);
    let line = format!(in alloc; "{value:016x}\n")?;
    Ok(first && resumes(alloc, "64", u64::MAX, parts, line.as_str())?)
}

#[test]
fn lengths_up_to_a_million(rt: HostRuntime) -> Result<(), AllocError> {
    let all = cycling(rt.alloc(), 1000000)?;
    for (first, last) in [
        (0, 131),
        (255, 257),
        (1000, 1025),
        (2047, 2049),
        (4064, 4129),
        (999999, 1000000),
    ] {
        for len in first..last + 1 {
            let bytes = all.get(..len).unwrap_or(b"");
            for cut in [len / 2, len] {
                assert!(rt; is_saved_and_resumed(rt.alloc(), bytes, cut)?, "{len}");
            }
        }
    }
    Ok(())
}

// Saved states of maximum length: every number has its maximum number of digits.
#[test]
fn bytes_with_many_digits(rt: HostRuntime) -> Result<(), AllocError> {
    for cut in [31, 63, 95] {
        assert!(rt;
            is_saved_and_resumed(rt.alloc(), &[255; 100], cut)?,
            "{cut}"
        );
    }
    Ok(())
}
