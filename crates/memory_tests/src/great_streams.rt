//! Streams of many bytes: copies succeed, have the value so far, and are independent.

use crate::copies::{boxed, boxed_wide, core};
use crate::streams::Stream;
use std::alloc::{AllocError, Global};
use std::test::Fail;
use twox_hash::{XxHash3_64, XxHash3_128};

// Returns the stream after the chunk, this many times.
fn after_many<S: Stream>(mut stream: S, count: u32, piece: &[u8]) -> S {
    for _ in 0..count {
        stream.take(piece);
    }
    stream
}

// True if a copy has the value so far, and another one with one more byte, which the stream also has with that byte.
fn copy_goes_on<S: Stream + Drop>(mut stream: S) -> Result<bool, AllocError> {
    let mut copy = stream.copy()?;
    let before = stream.value();
    let same = copy.value() == before;
    copy.take(&[1]);
    let kept = stream.value() == before;
    stream.take(&[1]);
    Ok(same && kept && copy.value() != before && copy.value() == stream.value())
}

// True if that is so for a stream of each kind, after the chunk, this many times.
fn copies_go_on(alloc: Global, count: u32, piece: &[u8]) -> Result<bool, AllocError> {
    Ok(
        copy_goes_on(after_many(boxed(alloc)?, count, piece))?
            && copy_goes_on(after_many(boxed_wide(alloc)?, count, piece))?
            && copy_goes_on(after_many(core(), count, piece))?,
    )
}

#[test]
fn copies_after_a_mebibyte(rt: HostRuntime) -> Result<(), AllocError> {
    assert!(rt; copies_go_on(rt.alloc(), 16, &[7; 65_536])?);
    Ok(())
}

#[test]
fn copies_after_five_million_bytes(rt: HostRuntime) -> Result<(), AllocError> {
    assert!(rt; copies_go_on(rt.alloc(), 100, &[7; 50_000])?);
    Ok(())
}

fn seeded_copies_go_on(
    alloc: Global,
    seed: u64,
    count: u32,
    piece: &[u8],
) -> Result<bool, AllocError> {
    Ok(
        copy_goes_on(after_many(XxHash3_64::with_seed(alloc, seed)?, count, piece))?
            && copy_goes_on(after_many(XxHash3_128::with_seed(alloc, seed)?, count, piece))?,
    )
}

// Copies of a stream of five million bytes under the maximum seed.
#[test]
fn copies_after_five_million_bytes_under_the_greatest_seed(
    rt: HostRuntime,
) -> Result<(), AllocError> {
    assert!(rt; seeded_copies_go_on(rt.alloc(), u64::MAX, 100, &[7; 50_000])?);
    Ok(())
}

// 65,537 chunks of 64 KiB: more bytes than 32 bits count.
#[test]
fn copies_of_a_stream_past_four_gibibytes(rt: HostRuntime) -> Result<(), Fail> {
    let stream = XxHash3_64::with_seed(rt.alloc(), u64::MAX)?;
    assert!(rt; copy_goes_on(after_many(stream, 65_537, &[7; 65_536]))?);
    Ok(())
}

#[test]
fn copies_of_a_core_past_four_gibibytes(rt: HostRuntime) -> Result<(), Fail> {
    let core = after_many(core(), 65_537, &[7; 65_536]);
    assert!(rt; core.total_len() == 4_295_032_832);
    assert!(rt; copy_goes_on(core)?);
    Ok(())
}
