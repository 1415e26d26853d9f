//! Words and chunks. Each expected value is one that the tests of the Rust crate `twox-hash` expect, or follows
//! from the xxHash specification by hand.

use twox_plain::words::{U8SliceExt, bp_as_chunks, bp_as_chunks_mut};

const FIVE: &[u8] = &[1, 2, 3, 4, 5];

#[test]
fn words_at_both_ends(rt: HostRuntime) {
    assert!(rt; FIVE.first_u32() == Some(0x0403_0201));
    assert!(rt; FIVE.last_u32() == Some(0x0504_0302));
    assert!(rt; FIVE.first_u64() == None);
    assert!(rt; FIVE.last_u64() == None);
}

#[test]
fn chunks(rt: HostRuntime) {
    let (chunks, rest) = bp_as_chunks::<u8, 2>(FIVE);
    assert!(rt; chunks == [[1, 2], [3, 4]].as_slice());
    assert!(rt; rest == [5].as_slice());
}

#[test]
fn no_chunk(rt: HostRuntime) {
    let (chunks, rest) = bp_as_chunks::<u8, 6>(FIVE);
    assert!(rt; chunks.len() == 0);
    assert!(rt; rest == FIVE);
}

#[test]
fn chunks_to_be_written(rt: HostRuntime) {
    let mut bytes: [u8; 5] = [1, 2, 3, 4, 5];
    let (chunks, rest) = bp_as_chunks_mut::<u8, 2>(&mut bytes);
    assert!(rt; chunks.len() == 2 && rest.len() == 1);
    chunks[1] = [7, 8];
    rest[0] = 9;
    assert!(rt; bytes == [1, 2, 7, 8, 9]);
}
