//! XXH3 of bytes that come in chunks, by streams of each kind. Expected values are those of the table, or the
//! one-shots', which other tests compare with it.

use crate::kinds::{
    Pieces, Values, beside_are_the_oneshot, beside_have_64, boxed_wide_beside, default_have, has,
    in_pieces, keyed, keyed_boxed, keyed_boxed_wide, keyed_have_64, keyed_have_128, raw, raw_wide,
    seeded_have,
};
use crate::rows::{SEED, first, gen_10240, rows, seeded_rows};
use std::alloc::Global;
use theorems::StreamingHasher;
use twox_hash::xxhash3::{DEFAULT_SECRET_RAW, SecretBuffer};
use twox_hash::{XxHash3_64, XxHash3_128};

fn oneshots(input: &[u8]) -> Values {
    Values {
        narrow: XxHash3_64::oneshot(input),
        wide: XxHash3_128::oneshot(input),
    }
}

#[test]
fn byte_by_byte(rt: HostRuntime) {
    let bytes = gen_10240();
    for row in rows() {
        let values = Values {
            narrow: row.value,
            wide: row.wide_value,
        };
        let input = in_pieces(first(&bytes, row.len), 1);
        assert!(rt;
            default_have(rt.alloc(), input, values),
            "{} bytes",
            row.len
        );
    }
}

// With only the default secret.
fn keyed_have(alloc: Global, input: Pieces<'_>, narrow: u64, wide: u128) -> bool {
    keyed_have_64(alloc, &DEFAULT_SECRET_RAW, input, narrow)
        && keyed_have_128(alloc, &DEFAULT_SECRET_RAW, input, wide)
}

#[test]
fn byte_by_byte_under_a_secret_alone(rt: HostRuntime) {
    let bytes = gen_10240();
    for row in rows() {
        let input = in_pieces(first(&bytes, row.len), 1);
        assert!(rt;
            keyed_have(rt.alloc(), input, row.value, row.wide_value),
            "{} bytes",
            row.len
        );
    }
}

// Byte by byte, under the seed of the table.
fn seeded_row_holds(alloc: Global, input: &[u8], narrow: u64) -> bool {
    let wide = XxHash3_128::oneshot_with_seed(SEED, input);
    seeded_have(alloc, SEED, in_pieces(input, 1), Values { narrow, wide })
}

#[test]
fn seeded_byte_by_byte(rt: HostRuntime) {
    let bytes = gen_10240();
    for (len, narrow) in seeded_rows() {
        assert!(rt;
            seeded_row_holds(rt.alloc(), first(&bytes, len), narrow),
            "{len} bytes"
        );
    }
}

// True if streams that hash the input in such chunks have the one-shot's value.
fn are_the_oneshot(alloc: Global, input: &[u8], size: usize) -> bool {
    default_have(alloc, in_pieces(input, size), oneshots(input))
}

// The last stripe stays in a full buffer, so that the last call takes it, and once.
#[test]
fn full_buffer(rt: HostRuntime) {
    let bytes = gen_10240();
    for (len, size) in [
        (256, 1),
        (256, 16),
        (256, 240),
        (256, 256),
        (512, 128),
        (512, 512),
    ] {
        assert!(rt;
            are_the_oneshot(rt.alloc(), first(&bytes, len), size),
            "{len} bytes by {size}"
        );
    }
}

// Twenty full buffers.
#[test]
fn pieces_of_a_buffer(rt: HostRuntime) {
    let values = Values {
        narrow: 0xbcd6_3266_df6e_2244,
        wide: 0x4f63_75cc_a7ec_e1e1_bcd6_3266_df6e_2244,
    };
    assert!(rt; default_have(rt.alloc(), in_pieces(&gen_10240(), 512), values));
}

// 577 bytes are nine stripes before the last, one for each place of 136 bytes: one scramble.
#[test]
fn one_scramble_under_a_short_secret(rt: HostRuntime) {
    let bytes = gen_10240();
    let (input, secret) = (first(&bytes, 577), first(&bytes, 136));
    let cut = in_pieces(input, 100);
    assert!(rt; beside_are_the_oneshot(rt.alloc(), 5, secret, cut, input));
}

fn secret_comes_back(alloc: Global, secret: &[u8], input: &[u8]) -> bool {
    let Some(mut stream) = boxed_wide_beside(alloc, 5, secret) else {
        return false;
    };
    stream.write(input);
    stream.into_secret().as_slice() == secret
}

#[test]
fn secrets_come_back_after_bytes(rt: HostRuntime) {
    let bytes = gen_10240();
    assert!(rt; secret_comes_back(rt.alloc(), first(&bytes, 136), first(&bytes, 577)));
}

// True if the input split at each point, including before the first byte and after the last, has the one-shot's value.
fn is_the_same_cut(alloc: Global, input: &[u8]) -> bool {
    let values = oneshots(input);
    let mut agree = true;
    for cut in 0..=input.len() {
        let parts = Pieces {
            head: &input[..cut],
            tail: &input[cut..],
            size: 10240,
        };
        agree &= default_have(alloc, parts, values);
    }
    agree
}

#[test]
fn cut_in_two_at_every_point(rt: HostRuntime) {
    let bytes = gen_10240();
    for n in [240, 241, 255, 256, 257, 511, 512, 513, 576, 1024] {
        assert!(rt; is_the_same_cut(rt.alloc(), first(&bytes, n)), "{n} bytes");
    }
}

const OF_FOUR_ZEROS: u64 = 0x7ec8_7193_96e4_65d3;

const ZEROS: &[u8] = &[0; 136];

// In one chunk, and one by one.
#[test]
fn secrets_of_zeros(rt: HostRuntime) {
    assert!(rt; keyed_have_64(rt.alloc(), ZEROS, in_pieces(&[], 1), 0));
    assert!(rt; keyed_have_128(rt.alloc(), ZEROS, in_pieces(&[], 1), 0));
    for size in [4, 1] {
        assert!(rt; keyed_have_64(rt.alloc(), ZEROS, in_pieces(&[0; 4], size), OF_FOUR_ZEROS));
    }
}

// With a seed, even 0, the default secret is used for no bytes.
#[test]
fn secrets_of_zeros_beside_a_seed(rt: HostRuntime) {
    let value = 0x2d06_8005_38d3_94c2;
    assert!(rt; beside_have_64(rt.alloc(), 0, ZEROS, in_pieces(&[], 1), value));
}

// True if a stream that grows byte by byte has these values, one before each byte.
fn grows<S: StreamingHasher + Drop>(
    made: Option<S>,
    bytes: &[u8; 10240],
    values: &[S::Value],
) -> bool {
    let Some(mut stream) = made else {
        return false;
    };
    let mut agree = true;
    for (byte, value) in bytes.iter().zip(values) {
        agree &= stream.digest() == *value;
        stream.update(&[*byte]);
    }
    agree
}

fn all_grow(alloc: Global, bytes: &[u8; 10240], secret: &[u8]) -> bool {
    let (mut narrow, mut wide) = ([0; 601], [0; 601]);
    for n in 0..601 {
        let input = first(bytes, n);
        narrow[n] = XxHash3_64::oneshot_with_secret(secret, input).unwrap_or(0);
        wide[n] = XxHash3_128::oneshot_with_secret(secret, input).unwrap_or(0);
    }
    grows(raw(keyed(alloc, secret)), bytes, &narrow)
        && grows(raw_wide(keyed(alloc, secret)), bytes, &wide)
        && grows(keyed_boxed(alloc, secret), bytes, &narrow)
        && grows(keyed_boxed_wide(alloc, secret), bytes, &wide)
}

#[test]
fn growing_streams_are_the_oneshot(rt: HostRuntime) {
    let bytes = gen_10240();
    for length in [136, 192] {
        assert!(rt;
            all_grow(rt.alloc(), &bytes, first(&bytes, length)),
            "{length} bytes"
        );
    }
}

// A secret in an array, as most streams have it.
fn default_array() -> Option<SecretBuffer<[u8; 192]>> {
    Some(SecretBuffer::default())
}

fn seeded_array() -> Option<SecretBuffer<[u8; 192]>> {
    SecretBuffer::with_seed(SEED, [0; 192]).ok()
}

// True if the stream was made, and has this value after the bytes, one per chunk.
fn has_bytewise<S: StreamingHasher + Drop>(made: Option<S>, input: &[u8], value: S::Value) -> bool {
    let Some(mut stream) = made else {
        return false;
    };
    for piece in input.chunks(1) {
        stream.update(piece);
    }
    stream.digest() == value
}

fn arrays_have(input: &[u8], value: u64, wide_value: u128) -> bool {
    has_bytewise(raw(default_array()), input, value)
        && has_bytewise(raw_wide(default_array()), input, wide_value)
}

#[test]
fn byte_by_byte_with_the_secret_in_an_array(rt: HostRuntime) {
    let bytes = gen_10240();
    for row in rows() {
        assert!(rt;
            arrays_have(first(&bytes, row.len), row.value, row.wide_value),
            "{} bytes",
            row.len
        );
    }
}

fn seeded_array_has(input: &[u8], value: u64) -> bool {
    has_bytewise(raw(seeded_array()), input, value)
}

#[test]
fn seeded_byte_by_byte_with_the_secret_in_an_array(rt: HostRuntime) {
    let bytes = gen_10240();
    for (len, value) in seeded_rows() {
        assert!(rt; seeded_array_has(first(&bytes, len), value), "{len} bytes");
    }
}
