//! Saved texts of every possible length: each is read back. Only a failed allocation may refuse one, and a reader that
//! gave up on long texts could report that.

use crate::saved::{comes_back_32, comes_back_64};
use std::alloc::Global;
use twox_plain::{xxhash32, xxhash64};

// Length of the texts in which each number has one digit.
const SHORTEST_32: usize = 121;

const SHORTEST_64: usize = 153;

// Number of further digits that the numbers can have: those of the buffer, the usage, the accumulators, the seed, the
// length.
const MORE_32: u32 = 115;

const MORE_64: u32 = 197;

// Digits that are still to be distributed.
#[derive(Drop)]
struct Digits(u32);

impl Digits {
    // Takes as many of them as this number can have.
    fn take(&mut self, most: u32) -> u32 {
        let taken = self.0.min(most);
        self.0 = self.0.saturating_sub(taken);
        taken
    }

    // Returns one and this many zeros.
    fn byte(&mut self) -> u8 {
        match self.take(2) {
            0 => 1,
            1 => 10,
            _ => 100,
        }
    }

    fn number(&mut self, most: u32) -> u64 {
        let mut number: u64 = 1;
        for _ in 0..self.take(most) {
            number = number.saturating_mul(10);
        }
        number
    }

    fn word(&mut self) -> u32 {
        (self.number(9) % 0x1_0000_0000) as u32
    }

    fn bytes<const N: usize>(&mut self) -> [u8; N] {
        let mut bytes = [1; N];
        for i in 0..N {
            bytes[i] = self.byte();
        }
        bytes
    }
}

// Returns a record whose numbers have this many digits more than one each.
fn record_32(more: u32) -> xxhash32::SavedState {
    let mut digits = Digits(more);
    let buffer = digits.bytes();
    let buffer_usage = digits.number(19) as usize;
    let v1 = digits.word();
    let v2 = digits.word();
    let v3 = digits.word();
    let v4 = digits.word();
    let core = xxhash32::Core { v1, v2, v3, v4 };
    let seed = digits.word();
    let total_len = digits.number(19);
    xxhash32::SavedState {
        total_len,
        seed,
        core,
        buffer,
        buffer_usage,
    }
}

fn record_64(more: u32) -> xxhash64::SavedState {
    let mut digits = Digits(more);
    let buffer = digits.bytes();
    let buffer_usage = digits.number(19) as usize;
    let v1 = digits.number(19);
    let v2 = digits.number(19);
    let v3 = digits.number(19);
    let v4 = digits.number(19);
    let core = xxhash64::Core { v1, v2, v3, v4 };
    let seed = digits.number(19);
    let total_len = digits.number(19);
    xxhash64::SavedState {
        total_len,
        seed,
        core,
        buffer,
        buffer_usage,
    }
}

// True if the text has this length, and contains the record.
fn is_read_32(alloc: Global, record: xxhash32::SavedState, length: usize) -> bool {
    match record.to_json(alloc) {
        Ok(text) => text.len() == length && comes_back_32(alloc, record),
        Err(_) => false,
    }
}

fn is_read_64(alloc: Global, record: xxhash64::SavedState, length: usize) -> bool {
    match record.to_json(alloc) {
        Ok(text) => text.len() == length && comes_back_64(alloc, record),
        Err(_) => false,
    }
}

#[test]
fn each_length_of_32_bits(rt: HostRuntime) {
    let mut length = SHORTEST_32;
    for more in 0..=MORE_32 {
        assert!(rt;
            is_read_32(rt.alloc(), record_32(more), length),
            "{length} bytes"
        );
        length = length.saturating_add(1);
    }
}

#[test]
fn each_length_of_64_bits(rt: HostRuntime) {
    let mut length = SHORTEST_64;
    for more in 0..=MORE_64 {
        assert!(rt;
            is_read_64(rt.alloc(), record_64(more), length),
            "{length} bytes"
        );
        length = length.saturating_add(1);
    }
}

// The largest numbers.
#[test]
fn the_greatest_records(rt: HostRuntime) {
    let narrow = xxhash32::SavedState {
        total_len: u64::MAX,
        seed: u32::MAX,
        core: xxhash32::Core {
            v1: u32::MAX,
            v2: u32::MAX,
            v3: u32::MAX,
            v4: u32::MAX,
        },
        buffer: [255; 16],
        buffer_usage: usize::MAX,
    };
    assert!(rt; is_read_32(rt.alloc(), narrow, 236));
    let wide = xxhash64::SavedState {
        total_len: u64::MAX,
        seed: u64::MAX,
        core: xxhash64::Core {
            v1: u64::MAX,
            v2: u64::MAX,
            v3: u64::MAX,
            v4: u64::MAX,
        },
        buffer: [255; 32],
        buffer_usage: usize::MAX,
    };
    assert!(rt; is_read_64(rt.alloc(), wide, 350));
}
