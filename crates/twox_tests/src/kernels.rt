//! The kernels of XXH3 by name, in one stream.

use crate::rows::{SEED, first, gen_10240};
use std::alloc::{AllocError, Global};
use std::test::Fail;
use twox_hash::xxhash3::large::{halves4, lanes2, lanes4, lanes8, scalar, split2};
use twox_hash::xxhash3::{AllocRawHasher, Vector};
use twox_hash::xxhash3_64::Finalize64;

type Core = AllocRawHasher<Global>;

fn write_with<V: Vector>(core: &mut Core, v: V, piece: &[u8]) {
    core.write_with(v, piece);
}

fn finish_with<V: Vector>(core: &Core, v: V) -> u64 {
    core.finish_with(v, Finalize64)
}

fn write_eight(core: &mut Core, eight: &[u8; 8]) {
    write_with(core, scalar::Impl {}, &eight[..1]);
    write_with(core, lanes2::Impl {}, &eight[1..2]);
    write_with(core, lanes4::Impl {}, &eight[2..3]);
    write_with(core, split2::Impl {}, &eight[3..4]);
    write_with(core, halves4::Impl {}, &eight[4..5]);
    write_with(core, lanes8::Impl {}, &eight[5..]);
}

fn finishes(core: &Core, value: u64) -> bool {
    finish_with(core, scalar::Impl {}) == value
        && finish_with(core, lanes2::Impl {}) == value
        && finish_with(core, lanes4::Impl {}) == value
        && finish_with(core, lanes8::Impl {}) == value
        && finish_with(core, split2::Impl {}) == value
        && finish_with(core, halves4::Impl {}) == value
}

fn taken_in_turn(alloc: Global, input: &[u8]) -> Result<Core, AllocError> {
    let mut core = AllocRawHasher::allocate_with_seed(alloc, SEED)?;
    let (eights, _) = input.as_chunks::<8>();
    for eight in eights {
        write_eight(&mut core, eight);
    }
    Ok(core)
}

// The kernels take the bytes in turn, and each of them ends the hash.
#[test]
fn kernels_in_turn(rt: HostRuntime) -> Result<(), Fail> {
    let core = taken_in_turn(rt.alloc(), first(&gen_10240(), 1024))?;
    assert!(rt; finishes(&core, 0x2483_9f0f_cdf4_d078));
    Ok(())
}
