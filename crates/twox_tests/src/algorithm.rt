//! XXH3 by a caller's own kernels and finalizers.

ghost use Rattle.std.specs.Prelude.{◌≤◌, length};

use crate::rows::{gen_10240, generated};
use std::alloc::Global;
use std::cell::Cell;
use std::test::Fail;
use twox_hash::xxhash3::{
    Algorithm, AllocRawHasher, Finalize, INITIAL_ACCUMULATORS, Kernel, Secret, Vector,
    default_secret,
};
use twox_hash::xxhash3_64::Finalize64;
use twox_hash::xxhash3_128::Finalize128;

const VALUE: u64 = 0xbcd6_3266_df6e_2244;

const WIDE_VALUE: u128 = 0x4f63_75cc_a7ec_e1e1_bcd6_3266_df6e_2244;

// A kernel that counts its calls.
#[derive(Clone, Copy)]
struct Counting<'a> {
    accumulates: &'a Cell<u64>,
    scrambles: &'a Cell<u64>,
}

impl Vector for Counting<'_> {
    fn round_scramble(&self, acc: &mut [u64; 8], secret_end: &[u8; 64]) {
        self.scrambles.set(self.scrambles.get().saturating_add(1));
        Kernel {}.round_scramble(acc, secret_end);
    }

    fn accumulate(&self, acc: &mut [u64; 8], stripe: &[u8; 64], secret: &[u8; 64]) {
        self.accumulates
            .set(self.accumulates.get().saturating_add(1));
        Kernel {}.accumulate(acc, stripe, secret);
    }
}

// The two counts of a kernel's calls.
#[derive(Drop)]
struct Counts {
    accumulates: Cell<u64>,
    scrambles: Cell<u64>,
}

impl Counts {
    fn new() -> Counts {
        Counts {
            accumulates: Cell::new(0),
            scrambles: Cell::new(0),
        }
    }

    fn kernel(&self) -> Counting<'_> {
        Counting {
            accumulates: &self.accumulates,
            scrambles: &self.scrambles,
        }
    }

    fn are(&self, accumulates: u64, scrambles: u64) -> bool {
        self.accumulates.get() == accumulates && self.scrambles.get() == scrambles
    }
}

fn oneshot_64<V: Vector>(v: V, input: &[u8; 10240]) -> u64 {
    Algorithm(v).oneshot(default_secret(), input, Finalize64)
}

fn oneshot_128<V: Vector>(v: V, input: &[u8; 10240]) -> u128 {
    Algorithm(v).oneshot(default_secret(), input, Finalize128)
}

// The algorithm calls the kernel that is passed to it.
#[test]
fn kernel_of_a_oneshot_of_64_bits(rt: HostRuntime) {
    let counts = Counts::new();
    assert!(rt; oneshot_64(counts.kernel(), &gen_10240()) == VALUE);
    assert!(rt; counts.are(160, 9));
}

#[test]
fn kernel_of_a_oneshot_of_128_bits(rt: HostRuntime) {
    let counts = Counts::new();
    assert!(rt; oneshot_128(counts.kernel(), &gen_10240()) == WIDE_VALUE);
    assert!(rt; counts.are(160, 9));
}

fn finalized_64<V: Vector>(v: V, block: &[u8; 129]) -> u64 {
    Algorithm(v).finalize_64(INITIAL_ACCUMULATORS, block, &[7; 64], default_secret(), 129)
}

fn finalized_128<V: Vector>(v: V, block: &[u8; 129]) -> u128 {
    Algorithm(v).finalize_128(INITIAL_ACCUMULATORS, block, &[7; 64], default_secret(), 129)
}

#[test]
fn kernel_of_the_last_block(rt: HostRuntime) {
    let block = generated();
    let counts = Counts::new();
    let low = finalized_64(counts.kernel(), &block);
    assert!(rt; counts.are(3, 0));
    let counts = Counts::new();
    let both = finalized_128(counts.kernel(), &block);
    assert!(rt; counts.are(3, 0));
    assert!(rt; (both & 0xffff_ffff_ffff_ffff) as u64 == low);
}

type Core = AllocRawHasher<Global>;

fn written<V: Vector>(alloc: Global, v: V, input: &[u8]) -> Result<Core, Fail> {
    let mut core = AllocRawHasher::allocate_default(alloc)?;
    core.write_with(v, input);
    Ok(core)
}

fn finish_64<V: Vector>(core: &Core, v: V) -> u64 {
    core.finish_with(v, Finalize64)
}

fn finish_128<V: Vector>(core: &Core, v: V) -> u128 {
    core.finish_with(v, Finalize128)
}

fn stripes_done(core: &Core) -> u64 {
    core.stripes_done()
}

// True if it was called for the stripes done, and then for the others.
fn takes_all(core: &Core, counts: &Counts) -> bool {
    counts.accumulates.get() == stripes_done(core)
        && finish_64(core, counts.kernel()) == VALUE
        && counts.are(160, 9)
}

// A core calls the kernel that is passed to it.
#[test]
fn kernel_of_a_core_of_64_bits(rt: HostRuntime) -> Result<(), Fail> {
    let counts = Counts::new();
    let core = written(rt.alloc(), counts.kernel(), &gen_10240())?;
    assert!(rt; takes_all(&core, &counts));
    Ok(())
}

fn takes_the_rest(core: &Core, counts: &Counts) -> bool {
    finish_128(core, counts.kernel()) == WIDE_VALUE
        && stripes_done(core).saturating_add(counts.accumulates.get()) == 160
}

fn finish_by_the_core(core: &Core) -> u128 {
    core.finish(Finalize128)
}

#[test]
fn kernel_of_a_core_of_128_bits(rt: HostRuntime) -> Result<(), Fail> {
    let core = written(rt.alloc(), Kernel {}, &gen_10240())?;
    assert!(rt; takes_the_rest(&core, &Counts::new()));
    assert!(rt; finish_by_the_core(&core) == WIDE_VALUE);
    Ok(())
}

// A caller's own finalizer: the length of the last block, and the input.
#[derive(Clone, Copy)]
struct Lengths;

impl Finalize for Lengths {
    type Output = (usize, u64);

    ghost small_of = { λ _ s seed m. (length m, seed) };

    ghost large_of = { λ _ a b t s n. (length b, n) };

    fn small(&self, _secret: Secret<'_>, seed: u64, input: &[u8]) -> (usize, u64) {
        (input.len(), seed)
    }

    fn large(
        &self,
        _v: impl Vector,
        _acc: [u64; 8],
        last_block: &[u8],
        _last_stripe: &[u8; 64],
        _secret: Secret<'_>,
        len: u64,
    ) -> (usize, u64) {
        (last_block.len(), len)
    }
}

fn parts_of(input: &[u8]) -> (usize, u64)
    requires { 241 ≤ length input.now }
{
    Algorithm(Kernel {}).oneshot(default_secret(), input, Lengths)
}

// A block has 16 stripes, and one that ends the input is its last.
#[test]
fn own_finalize(rt: HostRuntime) {
    assert!(rt; parts_of(&generated::<241>()) == (241, 241));
    assert!(rt; parts_of(&generated::<1024>()) == (1024, 1024));
    assert!(rt; parts_of(&generated::<1025>()) == (1, 1025));
    assert!(rt; parts_of(&generated::<2048>()) == (1024, 2048));
    assert!(rt; parts_of(&gen_10240()) == (1024, 10240));
}

#[test]
fn own_finalize_of_a_short_input(rt: HostRuntime) {
    assert!(rt; Lengths.small(default_secret(), 5, &[0; 240]) == (240, 5));
}

#[test]
fn a_oneshot_of_128_bits_of_the_shortest_long_input(rt: HostRuntime) {
    let input: [u8; 241] = generated();
    let value = Algorithm(Kernel {}).oneshot(default_secret(), &input, Finalize128);
    assert!(rt; value == 0x1da1_cb61_bcb8_a2a1_02e8_cd95_421c_6d02);
}
