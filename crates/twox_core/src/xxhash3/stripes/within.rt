//! Stripes of one block: a scramble comes only after the block's last stripe, so the loop has no test for one, and its
//! accumulators stay in registers.

ghost use Rattle.std.specs.Prelude.{◌≡◌, ◌+◌, ◌*◌, ◌/◌, ◌<◌, ◌≤◌, drop, length};
ghost use Rattle.twox_core.specs.Ending.{accumulate_block};
ghost use Rattle.twox_core.specs.Long.{stripes_of};
ghost use Rattle.twox_core.specs.SecretBytes.{secret_bytes};
ghost use Rattle.twox_core.specs.Stripes.{AfterStripes, current_stripe_of};

use super::{STRIPES_IN_BLOCK, StripeAccumulator};
use crate::xxhash3::{Secret, Vector};
use twox_words::words::bp_as_chunks;

/// Returns the accumulators after the first `count` stripes of `bytes`, from a place in the secret on and with no
/// scramble.
#[inline(always)]
pub(in crate::xxhash3) fn accumulate_within<V: Vector>(
    acc: [u64; 8],
    v: V,
    bytes: &[u8],
    count: usize,
    place: usize,
    secret: Secret<'_>,
) -> [u64; 8]
    requires there { 64 * count ≤ length bytes.now }
    requires places { place + count ≤ stripes_of (secret_bytes secret) }
    ensures { result
        ≡ accumulate_block (drop (8 * place) (secret_bytes secret.entry)) acc bytes.now count }
{
    let (stripes, _) = bp_as_chunks(bytes);
    let mut taken = acc;
    'stripes: for i in 0..count {
        v.accumulate(&mut taken, &stripes[i], secret.stripe(place + i));
    }
    taken
}

// Returns the accumulators after all stripes of `bytes`, of which only the last may end the block, under a secret of
// 192 bytes.
#[inline(always)]
pub(super) fn process_within<V: Vector>(
    from: StripeAccumulator,
    v: V,
    bytes: &[u8],
    secret: Secret<'_>,
) -> StripeAccumulator
    requires all { stripes_of (secret_bytes secret) ≡ 16 }
    requires place { current_stripe_of from < 16 }
    requires fits { current_stripe_of from + length bytes.now / 64 ≤ 16 }
    ensures { AfterStripes (secret_bytes secret.entry) from bytes.now result }
{
    let count = bytes.len() / 64;
    let place = from.current_stripe + count;
    let mut taken = accumulate_within(
        from.accumulator,
        v,
        bytes,
        count,
        from.current_stripe,
        secret,
    );
    if place < STRIPES_IN_BLOCK {
        return StripeAccumulator {
            accumulator: taken,
            current_stripe: place,
        };
    }
    v.round_scramble(&mut taken, secret.last_stripe());
    StripeAccumulator::starting_with(taken)
}
