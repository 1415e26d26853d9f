//! Four stripes at a time under a secret of 192 bytes, the length of the default secret and of all derived ones: a
//! block then has 16 stripes, so that it can end only at every fourth one.

ghost use Rattle.std.specs.Prelude.{◌≡◌, ◌+◌, ◌*◌, ◌/◌, ◌%◌, ◌<◌, ◌≤◌, length};
ghost use Rattle.twox_core.specs.Long.{stripes_of};
ghost use Rattle.twox_core.specs.SecretBytes.{secret_bytes};
ghost use Rattle.twox_core.specs.Stripes.{AfterStripes, current_stripe_of, after_stripes};

use super::{STRIPES_IN_BLOCK, StripeAccumulator};
use crate::xxhash3::{Secret, Vector};
use twox_words::words::bp_as_chunks;

impl StripeAccumulator {
    // Takes the whole stripes of `bytes`: first those before a place that is a multiple of four, and last those that
    // are fewer than four.
    #[inline(always)]
    pub(super) fn process_by_fours<V: Vector>(&mut self, v: V, bytes: &[u8], secret: Secret<'_>)
        requires all { stripes_of (secret_bytes secret) ≡ 16 }
        requires place { current_stripe_of self.old < 16 }
        requires some { 256 ≤ length bytes.now }
        ensures { AfterStripes (secret_bytes secret.entry) self.old bytes.now self.new }
    {
        let (front, rest) = bytes.split_at(64 * ((STRIPES_IN_BLOCK - self.current_stripe) % 4));
        let (fours, rest) = rest.split_at(rest.len() / 256 * 256);
        let mut taken = *self;
        taken.process_stripes(v, front, secret);
        taken.process_fours(v, fours, secret);
        taken.process_stripes(v, rest, secret);
        *self = taken;
    }

    // Takes each four stripes of `bytes`, from a place that is a multiple of four.
    #[inline(always)]
    fn process_fours<V: Vector>(&mut self, v: V, bytes: &[u8], secret: Secret<'_>)
        requires all { stripes_of (secret_bytes secret) ≡ 16 }
        requires place { current_stripe_of self.old < 16 }
        requires fourth { current_stripe_of self.old % 4 ≡ 0 }
        ensures exact { self.new
            ≡ after_stripes (secret_bytes secret.entry) self.old bytes.now (4 * (length bytes.now / 256)) }
        ensures place { current_stripe_of self.new < 16 }
    {
        let (fours, _) = bp_as_chunks(bytes);
        let mut taken = *self;
        'fours: for four in fours {
            taken.process_four(v, four, secret);
        }
        *self = taken;
    }

    // Takes four stripes, of which only the last can end the block.
    #[inline(always)]
    fn process_four<V: Vector>(&mut self, v: V, stripes: &[u8; 256], secret: Secret<'_>)
        requires all { stripes_of (secret_bytes secret) ≡ 16 }
        requires place { current_stripe_of self.old + 4 ≤ 16 }
        ensures exact { self.new
            ≡ after_stripes (secret_bytes secret.entry) self.old stripes.now 4 }
        ensures place { current_stripe_of self.new ≡ (current_stripe_of self.old + 4) % 16 }
    {
        v.accumulate_four_stripes(
            &mut self.accumulator,
            stripes,
            secret.four_stripes(self.current_stripe),
        );
        self.current_stripe += 4;
        if self.current_stripe == STRIPES_IN_BLOCK {
            v.round_scramble(&mut self.accumulator, secret.last_stripe());
            self.current_stripe = 0;
        }
    }
}
