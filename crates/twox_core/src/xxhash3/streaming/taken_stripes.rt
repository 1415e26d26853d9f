//! The stripes that a stream has taken.

ghost use Rattle.std.specs.Prelude.{◌≡◌, ◌/◌, ◌<◌, length};
ghost use Rattle.twox_core.specs.Long.{stripes_of};
ghost use Rattle.twox_core.specs.SecretBytes.{secret_bytes};

use crate::xxhash3::{Secret, StripeAccumulator, Vector};
use twox_words::words::IntoU64;

/// The stripes that a stream has taken, as their effect.
#[repr(C)]
#[derive(Clone, Copy)]
pub struct TakenStripes {
    /// The accumulators, and their place in the secret.
    pub stripes: StripeAccumulator,
    /// Their number, saturating at 2^64 - 1.
    pub count: u64,
}

impl TakenStripes {
    ghost use Rattle.twox_core.specs.AfterWrite.{after_taking, none_taken};

    #[inline(always)]
    pub(crate) fn new() -> TakenStripes
        ensures { result ≡ none_taken }
    {
        TakenStripes {
            stripes: StripeAccumulator::new(),
            count: 0,
        }
    }

    // Takes the whole stripes of `bytes`. `MANY` if there are so many that a separate call pays.
    #[inline(always)]
    pub(crate) fn process<V: Vector, const MANY: bool>(
        &mut self,
        v: V,
        bytes: &[u8],
        secret: Secret<'_>,
    )
        requires { self.old.stripes.current_stripe < stripes_of (secret_bytes secret) }
        ensures exact { let s = secret_bytes secret.entry in
            self.new ≡ after_taking s self.old bytes.now (length bytes.now / 64) }
        ensures place { self.new.stripes.current_stripe < stripes_of (secret_bytes secret.entry) }
    {
        self.stripes.process_piece::<V, MANY>(v, bytes, secret);
        let count = bytes.len() / 64;
        self.count = self.count.saturating_add(count.into_u64());
    }
}
