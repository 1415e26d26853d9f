//! XXH3 128-bit in the digest engine.

ghost use Rattle.std.specs.Prelude.{[]};
ghost use Rattle.xxh_program.specs.Kind.{seeded_128};
ghost use Rattle.xxh_program.specs.Streams.{AnySeed, FollowsDerived};

use crate::program::derived_secret::derived_secret_of;
use crate::program::feed::Feed;
use twox_hash::xxhash3::DefaultSecret;
use twox_hash::xxhash3_128::RawHasher;

impl Feed for RawHasher<DefaultSecret> {
    ghost follows = { FollowsDerived };

    ghost has_seed = { AnySeed };

    ghost value_at = { seeded_128 };

    fn feed(&mut self, piece: &[u8]) {
        self.write(piece);
    }

    fn value(&self) -> u128 {
        self.finish_128()
    }
}

// Returns the stream of no bytes.
pub(crate) fn with_seed_128(seed: u64) -> RawHasher<DefaultSecret>
    ensures { FollowsDerived result seed [] }
{
    RawHasher::new(derived_secret_of(seed))
}
