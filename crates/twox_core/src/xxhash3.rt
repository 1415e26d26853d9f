//! XXH3: code shared by both widths. Each module uses those before it: constants (`primes`), mixing steps (`mixing`),
//! parts of an input (`parts`), secrets (`secret`, `derivation`), the trait of kernels (`vector`), accumulators and
//! their place in the secret (`stripes`), long inputs and kernels (`large`), and streams (`streaming`).

mod derivation;
pub mod large;
mod mixing;
pub(crate) mod parts;
pub mod primes;
pub mod secret;
pub mod streaming;
mod stripes;
mod vector;

pub use derivation::{
    DEFAULT_SECRET_LENGTH, DEFAULT_SECRET_RAW, DefaultSecret, default_secret, derive_secret,
    derived_secret,
};
pub use large::{Algorithm, Finalize, Kernel};
pub(crate) use large::{AnyLength, DefaultLength, Derived, is_widened, oneshot_widened};
pub use mixing::{
    avalanche, avalanche_xxh64, fold, full_product, impl_1_to_3_bytes_combined, mix_step,
    mix_words, to_u64s,
};
pub(crate) use parts::expect_middle;
pub use parts::{chunks_17_to_128, pairs_of_u64_bytes, stripes_with_tail};
pub use secret::{OneshotWithSecretError, SECRET_MINIMUM_LENGTH, Secret};
pub use streaming::{
    AllocRawHasher, BUFFERED_BYTES, ClonedBuffer, ClonedKey, CoreState, FixedBuffer,
    FixedMutBuffer, Key, KeyedCore, LazyKey, RawHasherCore, SecretBuffer, SecretTooShortError,
    SecretWithSeedError, StreamCounts, TakenStripes,
};
pub(crate) use stripes::MANY_BYTES;
pub use stripes::StripeAccumulator;
pub use vector::{INITIAL_ACCUMULATORS, Vector};

/// The maximum length that is hashed with the default secret and no stripes.
pub const CUTOFF: usize = 240;

/// The seed of a call without one.
pub const DEFAULT_SEED: u64 = 0;
