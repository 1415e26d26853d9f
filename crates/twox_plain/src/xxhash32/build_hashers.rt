//! Build hashers for maps, over XXH32.

ghost use Rattle.std.specs.Prelude.{◌≡◌, ℕ};

use super::Hasher;
use rand_core::Rng;
use std::hash::BuildHasher;
use std::marker::Model;

/// Builds hashers of one seed, for example for the keys of a map.
///
/// ```
/// let mut map = HashMap::with_hasher(alloc, xxhash32::State::with_seed(0xdead_cafe));
/// ```
///
/// In contracts a state is its seed.
#[derive(Clone, Copy, Debug)]
pub struct State(u32);

impl Model for State {
    ghost Value = { ℕ };

    ghost view = { λ s. s.0 };

    ghost inverse = { λ seed. record { 0 = seed } };
}

impl State {
    /// Creates the state whose hashers have this seed.
    pub fn with_seed(seed: u32) -> State
        ensures { result ≡ seed }
    {
        State(seed)
    }
}

impl BuildHasher for State {
    type Hasher = Hasher;

    ghost use Rattle.twox_plain.specs.Record32.{initial_record};

    ghost build_hasher = { initial_record };

    fn build_hasher(&self) -> Hasher {
        Hasher::with_seed(self.0)
    }
}

/// Builds hashers of one seed from a random number generator.
///
/// In contracts it is its seed.
#[derive(Clone, Copy, Debug)]
pub struct RandomState(State);

impl Model for RandomState {
    ghost Value = { ℕ };

    ghost view = { λ s. s.0 };

    ghost inverse = { λ seed. record { 0 = seed } };
}

impl RandomState {
    ghost use Rattle.rand_core.specs.Stream.{next_u32};

    /// Creates the state whose seed is the generator's next `u32`. Takes nothing else from the generator.
    pub fn from_rng<R: Rng>(rng: &mut R) -> RandomState
        ensures { (result, R.stream rng.new) ≡ next_u32 (R.stream rng.old) }
    {
        RandomState(State::with_seed(rng.next_u32()))
    }
}

impl BuildHasher for RandomState {
    type Hasher = Hasher;

    ghost use Rattle.twox_plain.specs.Record32.{initial_record};

    ghost build_hasher = { initial_record };

    fn build_hasher(&self) -> Hasher {
        self.0.build_hasher()
    }
}
