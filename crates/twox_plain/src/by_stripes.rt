//! XXH32 by stripes only, for a target without vectors (this toolchain's WebAssembly), where the products of a block
//! cost more than they save. Exists only for speed; `twox_hash` doesn't re-export it.

ghost use Rattle.std.specs.Prelude.{◌≡◌, ◌++◌, ℕ, List};
ghost use Rattle.twox_plain.specs.Record32.{Represents, after_write};
ghost use Rattle.twox_plain.specs.Xxh32.{xxh32};

use crate::xxhash32::Hasher;

/// Returns the hash that `Hasher::oneshot` returns.
pub fn oneshot(seed: u32, input: &[u8]) -> u32
    ensures { result ≡ xxh32 seed input.now }
{
    Hasher::oneshot_by_stripes(seed, input)
}

/// Hashes a chunk as `Hasher::write` does.
pub fn write(hasher: &mut Hasher, input: &[u8])
    ensures message { (m : List ℕ)
        → Represents hasher.old m → Represents hasher.new (m ++ input.now) }
    ensures seed { hasher.new.seed ≡ hasher.old.seed }
    ensures exact { hasher.new ≡ after_write hasher.old input.now }
{
    hasher.write_by_stripes(input);
}
