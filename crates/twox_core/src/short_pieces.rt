//! Chunks of a few bytes, for exports. Exists only for speed; `twox_hash` doesn't re-export it.

ghost use Rattle.std.specs.Prelude.{◌≡◌, ◌+◌, ◌≤◌, ℕ, List, length};
ghost use Rattle.twox_core.specs.AfterWrite.{state_after_write};

use crate::xxhash3::CoreState;

/// Buffers a chunk of a few bytes for which the buffer has space, without a call and for any secret.
#[inline(always)]
pub fn keep_few(core: &mut CoreState, input: &[u8])
    requires room { core.old.counts.buffer_usage + length input.now ≤ 512 }
    requires few { length input.now ≤ 64 }
    ensures { (s : List ℕ) → core.new ≡ state_after_write s core.old input.now }
{
    core.keep_few(input);
}
