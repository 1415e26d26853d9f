//! XXH32.

ghost use Rattle.std.specs.Prelude.{◌≡◌, ◌↔◌, ℕ, List, [], ◌++◌, IsTrue};
ghost use Rattle.std.specs.Int.{w32, to_be_bytes, from_be_bytes};
ghost use Rattle.twox_plain.specs.Record32.{after_write, finish_value};
ghost use Rattle.twox_plain.specs.Xxh32.{xxh32};
ghost use Rattle.twox_c.specs.State32.{IsUsable, WasGiven, record_of_state};

use crate::{XXH_ERROR, XXH_OK};
use twox_plain::xxhash32::{Hasher, StateInMemory};

/// `XXH32_state_t`: 48 bytes, aligned to 4, as in the C library. Before the first reset it may hold anything.
#[repr(C)]
#[derive(Clone, Copy)]
pub struct Xxh32State {
    /// The hasher's record, and the mark of a reset.
    pub hasher: StateInMemory,
}

const _: () = prove!(size_of::<Xxh32State>() == 48);

impl Xxh32State {
    // Returns a state that was reset with the seed.
    #[inline(always)]
    fn with_seed(seed: u32) -> Xxh32State
        ensures { WasGiven result seed [] }
    {
        Xxh32State {
            hasher: StateInMemory::of_record(Hasher::with_seed(seed).to_state()),
        }
    }

    // True if calls can continue from the state.
    #[inline(always)]
    fn is_usable(&self) -> bool
        ensures { IsTrue result ↔ IsUsable self.now }
    {
        self.hasher.usage() < 16
    }

    // Hashes a chunk, unless the state has no mark of a reset. A separate function, because the export, which only
    // tests the pointer for null, then saves fewer registers.
    #[inline(never)]
    fn update(&mut self, input: &[u8]) -> u32
        ensures message { (seed : ℕ) (m : List ℕ)
            → WasGiven self.old seed m → WasGiven self.new seed (m ++ input.now) }
        ensures exact { IsUsable self.old
            → record_of_state self.new ≡ after_write (record_of_state self.old) input.now }
        ensures usable { IsUsable self.old → IsUsable self.new }
        ensures ok { IsUsable self.old → result ≡ XXH_OK }
        ensures refused { (¬ IsUsable self.old) → (result ≡ XXH_ERROR) × (self.new ≡ self.old) }
    {
        if !self.is_usable() {
            return XXH_ERROR;
        }
        self.hasher.add_piece(input);
        XXH_OK
    }
}

/// `XXH32_hash_t XXH32(const void* input, size_t length, XXH32_hash_t seed)`: returns the hash of `length` bytes.
/// `input` may be null if `length` is 0.
#[unsafe(no_mangle)]
pub extern "C" fn XXH32(input: &[u8], seed: u32) -> u32
    ensures { result ≡ xxh32 seed input.now }
{
    Hasher::oneshot(seed, input)
}

/// `XXH_errorcode XXH32_reset(XXH32_state_t* state, XXH32_hash_t seed)`: resets the state to one of no bytes, whatever
/// it held, and returns `XXH_OK`.
#[unsafe(no_mangle)]
pub extern "C" fn XXH32_reset(state: &mut Xxh32State, seed: u32) -> u32
    ensures ok { result ≡ XXH_OK }
    ensures empty { WasGiven state.new seed [] }
{
    *state = Xxh32State::with_seed(seed);
    XXH_OK
}

/// `XXH_errorcode XXH32_update(XXH32_state_t* state, const void* input, size_t length)`: hashes `length` bytes after
/// those before. `input` may be null if `length` is 0.
///
/// Returns `XXH_OK`. For memory without the mark of a reset, changes nothing and returns `XXH_ERROR`.
#[unsafe(no_mangle)]
pub extern "C" fn XXH32_update(state: &mut Xxh32State, input: &[u8]) -> u32
    ensures message { (seed : ℕ) (m : List ℕ)
        → WasGiven state.old seed m → WasGiven state.new seed (m ++ input.now) }
    ensures exact { IsUsable state.old
        → record_of_state state.new ≡ after_write (record_of_state state.old) input.now }
    ensures usable { IsUsable state.old → IsUsable state.new }
    ensures ok { IsUsable state.old → result ≡ XXH_OK }
    ensures refused { (¬ IsUsable state.old) → (result ≡ XXH_ERROR) × (state.new ≡ state.old) }
{
    state.update(input)
}

/// `XXH32_hash_t XXH32_digest(const XXH32_state_t* state)`: returns the hash of the bytes so far, and doesn't change
/// the state. Returns 0 for memory without the mark of a reset.
#[unsafe(no_mangle)]
pub extern "C" fn XXH32_digest(state: &Xxh32State) -> u32
    ensures message { (seed : ℕ) (m : List ℕ) → WasGiven state.now seed m → result ≡ xxh32 seed m }
    ensures exact { IsUsable state.now → result ≡ finish_value (record_of_state state.now) }
    ensures refused { (¬ IsUsable state.now) → result ≡ 0 }
{
    if !state.is_usable() {
        return 0;
    }
    state.hasher.finish()
}

/// `void twox_c_forget_xxh32(XXH32_state_t* state)`: removes the mark of a reset from the state, so that no call
/// continues from its memory before the next reset. `XXH32_freeState` calls it before it frees the memory.
#[unsafe(no_mangle)]
pub extern "C" fn twox_c_forget_xxh32(state: &mut Xxh32State)
    ensures { ¬ IsUsable state.new }
{
    state.hasher.marked_usage = 0;
}

/// `void XXH32_copyState(XXH32_state_t* dst, const XXH32_state_t* src)`: copies `src` to `dst`.
#[unsafe(no_mangle)]
pub extern "C" fn XXH32_copyState(dst: &mut Xxh32State, src: &Xxh32State)
    ensures { dst.new ≡ src.now }
{
    *dst = *src;
}

/// `void XXH32_canonicalFromHash(XXH32_canonical_t* dst, XXH32_hash_t hash)`: writes the four bytes of the hash, the
/// highest first.
#[unsafe(no_mangle)]
pub extern "C" fn XXH32_canonicalFromHash(dst: &mut [u8; 4], hash: u32)
    ensures { dst.new ≡ to_be_bytes w32 hash }
{
    *dst = hash.to_be_bytes();
}

/// `XXH32_hash_t XXH32_hashFromCanonical(const XXH32_canonical_t* src)`: returns the hash of these four bytes, the
/// highest first.
#[unsafe(no_mangle)]
pub extern "C" fn XXH32_hashFromCanonical(src: &[u8; 4]) -> u32
    ensures { result ≡ from_be_bytes w32 src.now }
{
    u32::from_be_bytes(*src)
}
