//! XXH64.

ghost use Rattle.std.specs.Prelude.{◌≡◌, ◌↔◌, ℕ, List, [], ◌++◌, IsTrue};
ghost use Rattle.std.specs.Int.{w64, to_be_bytes, from_be_bytes};
ghost use Rattle.twox_plain.specs.Record64.{after_write, finish_value};
ghost use Rattle.twox_plain.specs.Xxh64.{xxh64};
ghost use Rattle.twox_c.specs.State64.{IsUsable, WasGiven, record_of_state};

use crate::{XXH_ERROR, XXH_OK};
use twox_plain::xxhash64::{Hasher, StateInMemory};

/// `XXH64_state_t`: 88 bytes, aligned to 8, as in the C library. Before the first reset it may hold anything.
#[repr(C)]
#[derive(Clone, Copy)]
pub struct Xxh64State {
    /// The hasher's record, and the mark of a reset.
    pub hasher: StateInMemory,
}

const _: () = prove!(size_of::<Xxh64State>() == 88);

impl Xxh64State {
    // Returns a state that was reset with the seed.
    #[inline(always)]
    fn with_seed(seed: u64) -> Xxh64State
        ensures { WasGiven result seed [] }
    {
        Xxh64State {
            hasher: StateInMemory::of_record(Hasher::with_seed(seed).to_state()),
        }
    }

    // True if calls can continue from the state.
    #[inline(always)]
    fn is_usable(&self) -> bool
        ensures { IsTrue result ↔ IsUsable self.now }
    {
        self.hasher.usage() < 32
    }

    // Hashes a chunk, unless the state has no mark of a reset. A separate function, because the export, which only
    // tests the pointer for null, then saves fewer registers.
    #[inline(never)]
    fn update(&mut self, input: &[u8]) -> u32
        ensures message { (seed : ℕ) (m : List ℕ)
            → WasGiven self.old seed m → WasGiven self.new seed (m ++ input.now) }
        ensures exact { IsUsable self.old
            → record_of_state self.new ≡ after_write (record_of_state self.old) input.now }
        ensures usable { IsUsable self.old → IsUsable self.new }
        ensures ok { IsUsable self.old → result ≡ XXH_OK }
        ensures refused { (¬ IsUsable self.old) → (result ≡ XXH_ERROR) × (self.new ≡ self.old) }
    {
        if !self.is_usable() {
            return XXH_ERROR;
        }
        self.hasher.add_piece(input);
        XXH_OK
    }
}

/// `XXH64_hash_t XXH64(const void* input, size_t length, XXH64_hash_t seed)`: returns the hash of `length` bytes.
/// `input` may be null if `length` is 0.
#[unsafe(no_mangle)]
pub extern "C" fn XXH64(input: &[u8], seed: u64) -> u64
    ensures { result ≡ xxh64 seed input.now }
{
    Hasher::oneshot(seed, input)
}

/// `XXH_errorcode XXH64_reset(XXH64_state_t* state, XXH64_hash_t seed)`: resets the state to one of no bytes, whatever
/// it held, and returns `XXH_OK`.
#[unsafe(no_mangle)]
pub extern "C" fn XXH64_reset(state: &mut Xxh64State, seed: u64) -> u32
    ensures ok { result ≡ XXH_OK }
    ensures empty { WasGiven state.new seed [] }
{
    *state = Xxh64State::with_seed(seed);
    XXH_OK
}

/// `XXH_errorcode XXH64_update(XXH64_state_t* state, const void* input, size_t length)`: hashes `length` bytes after
/// those before. `input` may be null if `length` is 0.
///
/// Returns `XXH_OK`. For memory without the mark of a reset, changes nothing and returns `XXH_ERROR`.
#[unsafe(no_mangle)]
pub extern "C" fn XXH64_update(state: &mut Xxh64State, input: &[u8]) -> u32
    ensures message { (seed : ℕ) (m : List ℕ)
        → WasGiven state.old seed m → WasGiven state.new seed (m ++ input.now) }
    ensures exact { IsUsable state.old
        → record_of_state state.new ≡ after_write (record_of_state state.old) input.now }
    ensures usable { IsUsable state.old → IsUsable state.new }
    ensures ok { IsUsable state.old → result ≡ XXH_OK }
    ensures refused { (¬ IsUsable state.old) → (result ≡ XXH_ERROR) × (state.new ≡ state.old) }
{
    state.update(input)
}

/// `XXH64_hash_t XXH64_digest(const XXH64_state_t* state)`: returns the hash of the bytes so far, and doesn't change
/// the state. Returns 0 for memory without the mark of a reset.
#[unsafe(no_mangle)]
pub extern "C" fn XXH64_digest(state: &Xxh64State) -> u64
    ensures message { (seed : ℕ) (m : List ℕ) → WasGiven state.now seed m → result ≡ xxh64 seed m }
    ensures exact { IsUsable state.now → result ≡ finish_value (record_of_state state.now) }
    ensures refused { (¬ IsUsable state.now) → result ≡ 0 }
{
    if !state.is_usable() {
        return 0;
    }
    state.hasher.finish()
}

/// `void twox_c_forget_xxh64(XXH64_state_t* state)`: removes the mark of a reset from the state, so that no call
/// continues from its memory before the next reset. `XXH64_freeState` calls it before it frees the memory.
#[unsafe(no_mangle)]
pub extern "C" fn twox_c_forget_xxh64(state: &mut Xxh64State)
    ensures { ¬ IsUsable state.new }
{
    state.hasher.marked_usage = 0;
}

/// `void XXH64_copyState(XXH64_state_t* dst, const XXH64_state_t* src)`: copies `src` to `dst`.
#[unsafe(no_mangle)]
pub extern "C" fn XXH64_copyState(dst: &mut Xxh64State, src: &Xxh64State)
    ensures { dst.new ≡ src.now }
{
    *dst = *src;
}

/// `void XXH64_canonicalFromHash(XXH64_canonical_t* dst, XXH64_hash_t hash)`: writes the eight bytes of the hash, the
/// highest first.
#[unsafe(no_mangle)]
pub extern "C" fn XXH64_canonicalFromHash(dst: &mut [u8; 8], hash: u64)
    ensures { dst.new ≡ to_be_bytes w64 hash }
{
    *dst = hash.to_be_bytes();
}

/// `XXH64_hash_t XXH64_hashFromCanonical(const XXH64_canonical_t* src)`: returns the hash of these eight bytes, the
/// highest first.
#[unsafe(no_mangle)]
pub extern "C" fn XXH64_hashFromCanonical(src: &[u8; 8]) -> u64
    ensures { result ≡ from_be_bytes w64 src.now }
{
    u64::from_be_bytes(*src)
}
