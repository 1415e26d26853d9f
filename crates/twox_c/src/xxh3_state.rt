//! The state of an XXH3 stream of both widths.

ghost use Rattle.std.specs.Prelude.{◌≡◌, ◌↔◌, ◌<◌, ◌≤◌, ℕ, Option, List, [], ◌++◌, IsTrue, length};
ghost use Rattle.twox_words.specs.Word.{counted};
ghost use Rattle.twox_core.specs.Secret.{default_secret};
ghost use Rattle.twox_core.specs.SecretBytes.{secret_bytes};
ghost use Rattle.twox_core.specs.Value.{short_secret, stream_seed};
ghost use Rattle.twox_core.specs.Ending.{stream_accumulators, stream_block, last_stripe};
ghost use Rattle.twox_core.specs.AfterWrite.{core_after_write};
ghost use Rattle.twox_core.specs.Finish.{core_finish};
ghost use Rattle.twox_c.specs.State3.{Borrows, IsBorrower, IsOwner, IsUsable, IsUsableWith, WasGiven, WasGivenWith, seed_of, stream_of, stream_with};

use crate::{XXH_ERROR, XXH_OK};
use twox_core::xxhash3::{
    DEFAULT_SECRET_LENGTH, DEFAULT_SECRET_RAW, DEFAULT_SEED, DefaultSecret, Finalize, Kernel,
    SECRET_MINIMUM_LENGTH, Secret, StreamCounts,
};

/// Size of a state's buffer in bytes.
pub const BUFFER_BYTES: usize = 256;

/// Written by a reset without a secret, and by one with a seed and a secret of 192 bytes: the letters `twoxXXH3`, the
/// first in the low byte. The state has the secret. Two of the four marks differ in at least 25 bits.
pub const MARK_3: u64 = 0x3348_5858_786f_7774;

/// Written by a reset with only a secret of 192 bytes. The state has a copy of it.
pub const MARK_COPY: u64 = 0xc5a1_6e0f_93d2_4b87;

/// Written by a reset with only a secret of another length. The state has its address, and the caller has the secret.
pub const MARK_ADDRESS: u64 = 0x9b4e_d371_2ac8_f516;

/// Written by a reset with a seed and a secret of another length. The state has its address.
pub const MARK_ADDRESS_AND_SEED: u64 = 0x68d7_b5ae_c13f_0e9b;

/// `XXH3_state_t`: 576 bytes, aligned to 8. Before the first reset it may hold anything.
///
/// The seed and the address lie where `XXH3_INITSTATE` of the C library's header writes zeros.
#[repr(C)]
#[derive(Clone, Copy)]
pub struct Xxh3State {
    /// The stripes taken, and the numbers of bytes.
    pub counts: StreamCounts,
    /// The buffer. Begins with the bytes after the stripes taken.
    pub buffer: [u8; BUFFER_BYTES],
    /// The secret of a state that has its secret.
    pub secret: DefaultSecret,
    /// One of the four marks after a reset.
    pub mark: u64,
    /// The seed, if there is one.
    pub seed: u64,
    /// Length in bytes of a secret that the caller has.
    pub secret_length: usize,
    /// Address of a secret that the caller has, otherwise 0.
    pub address: usize,
}

const _: () = prove!(size_of::<Xxh3State>() == 576);

// Borrows the state's own secret.
#[inline(always)]
fn lent(secret: &DefaultSecret) -> Secret<'_>
    ensures { secret_bytes result ≡ secret.now }
{
    Secret::new(&secret[..]).unwrap()
}

impl Xxh3State {
    // True if calls without a secret can continue from the state.
    #[inline(always)]
    fn is_usable(&self) -> bool
        ensures { IsTrue result ↔ IsUsable self.now }
    {
        self.is_owner() && self.counts.is_in_range(&self.buffer, lent(&self.secret))
    }

    // True if calls with this secret can continue from the state.
    #[inline(always)]
    fn is_usable_with(&self, secret: Secret<'_>) -> bool
        ensures { IsTrue result ↔ IsUsableWith self.now (secret_bytes secret.entry) }
    {
        self.is_borrower() && self.counts.is_in_range(&self.buffer, secret)
    }

    // True if the state has its secret.
    #[inline(always)]
    fn is_owner(&self) -> bool
        ensures { IsTrue result ↔ IsOwner self.now }
    {
        self.mark == MARK_3 || self.mark == MARK_COPY
    }

    // True if the caller has the secret.
    #[inline(always)]
    fn is_borrower(&self) -> bool
        ensures { IsTrue result ↔ IsBorrower self.now }
    {
        self.mark == MARK_ADDRESS || self.mark == MARK_ADDRESS_AND_SEED
    }

    // Returns the seed, if there is one.
    #[inline(always)]
    fn seed(&self) -> Option<u64>
        ensures { result ≡ seed_of self.now }
    {
        if self.mark == MARK_COPY || self.mark == MARK_ADDRESS {
            None
        } else {
            Some(self.seed)
        }
    }

    // Stores the seed, and the mark of a state that has its secret.
    #[inline(always)]
    fn set_owner(&mut self, seed: Option<u64>)
        ensures seed { seed_of self.new ≡ seed }
        ensures mark { IsOwner self.new }
        ensures others { self.new ≡ record self.old { mark = self.new.mark; seed = self.new.seed } }
    {
        match seed {
            Some(seed) => {
                self.mark = MARK_3;
                self.seed = seed;
            }
            None => self.mark = MARK_COPY,
        }
    }

    // Stores the seed, and the mark of a state whose caller has the secret.
    #[inline(always)]
    fn set_borrower(&mut self, seed: Option<u64>)
        ensures seed { seed_of self.new ≡ seed }
        ensures mark { IsBorrower self.new }
        ensures others { self.new ≡ record self.old { mark = self.new.mark; seed = self.new.seed } }
    {
        match seed {
            Some(seed) => {
                self.mark = MARK_ADDRESS_AND_SEED;
                self.seed = seed;
            }
            None => self.mark = MARK_ADDRESS,
        }
    }

    // Resets the state to one of no bytes, with the seed and the secret, which it copies.
    #[inline(never)]
    pub(crate) fn reset(&mut self, seed: Option<u64>, secret: &DefaultSecret) -> u32
        ensures ok { result ≡ XXH_OK }
        ensures empty { WasGiven self.new seed secret.now [] }
        ensures address { self.new.address ≡ 0 }
    {
        self.counts = StreamCounts::new();
        self.set_owner(seed);
        self.address = 0;
        self.secret = *secret;
        XXH_OK
    }

    // Resets the state to one of no bytes, with the default secret and the seed 0.
    pub(crate) fn reset_default(&mut self) -> u32
        ensures ok { result ≡ XXH_OK }
        ensures empty { WasGiven self.new (Some 0) default_secret [] }
    {
        self.reset(Some(DEFAULT_SEED), &DEFAULT_SECRET_RAW)
    }

    // Resets the state to one of no bytes, with the seed and a secret of the caller, which has this address. Copies a
    // secret of 192 bytes, and refuses one of fewer than 136.
    #[inline(always)]
    fn reset_secret(&mut self, seed: Option<u64>, secret: &[u8], address: usize) -> u32
        ensures ok { 136 ≤ length secret.now → result ≡ XXH_OK }
        ensures copied { length secret.now ≡ 192 → WasGiven self.new seed secret.now [] }
        ensures borrowed { 136 ≤ length secret.now → (¬ (length secret.now ≡ 192))
            → WasGivenWith self.new seed secret.now [] × Borrows self.new address (length secret.now) }
        ensures refused { length secret.now < 136 → (result ≡ XXH_ERROR) × (self.new ≡ self.old) }
    {
        if secret.len() == DEFAULT_SECRET_LENGTH {
            return self.reset_copy(seed, secret);
        }
        if secret.len() < SECRET_MINIMUM_LENGTH {
            return XXH_ERROR;
        }
        self.reset_address(seed, secret, address)
    }

    // Resets the state to one of no bytes, with the seed and a secret of 192 bytes, which it copies.
    #[inline(always)]
    fn reset_copy(&mut self, seed: Option<u64>, secret: &[u8]) -> u32
        requires { length secret.now ≡ 192 }
        ensures ok { result ≡ XXH_OK }
        ensures empty { WasGiven self.new seed secret.now [] }
    {
        self.counts = StreamCounts::new();
        self.set_owner(seed);
        self.address = 0;
        self.secret.copy_from_slice(secret);
        XXH_OK
    }

    // Resets the state to one of no bytes, with the seed and the address of a secret.
    #[inline(always)]
    fn reset_address(&mut self, seed: Option<u64>, secret: &[u8], address: usize) -> u32
        requires { 136 ≤ length secret.now }
        ensures ok { result ≡ XXH_OK }
        ensures empty { WasGivenWith self.new seed secret.now [] }
        ensures borrowed { Borrows self.new address (length secret.now) }
    {
        self.counts = StreamCounts::new();
        self.set_borrower(seed);
        self.secret_length = secret.len();
        self.address = address;
        XXH_OK
    }

    // Hashes a chunk, unless the state has no mark of a reset after which it has its secret. A separate function, which
    // four exports share.
    #[inline(never)]
    pub(crate) fn update(&mut self, input: &[u8]) -> u32
        ensures message { (seed : Option ℕ) (s m : List ℕ)
            → WasGiven self.old seed s m → WasGiven self.new seed s (m ++ input.now) }
        ensures exact { IsUsable self.old
            → stream_of self.new ≡ core_after_write (λ x. x) (stream_of self.old) input.now }
        ensures usable { IsUsable self.old → IsUsable self.new }
        ensures ok { IsUsable self.old → result ≡ XXH_OK }
        ensures refused { (¬ IsUsable self.old) → (result ≡ XXH_ERROR) × (self.new ≡ self.old) }
    {
        if !self.is_usable() {
            return XXH_ERROR;
        }
        let secret = lent(&self.secret);
        self.counts
            .write(&mut self.buffer, Kernel {}, input, secret);
        XXH_OK
    }

    // Returns the value of the bytes taken by `finalize`, or `None` if the state has no mark of a reset after which it
    // has its secret.
    #[inline(always)]
    pub(crate) fn finish<F: Finalize>(&self, finalize: &F) -> Option<F::Output>
        ensures short { (seed : Option ℕ) (s m : List ℕ) → WasGiven self.now seed s m
            → length m ≤ 240
            → result ≡ Some (F.small_of finalize.now (short_secret seed s) (stream_seed seed) m) }
        ensures long { (seed : Option ℕ) (s m : List ℕ) → WasGiven self.now seed s m
            → 240 < length m
            → result ≡ Some (F.large_of finalize.now (stream_accumulators s m) (stream_block m)
            (last_stripe m) s (counted (length m))) }
        ensures exact { IsUsable self.now
            → result ≡ Some (core_finish (F.small_of finalize.now) (F.large_of finalize.now)
            (λ x. x) (stream_of self.now)) }
        ensures refused { (¬ IsUsable self.now) → result ≡ None }
    {
        if !self.is_usable() {
            return None;
        }
        let secret = lent(&self.secret);
        Some(
            self.counts
                .finish(&self.buffer, Kernel {}, finalize, self.seed(), secret),
        )
    }

    // Does the same over the secret, if the state has a mark of a reset after which its caller has it.
    #[inline(always)]
    pub(crate) fn finish_with<F: Finalize>(&self, secret: &[u8], finalize: &F) -> Option<F::Output>
        ensures short { (seed : Option ℕ) (m : List ℕ) → WasGivenWith self.now seed secret.now m
            → length m ≤ 240
            → result ≡ Some (F.small_of finalize.now (short_secret seed secret.now) (stream_seed seed) m) }
        ensures long { (seed : Option ℕ) (m : List ℕ) → WasGivenWith self.now seed secret.now m
            → 240 < length m
            → result ≡ Some (F.large_of finalize.now (stream_accumulators secret.now m) (stream_block m)
            (last_stripe m) secret.now (counted (length m))) }
        ensures exact { IsUsableWith self.now secret.now
            → result ≡ Some (core_finish (F.small_of finalize.now) (F.large_of finalize.now)
            (λ x. x) (stream_with self.now secret.now)) }
        ensures refused { (¬ IsUsableWith self.now secret.now) → result ≡ None }
    {
        let Ok(secret) = Secret::new(secret) else {
            return None;
        };
        if !self.is_usable_with(secret) {
            return None;
        }
        Some(
            self.counts
                .finish(&self.buffer, Kernel {}, finalize, self.seed(), secret),
        )
    }
}

/// `XXH_errorcode twox_c_reset_xxh3_secret(XXH3_state_t* state, const void* secret, size_t secretSize, size_t
/// address)`: resets the state to one of no bytes, with only the secret, whatever it held, and returns `XXH_OK`. `address` is the
/// secret as a number. Copies a secret of 192 bytes; of another one it stores the address and the length.
///
/// For a secret of fewer than 136 bytes, leaves the state as it is and returns `XXH_ERROR`.
#[unsafe(no_mangle)]
pub extern "C" fn twox_c_reset_xxh3_secret(
    state: &mut Xxh3State,
    secret: &[u8],
    address: usize,
) -> u32
    ensures ok { 136 ≤ length secret.now → result ≡ XXH_OK }
    ensures copied { length secret.now ≡ 192 → WasGiven state.new None secret.now [] }
    ensures borrowed { 136 ≤ length secret.now → (¬ (length secret.now ≡ 192))
        → WasGivenWith state.new None secret.now [] × Borrows state.new address (length secret.now) }
    ensures refused { length secret.now < 136 → (result ≡ XXH_ERROR) × (state.new ≡ state.old) }
{
    state.reset_secret(None, secret, address)
}

/// `XXH_errorcode twox_c_reset_xxh3_secret_and_seed(XXH3_state_t* state, const void* secret, size_t secretSize, size_t
/// address, XXH64_hash_t seed)`: does the same with the seed and the secret.
#[unsafe(no_mangle)]
pub extern "C" fn twox_c_reset_xxh3_secret_and_seed(
    state: &mut Xxh3State,
    secret: &[u8],
    address: usize,
    seed: u64,
) -> u32
    ensures ok { 136 ≤ length secret.now → result ≡ XXH_OK }
    ensures copied { length secret.now ≡ 192 → WasGiven state.new (Some seed) secret.now [] }
    ensures borrowed { 136 ≤ length secret.now → (¬ (length secret.now ≡ 192))
        → WasGivenWith state.new (Some seed) secret.now [] × Borrows state.new address (length secret.now) }
    ensures refused { length secret.now < 136 → (result ≡ XXH_ERROR) × (state.new ≡ state.old) }
{
    state.reset_secret(Some(seed), secret, address)
}

/// `XXH_errorcode twox_c_update_xxh3(XXH3_state_t* state, const void* input, size_t length, const void* secret, size_t
/// secretSize)`: hashes `length` bytes after those before, over the secret that the caller has, and returns `XXH_OK`.
///
/// For memory without the mark of a reset with a secret of the caller, or for a secret of fewer than 136 bytes, leaves
/// the memory as it is and returns `XXH_ERROR`.
#[unsafe(no_mangle)]
pub extern "C" fn twox_c_update_xxh3(state: &mut Xxh3State, input: &[u8], secret: &[u8]) -> u32
    ensures message { (seed : Option ℕ) (m : List ℕ) → WasGivenWith state.old seed secret.now m
        → WasGivenWith state.new seed secret.now (m ++ input.now) }
    ensures exact { let s = secret.now in
        IsUsableWith state.old s
        → stream_with state.new s ≡ core_after_write (λ x. x) (stream_with state.old s) input.now }
    ensures usable { IsUsableWith state.old secret.now → IsUsableWith state.new secret.now }
    ensures borrowed { (a n : ℕ) → Borrows state.old a n → Borrows state.new a n }
    ensures ok { IsUsableWith state.old secret.now → result ≡ XXH_OK }
    ensures refused { (¬ IsUsableWith state.old secret.now)
        → (result ≡ XXH_ERROR) × (state.new ≡ state.old) }
{
    let Ok(secret) = Secret::new(secret) else {
        return XXH_ERROR;
    };
    if !state.is_usable_with(secret) {
        return XXH_ERROR;
    }
    state
        .counts
        .write(&mut state.buffer, Kernel {}, input, secret);
    XXH_OK
}

/// `void twox_c_forget_xxh3(XXH3_state_t* state)`: removes the mark of a reset from the state, so that no call
/// continues from its memory before the next reset. `XXH3_freeState` calls it before it frees the memory.
#[unsafe(no_mangle)]
pub extern "C" fn twox_c_forget_xxh3(state: &mut Xxh3State)
    ensures own { ¬ IsUsable state.new }
    ensures with_secret { (s : List ℕ) → ¬ IsUsableWith state.new s }
    ensures borrowed { ¬ IsBorrower state.new }
{
    state.mark = 0;
}

/// `void XXH3_copyState(XXH3_state_t* dst, const XXH3_state_t* src)`: copies `src` to `dst`.
#[unsafe(no_mangle)]
pub extern "C" fn XXH3_copyState(dst: &mut Xxh3State, src: &Xxh3State)
    ensures { dst.new ≡ src.now }
{
    *dst = *src;
}
