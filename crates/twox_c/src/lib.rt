//! XXH32, XXH64 and XXH3 under the names of the C library `libxxhash` 0.8.1, as a static library.
//!
//! Has every name that the shared library of Debian's `libxxhash0` exports, except the six that allocate and free
//! states and the four that reset one with a secret. Each export's documentation begins with its declaration in C. A
//! pointer and a length in C are one parameter here, a slice; a null pointer is an empty slice.
//!
//! No contract requires anything of a caller: what can be tested is tested. Memory without the mark of a reset, and a
//! secret of a length that doesn't fit, are refused. A call with an error code then returns `XXH_ERROR` and changes
//! nothing, and a call that returns a hash returns 0. Pointers to states must point to states, and be aligned.
//!
//! Each call does what the header `xxhash.h` of that release documents, with these differences:
//!
//! - A state of XXH3 copies a secret of 192 bytes. Of another one, of any length from 136 bytes on, it stores the
//!   address, as the C library does of each, so the caller has to keep it.
//! - A state whose secret was refused stays as it was. In the C library `_reset_withSecret` resets it anyway.
//! - After `XXH3_128bits_reset_withSecretandSeed` with the seed 0, up to 240 bytes are hashed with the default
//!   secret, as `XXH3_128bits_withSecretandSeed` does. The C library's stream uses the caller's secret there.
//! - A one-shot with a secret of fewer than 136 bytes returns 0, and so does the digest of memory without the mark of
//!   a reset. The header leaves these undefined.
//! - A null pointer to a state is not detected, nor one to a secret or to bytes with a length above 0. For these in a
//!   reset of XXH3 and in `XXH3_generateSecret` the C library returns `XXH_ERROR`, and so does `c/guards.c`, which
//!   wraps these exports. The C library ignores a null input of an update.
//!
//! # Types
//!
//! | C type | here | size | alignment |
//! |---|---|---|---|
//! | `XXH32_state_t` | `Xxh32State` | 48 | 4 |
//! | `XXH64_state_t` | `Xxh64State` | 88 | 8 |
//! | `XXH3_state_t` | `Xxh3State` | 576 | 8 |
//! | `XXH128_hash_t` | `Xxh128Hash` | 16 | 8 |
//! | `XXH32_canonical_t`, `XXH64_canonical_t`, `XXH128_canonical_t` | arrays of bytes | 4, 8, 16 | 1 |
//! | `XXH_errorcode` | `u32` | 4 | 4 |
//! | `XXH32_hash_t`, `XXH64_hash_t` | `u32`, `u64` | 4, 8 | 4, 8 |
//!
//! # The exports
//!
//! ```c
//! unsigned XXH_versionNumber(void);
//!
//! XXH32_hash_t XXH32(const void* input, size_t length, XXH32_hash_t seed);
//! XXH_errorcode XXH32_reset(XXH32_state_t* state, XXH32_hash_t seed);
//! XXH_errorcode XXH32_update(XXH32_state_t* state, const void* input, size_t length);
//! XXH32_hash_t XXH32_digest(const XXH32_state_t* state);
//! void XXH32_copyState(XXH32_state_t* dst, const XXH32_state_t* src);
//! void XXH32_canonicalFromHash(XXH32_canonical_t* dst, XXH32_hash_t hash);
//! XXH32_hash_t XXH32_hashFromCanonical(const XXH32_canonical_t* src);
//!
//! XXH64_hash_t XXH64(const void* input, size_t length, XXH64_hash_t seed);
//! XXH_errorcode XXH64_reset(XXH64_state_t* state, XXH64_hash_t seed);
//! XXH_errorcode XXH64_update(XXH64_state_t* state, const void* input, size_t length);
//! XXH64_hash_t XXH64_digest(const XXH64_state_t* state);
//! void XXH64_copyState(XXH64_state_t* dst, const XXH64_state_t* src);
//! void XXH64_canonicalFromHash(XXH64_canonical_t* dst, XXH64_hash_t hash);
//! XXH64_hash_t XXH64_hashFromCanonical(const XXH64_canonical_t* src);
//!
//! XXH64_hash_t XXH3_64bits(const void* input, size_t length);
//! XXH64_hash_t XXH3_64bits_withSeed(const void* input, size_t length, XXH64_hash_t seed);
//! XXH64_hash_t XXH3_64bits_withSecret(const void* input, size_t length, const void* secret, size_t secretSize);
//! XXH64_hash_t XXH3_64bits_withSecretandSeed(const void* input, size_t length, const void* secret, size_t secretSize,
//!                                            XXH64_hash_t seed);
//! XXH_errorcode XXH3_64bits_reset(XXH3_state_t* state);
//! XXH_errorcode XXH3_64bits_reset_withSeed(XXH3_state_t* state, XXH64_hash_t seed);
//! XXH_errorcode XXH3_64bits_update(XXH3_state_t* state, const void* input, size_t length);
//! XXH64_hash_t XXH3_64bits_digest(const XXH3_state_t* state);
//! void XXH3_copyState(XXH3_state_t* dst, const XXH3_state_t* src);
//!
//! XXH128_hash_t XXH128(const void* input, size_t length, XXH64_hash_t seed);
//! XXH128_hash_t XXH3_128bits(const void* input, size_t length);
//! XXH128_hash_t XXH3_128bits_withSeed(const void* input, size_t length, XXH64_hash_t seed);
//! XXH128_hash_t XXH3_128bits_withSecret(const void* input, size_t length, const void* secret, size_t secretSize);
//! XXH128_hash_t XXH3_128bits_withSecretandSeed(const void* input, size_t length, const void* secret,
//!                                              size_t secretSize, XXH64_hash_t seed);
//! XXH_errorcode XXH3_128bits_reset(XXH3_state_t* state);
//! XXH_errorcode XXH3_128bits_reset_withSeed(XXH3_state_t* state, XXH64_hash_t seed);
//! XXH_errorcode XXH3_128bits_update(XXH3_state_t* state, const void* input, size_t length);
//! XXH128_hash_t XXH3_128bits_digest(const XXH3_state_t* state);
//! int XXH128_isEqual(XXH128_hash_t h1, XXH128_hash_t h2);
//! int XXH128_cmp(const void* h1, const void* h2);
//! void XXH128_canonicalFromHash(XXH128_canonical_t* dst, XXH128_hash_t hash);
//! XXH128_hash_t XXH128_hashFromCanonical(const XXH128_canonical_t* src);
//!
//! XXH_errorcode XXH3_generateSecret(void* secretBuffer, size_t secretSize, const void* customSeed,
//!                                   size_t customSeedSize);
//! void XXH3_generateSecret_fromSeed(void* secretBuffer, XXH64_hash_t seed);
//! ```
//!
//! Only for `c/states.c`, which frees states; the shared library doesn't export these:
//!
//! ```c
//! void twox_c_forget_xxh32(XXH32_state_t* state);
//! void twox_c_forget_xxh64(XXH64_state_t* state);
//! void twox_c_forget_xxh3(XXH3_state_t* state);
//! ```
//!
//! Only for `c/guards.c` and `c/streams.c`, which pass the secret of a caller; the shared library doesn't export these:
//!
//! ```c
//! XXH_errorcode twox_c_reset_xxh3_secret(XXH3_state_t* state, const void* secret, size_t secretSize, size_t address);
//! XXH_errorcode twox_c_reset_xxh3_secret_and_seed(XXH3_state_t* state, const void* secret, size_t secretSize,
//!                                                 size_t address, XXH64_hash_t seed);
//! XXH_errorcode twox_c_update_xxh3(XXH3_state_t* state, const void* input, size_t length, const void* secret,
//!                                  size_t secretSize);
//! XXH64_hash_t twox_c_digest_64(const XXH3_state_t* state, const void* secret, size_t secretSize);
//! XXH128_hash_t twox_c_digest_128(const XXH3_state_t* state, const void* secret, size_t secretSize);
//! ```
//!
//! With `_dispatch` after the name, and the same declaration: `XXH3_64bits`, `XXH3_64bits_withSeed`,
//! `XXH3_64bits_withSecret`, `XXH3_64bits_update`, and the four of 128 bits.
#![tactic(auto)]

ghost use Rattle.std.specs.Prelude.{◌≡◌};

mod hash128;
mod secrets;
mod xxh32;
mod xxh3_128;
mod xxh3_64;
mod xxh3_state;
mod xxh64;

/// Returned by a call that succeeded: `XXH_OK` of the C library.
pub const XXH_OK: u32 = 0;

/// Returned by a call that refused its arguments and changed nothing: `XXH_ERROR` of the C library.
pub const XXH_ERROR: u32 = 1;

/// `unsigned XXH_versionNumber(void)`: returns the version of the C library that has these names, 0.8.1, as 10000 * 0 +
/// 100 * 8 + 1.
#[unsafe(no_mangle)]
pub extern "C" fn XXH_versionNumber() -> u32
    ensures { result ≡ 801 }
{
    801
}
