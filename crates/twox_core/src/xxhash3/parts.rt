//! Borrowed parts of an input or a secret, without a test: the caller proves that they lie within it.

ghost use Rattle.std.specs.Prelude.{◌≡◌, ◌+◌, ◌-◌, ◌*◌, ◌/◌, ◌<◌, ◌≤◌, length, take, drop};
ghost use Rattle.std.specs.Simd.{first_chunks};
ghost use Rattle.twox_core.specs.Parts.{chunk_at, chunks_at, pair_at, pairs_at};
ghost use Rattle.twox_core.specs.SecretBytes.{secret_bytes};

use super::Secret;
use twox_words::words::bp_as_chunks;

// Borrows the `n` bytes from byte `from` on.
#[inline(always)]
fn part_at(bytes: &[u8], from: usize, n: usize) -> &[u8]
    requires { from + n ≤ length bytes.now }
    ensures value { result.now ≡ take n (drop from bytes.now) }
    ensures len { length result.now ≡ n }
{
    let (_, rest) = bytes.split_at(from);
    let (part, _) = rest.split_at(n);
    part
}

// Does nothing. The crate for cargo tests the lengths of a middle input and of the secret here, in place of one test for
// each word.
#[inline(always)]
pub(crate) fn expect_middle(input: &[u8], secret: Secret<'_>)
    requires some { 129 ≤ length input.now }
    requires few { length input.now ≤ 240 }
{}

// Borrows the `N` bytes from byte `from` on. `N` isn't 0.
#[inline(always)]
pub(crate) fn array_at<const N: usize>(bytes: &[u8], from: usize) -> &[u8; N]
    requires some { 0 < N }
    requires within { from + N ≤ length bytes.now }
    ensures { result.now ≡ take N (drop from bytes.now) }
{
    let (arrays, _) = bp_as_chunks(part_at(bytes, from, N));
    &arrays[0]
}

// Borrows the eight chunks of 16 bytes from byte `from` on.
#[tactic(auto, using(crate::proofs::PartFacts::part_laws))]
#[inline(always)]
pub(crate) fn chunks_at(bytes: &[u8], from: usize) -> &[[u8; 16]]
    requires { from + 128 ≤ length bytes.now }
    ensures chunks { result.now ≡ chunks_at bytes.now from 8 }
    ensures count { length result.now ≡ 8 }
{
    let (chunks, _) = bp_as_chunks(part_at(bytes, from, 128));
    chunks
}

// Borrows the four pairs of chunks of 16 bytes from byte `from` on.
#[tactic(auto, using(crate::proofs::PartFacts::part_laws))]
#[inline(always)]
pub(crate) fn pairs_at(bytes: &[u8], from: usize) -> &[[[u8; 16]; 2]]
    requires { from + 128 ≤ length bytes.now }
    ensures pairs { result.now ≡ pairs_at bytes.now from 4 }
    ensures count { length result.now ≡ 4 }
{
    let (pairs, _) = bp_as_chunks(chunks_at(bytes, from));
    pairs
}

// Borrows the 32 bytes from byte `from` on, as two chunks of 16.
#[inline(always)]
pub(crate) fn pair_at(bytes: &[u8], from: usize) -> &[[u8; 16]; 2]
    requires { from + 32 ≤ length bytes.now }
    ensures { result.now ≡ pair_at bytes.now from }
{
    let (chunks, _) = bp_as_chunks(part_at(bytes, from, 32));
    let (pairs, _) = bp_as_chunks(chunks);
    &pairs[0]
}

/// Borrows chunk `c` of 16 bytes from the front, chunk `c` from the back, and the secret's 32 bytes at `32 * c`.
///
/// The caller proves that there are 17 to 128 bytes, and that `c` is at most (n - 1) / 32 for n bytes.
#[inline(always)]
pub fn chunks_17_to_128<'a>(
    secret: Secret<'a>,
    input: &'a [u8],
    c: usize,
) -> (&'a [u8; 16], &'a [u8; 16], &'a [[u8; 16]; 2])
    requires some { 17 ≤ length input.now }
    requires few { length input.now ≤ 128 }
    requires chunk { c ≤ (length input.now - 1) / 32 }
    ensures forward { result.0.now ≡ chunk_at input.now (16 * c) }
    ensures backward { result.1.now ≡ chunk_at input.now (length input.now - 16 * (c + 1)) }
    ensures words { result.2.now ≡ pair_at (secret_bytes secret.entry) (32 * c) }
{
    let forward = array_at(input, 16 * c);
    let backward = array_at(input, input.len() - 16 * (c + 1));
    let (words, _) = bp_as_chunks(secret.words_for_17_to_128());
    (forward, backward, &words[c])
}

/// Borrows the whole pairs of 16 bytes from the front, without the fewer than 32 bytes after them.
#[inline(always)]
pub fn pairs_of_u64_bytes(bytes: &[u8]) -> &[[[u8; 16]; 2]]
    ensures pairs { result.now ≡ pairs_at bytes.now 0 (length bytes.now / 32) }
    ensures count { length result.now ≡ length bytes.now / 32 }
{
    let (halves, _) = bp_as_chunks(bytes);
    let (pairs, _) = bp_as_chunks(halves);
    pairs
}

/// Splits off all whole stripes of 64 bytes, except a last one that ends the block, and returns them and the 1 to 64
/// bytes after them. For an empty block both are empty.
#[tactic(auto, using(twox_words::proofs::WordFacts::first_chunks_take))]
#[inline(always)]
pub fn stripes_with_tail(block: &[u8]) -> (&[[u8; 64]], &[u8])
    ensures stripes { result.0.now ≡ first_chunks 64 ((length block.now - 1) / 64) block.now }
    ensures count { length result.0.now ≡ (length block.now - 1) / 64 }
    ensures tail { result.1.now ≡ drop ((length block.now - 1) / 64 * 64) block.now }
{
    let count = block.len().saturating_sub(1) / 64;
    let (front, tail) = block.split_at(count * 64);
    let (stripes, _) = bp_as_chunks(front);
    (stripes, tail)
}
