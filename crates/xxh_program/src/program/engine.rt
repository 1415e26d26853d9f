//! The digest engine: reads a source to its end through a hasher, and writes the value as a line.

ghost use Rattle.std.specs.Prelude.{◌≡◌, ◌↔◌, ◌<◌, ◌≤◌, ◌^◌, ◌⊎◌, ◌++◌, true, false, List, ℕ, Err};
ghost use Rattle.std.specs.List.{concat};
ghost use Rattle.xxh_io.specs.Digest.{ReadsTo, Writes};
ghost use Rattle.xxh_io.specs.Hex.{hex_line};
ghost use Rattle.xxh_program.specs.Kind.{digits_of, value_of};

use crate::program::feed::{Feed, read_all};
use crate::program::value::value_of_source;
use xxh_io::digest_error::DigestError;
use xxh_io::kind::Kind;
use xxh_io::streams::{Sink, Source};
use xxh_io::write::write_line;

// Size of the read buffer of the public calls.
pub(crate) const OFFERED: usize = 4096;

// Feeds the hasher what is read, and writes the line of its value.
pub(crate) fn digest_on<H: Feed, R: Source, W: Sink, const READ: usize>(
    hasher: H,
    digits: usize,
    max_reads: u64,
    r: &mut R,
    w: &mut W,
) -> Result<(), DigestError>
    requires reader { R.has_failed r.old ≡ false }
    requires writer { W.has_failed w.old ≡ false }
    requires room { digits ≤ 32 }
    requires offers { 1 ≤ READ }
    requires few { READ ≤ 131072 }
    ensures digests { (pieces : List (List ℕ))
        × ReadsTo R.Source max_reads pieces r.old r.new result
        × ((seed : ℕ) (m : List ℕ) → H.follows hasher seed m
        → Writes W.Sink (hex_line digits (H.value_at seed (m ++ concat pieces)))
        w.old w.new result) }
    ensures read_failed { (result ≡ Err DigestError.ReadFailed) ↔ (R.has_failed r.new ≡ true) }
    ensures write_failed { (result ≡ Err DigestError.WriteFailed) ↔ (W.has_failed w.new ≡ true) }
    ensures unwritten { (result ≡ Err DigestError.ReadFailed) ⊎ (result ≡ Err DigestError.TooLong)
        → w.new ≡ w.old }
{
    let hasher = read_all(hasher, max_reads, r, &mut [0; READ])?;
    write_line(hasher.value(), digits, w)
}

// Does what `digest` does, with a read buffer of this size.
pub(crate) fn digest_reading<R: Source, W: Sink, const READ: usize>(
    kind: Kind,
    seed: u64,
    max_reads: u64,
    r: &mut R,
    w: &mut W,
) -> Result<(), DigestError>
    requires reader { R.has_failed r.old ≡ false }
    requires writer { W.has_failed w.old ≡ false }
    requires offers { 1 ≤ READ }
    requires few { READ ≤ 131072 }
    requires seed { kind ≡ Kind.X32 → seed < 2 ^ 32 }
    ensures digests { (pieces : List (List ℕ))
        × ReadsTo R.Source max_reads pieces r.old r.new result
        × Writes W.Sink (hex_line (digits_of kind) (value_of kind seed (concat pieces)))
        w.old w.new result }
    ensures read_failed { (result ≡ Err DigestError.ReadFailed) ↔ (R.has_failed r.new ≡ true) }
    ensures write_failed { (result ≡ Err DigestError.WriteFailed) ↔ (W.has_failed w.new ≡ true) }
{
    let value = value_of_source(kind, seed, max_reads, r, &mut [0; READ])?;
    write_line(value, kind.digits(), w)
}

/// Reads to the end of the source and writes the digest line of what was read: the hash by this algorithm under the
/// seed, in lower-case hexadecimal with leading zeros, and a newline. Each read is offered 4,096 bytes (tested, not in
/// a clause). Allocates nothing: there is no allocator.
///
/// The caller proves that neither stream has failed and that the seed of [`Kind::X32`] is below 2^32.
///
/// # Errors
///
/// - [`DigestError::ReadFailed`] if and only if the source has failed afterwards. Nothing was written.
/// - [`DigestError::WriteFailed`] if and only if the sink has failed afterwards. A beginning of the line was written,
///   and not all of it.
/// - [`DigestError::TooLong`] if and only if `max_reads` reads each returned at least one byte. Nothing was written,
///   and no further read was made. With `max_reads` 0 that is immediate.
///
/// ```
/// let mut input = FromRead::new(b"some bytes".as_slice());
/// let mut output = FromWrite::new(Vec::new(alloc));
/// digest(Kind::X64, 1234, u64::MAX, &mut input, &mut output)?; // writes eab55659a496d78b
/// ```
pub fn digest<R: Source, W: Sink>(
    kind: Kind,
    seed: u64,
    max_reads: u64,
    r: &mut R,
    w: &mut W,
) -> Result<(), DigestError>
    requires reader { R.has_failed r.old ≡ false }
    requires writer { W.has_failed w.old ≡ false }
    requires seed { kind ≡ Kind.X32 → seed < 2 ^ 32 }

    // What was read and what was written, where `pieces` is the chunks read that are not empty.
    ensures digests { (pieces : List (List ℕ))
        × ReadsTo R.Source max_reads pieces r.old r.new result
        × Writes W.Sink (hex_line (digits_of kind) (value_of kind seed (concat pieces)))
        w.old w.new result }

    // When each stream fails.
    ensures read_failed { (result ≡ Err DigestError.ReadFailed) ↔ (R.has_failed r.new ≡ true) }
    ensures write_failed { (result ≡ Err DigestError.WriteFailed) ↔ (W.has_failed w.new ≡ true) }
{
    digest_reading::<_, _, OFFERED>(kind, seed, max_reads, r, w)
}
