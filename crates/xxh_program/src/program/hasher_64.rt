//! XXH64 in the digest engine.

ghost use Rattle.std.specs.Prelude.{◌≡◌, ◌≢◌, ◌↔◌, ◌⊎◌, ◌++◌, true, false, List, ℕ, length, Err, IfOk};
ghost use Rattle.std.specs.List.{concat};
ghost use Rattle.twox_hash.specs.Xxh64.{xxh64};
ghost use Rattle.twox_hash.specs.Record64.{Represents};
ghost use Rattle.xxh_io.specs.Digest.{ReadsTo, Writes};
ghost use Rattle.xxh_io.specs.Hex.{hex_line};

use crate::program::engine::{OFFERED, digest_on};
use crate::program::feed::{Feed, read_all};
use twox_hash::XxHash64;
use xxh_io::digest_error::DigestError;
use xxh_io::streams::{Sink, Source};

impl Feed for XxHash64 {
    ghost follows = { λ h seed m. (h.seed ≡ seed) × Represents h m };

    ghost has_seed = { λ h seed. h.seed ≡ seed };

    ghost value_at = { xxh64 };

    fn feed(&mut self, piece: &[u8]) {
        self.write(piece);
    }

    fn value(&self) -> u128 {
        u128::from(self.finish())
    }
}

/// Continues from the hasher as `digest` does from a new one, with the same errors: the line is that of the bytes
/// hashed before followed by what is read.
pub fn digest_from_64<R: Source, W: Sink>(
    hasher: XxHash64,
    max_reads: u64,
    r: &mut R,
    w: &mut W,
) -> Result<(), DigestError>
    requires reader { R.has_failed r.old ≡ false }
    requires writer { W.has_failed w.old ≡ false }

    // What was read and what was written, for every list of bytes that the hasher represents.
    ensures digests { (pieces : List (List ℕ))
        × ReadsTo R.Source max_reads pieces r.old r.new result
        × ((m : List ℕ) → Represents hasher m
        → Writes W.Sink (hex_line 16 (xxh64 hasher.seed (m ++ concat pieces))) w.old w.new result) }

    // When each stream fails, and when nothing is written, whatever the hasher represents.
    ensures read_failed { (result ≡ Err DigestError.ReadFailed) ↔ (R.has_failed r.new ≡ true) }
    ensures write_failed { (result ≡ Err DigestError.WriteFailed) ↔ (W.has_failed w.new ≡ true) }
    ensures unwritten { (result ≡ Err DigestError.ReadFailed) ⊎ (result ≡ Err DigestError.TooLong)
        → w.new ≡ w.old }
{
    digest_on::<_, _, _, OFFERED>(hasher, 16, max_reads, r, w)
}

/// Reads as `digest` does, with the same read errors, and returns the hasher after what was read.
pub fn read_on_64<R: Source>(
    hasher: XxHash64,
    max_reads: u64,
    r: &mut R,
) -> Result<XxHash64, DigestError>
    requires { R.has_failed r.old ≡ false }

    // What was read, and what the hasher then represents.
    ensures reads { (pieces : List (List ℕ))
        × ReadsTo R.Source max_reads pieces r.old r.new result
        × IfOk result (λ after. (after.seed ≡ hasher.seed)
        × ((m : List ℕ) → Represents hasher m → Represents after (m ++ concat pieces))) }
    ensures read_failed { (result ≡ Err DigestError.ReadFailed) ↔ (R.has_failed r.new ≡ true) }
    ensures never_writes { result ≢ Err DigestError.WriteFailed }
{
    read_all(hasher, max_reads, r, &mut [0; OFFERED])
}
