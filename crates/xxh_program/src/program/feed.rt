//! The interface of hashers for the digest engine, and the loop that feeds them.

ghost use Rattle.std.specs.Prelude.{◌≡◌, ◌≢◌, ◌↔◌, ◌<◌, true, false, List, ℕ, length, Err, IfOk};
ghost use Rattle.std.specs.List.{concat};
ghost use Rattle.xxh_io.specs.Digest.{ReadsTo};
ghost use Rattle.xxh_program.specs.Feeding.{IsFed};

use xxh_io::digest_error::DigestError;
use xxh_io::streams::{Failed, Source};

/// A hasher of any algorithm, as the engine uses it.
pub(crate) trait Feed: Drop {
    // The hasher has this seed and has hashed these bytes.
    ghost follows: { Self → ℕ → List ℕ → Type 0 };

    // The hasher has this seed, whatever it has hashed. For a stream that defines it for no seed it is always true.
    ghost has_seed: { Self → ℕ → Type 0 };

    // The digest of these bytes with this seed.
    ghost value_at: { ℕ → List ℕ → ℕ };

    /// Hashes one more chunk.
    fn feed(&mut self, piece: &[u8])
        ensures { IsFed follows has_seed self.old piece.now self.new };

    /// Returns the hash of the chunks so far.
    fn value(&self) -> u128
        ensures { (seed : ℕ) (m : List ℕ) → follows self.now seed m → result ≡ value_at seed m };
}

// Feeds the hasher what is read, until a read returns nothing. Each read is offered the whole buffer.
pub(crate) fn read_all<H: Feed, R: Source>(
    hasher: H,
    max_reads: u64,
    r: &mut R,
    buf: &mut [u8],
) -> Result<H, DigestError>
    requires works { R.has_failed r.old ≡ false }
    requires room { 0 < length buf.old }
    ensures reads { (pieces : List (List ℕ))
        × ReadsTo R.Source max_reads pieces r.old r.new result
        × IfOk result (IsFed H.follows H.has_seed hasher (concat pieces)) }
    ensures read_failed { (result ≡ Err DigestError.ReadFailed) ↔ (R.has_failed r.new ≡ true) }
    ensures never_writes { result ≢ Err DigestError.WriteFailed }
{
    let mut hasher = hasher;
    for turn in 0..max_reads {
        match r.read(buf) {
            Ok(0) => return Ok(hasher),
            Ok(count) => hasher.feed(&buf[..count]),
            Err(Failed) => return Err(DigestError::ReadFailed),
        }
    }
    Err(DigestError::TooLong)
}
