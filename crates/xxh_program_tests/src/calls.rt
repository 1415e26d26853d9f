//! The calls under test, without contracts, so that a test that calls them has none to prove.

ghost use Rattle.std.specs.Prelude.{◌≡◌, false};

use std::alloc::{AllocError, Global};
use twox_hash::{XxHash32, XxHash64};
use xxh_program::program::{
    DigestError, FromRead, FromWrite, Kind, Sink, SliceSource, Source, digest, digest_blocks,
    digest_from_32, digest_from_64, read_on_32, read_on_64, run,
};

/// How bytes are digested: by an algorithm under a seed, by a hasher that has read `some` under 1234, or by blocks.
#[derive(Clone, Copy)]
pub(crate) enum Way {
    Fresh(Kind, u32),
    From32,
    From64,
    Blocks(u64),
}

pub(crate) fn digest_by<R: Source, W: Sink>(
    way: Way,
    max_reads: u64,
    r: &mut R,
    w: &mut W,
) -> Result<(), DigestError>
    requires reader { R.has_failed r.old ≡ false }
    requires writer { W.has_failed w.old ≡ false }
{
    match way {
        Way::Fresh(kind, seed) => digest(kind, u64::from(seed), max_reads, r, w),
        Way::From32 => digest_from_32(some_32()?, max_reads, r, w),
        Way::From64 => digest_from_64(some_64()?, max_reads, r, w),
        Way::Blocks(size) => digest_blocks(r, w, size.max(1), max_reads),
    }
}

fn some_32() -> Result<XxHash32, DigestError> {
    read_on_32(XxHash32::with_seed(1234), 2, &mut SliceSource::new(b"some"))
}

fn some_64() -> Result<XxHash64, DigestError> {
    read_on_64(XxHash64::with_seed(1234), 2, &mut SliceSource::new(b"some"))
}

pub(crate) fn run_by<R: Source, W: Sink, E: Sink>(
    alloc: Global,
    words: &[&str],
    r: &mut R,
    out: &mut W,
    err: &mut E,
) -> u8
    requires reader { R.has_failed r.old ≡ false }
    requires writer { W.has_failed out.old ≡ false }
    requires faults { E.has_failed err.old ≡ false }
{
    run(alloc, words, r, out, err)
}

/// The result of a run over memory: the exit status, both outputs, and how much of the input was left.
#[derive(Drop)]
pub(crate) struct Ran {
    pub(crate) status: u8,
    pub(crate) out: Vec<u8>,
    pub(crate) err: Vec<u8>,
    pub(crate) unread: usize,
}

impl Ran {
    /// True if the run succeeded, read everything, and printed this.
    pub(crate) fn printed(&self, out: &[u8]) -> bool {
        let quiet = self.status == 0 && self.err.is_empty() && self.unread == 0;
        quiet && self.out.as_slice() == out
    }
}

/// Runs the program with these arguments, separated by single spaces.
pub(crate) fn run_line(alloc: Global, line: &str, input: &[u8]) -> Result<Ran, AllocError> {
    let words: Vec<&str> = line.split(' ').collect(alloc)?;
    let mut r = FromRead::new(input);
    let mut out = FromWrite::new(Vec::new(alloc));
    let mut err = FromWrite::new(Vec::new(alloc));
    let status = run_by(alloc, &words, &mut r, &mut out, &mut err);
    Ok(Ran {
        status,
        out: out.into_inner(),
        err: err.into_inner(),
        unread: r.into_inner().len(),
    })
}

/// The bytes 0 to 250, repeated.
pub(crate) fn cycling(alloc: Global, len: usize) -> Result<Vec<u8>, AllocError> {
    let mut bytes = Vec::new(alloc);
    for i in 0..len {
        bytes.push((i % 251) as u8)?;
    }
    Ok(bytes)
}
