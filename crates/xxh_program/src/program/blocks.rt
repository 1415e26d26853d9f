//! Digest lines of blocks: reads a source to its end, and writes a line for each block of the input.

ghost use Rattle.std.specs.Prelude.{◌≡◌, ◌↔◌, ◌<◌, ◌≤◌, ◌+◌, ◌*◌, ◌/◌, ◌++◌, [], true, false, List, ℕ, length, Err, IfErr, IfOk};
ghost use Rattle.std.specs.List.{concat};
ghost use Rattle.std.specs.Int.{div_ceil};
ghost use Rattle.xxh_io.specs.Pieces.{NoneEmpty};
ghost use Rattle.xxh_io.specs.Digest.{Writes};
ghost use Rattle.xxh_program.specs.Blocks.{added_lines, last_lines};
ghost use Rattle.xxh_program.specs.Filter.{filter_of};
ghost use Rattle.xxh_program.specs.BlockEnds.{DigestsBlocks};
ghost use Rattle.xxh_program.specs.Streams.{FollowsDefault};

use crate::program::engine::OFFERED;
use twox_hash::xxhash3::{DefaultSecret, SecretBuffer};
use twox_hash::xxhash3_128::RawHasher;
use xxh_io::digest_error::DigestError;
use xxh_io::hex::{LINE, offset_line};
use xxh_io::streams::{Failed, Sink, Source};
use xxh_io::waiting::Waiting;
use xxh_io::write::write_all;

// Returns the stream of no bytes.
fn empty_stream() -> RawHasher<DefaultSecret>
    ensures { FollowsDefault result [] }
{
    RawHasher::new(SecretBuffer::default())
}

// The block that is being read.
#[derive(Drop)]
struct CurrentBlock {
    hasher: RawHasher<DefaultSecret>,
    // Number of bytes of a block.
    size: u64,
    // Number of bytes of this block that the hasher has hashed.
    count: u64,
    // Offset of this block, saturating at `u64::MAX`.
    offset: u64,
    ghost short: { count < size },
}

impl CurrentBlock {
    ghost use Rattle.xxh_program.specs.BlockState.{HasTaken};

    // Starts before the first byte.
    fn new(size: u64) -> CurrentBlock
        requires { 1 ≤ size }
        ensures size { result.size ≡ size }
        ensures empty { HasTaken result [] }
    {
        CurrentBlock {
            hasher: empty_stream(),
            size,
            count: 0,
            offset: 0,
        }
    }

    // Hashes bytes that end before the block does.
    fn extend(&mut self, front: &[u8])
        requires { self.old.count + length front.now < self.old.size }
        ensures size { self.new.size ≡ self.old.size }
        ensures follows { (m : List ℕ) → HasTaken self.old m
            → HasTaken self.new (m ++ front.now) × (added_lines self.old.size m front.now ≡ []) }
    {
        self.hasher.write(front);
        self.count += front.len() as u64;
    }

    // Hashes the bytes that end the block, returns its line, and begins the next block.
    fn complete(&mut self, front: &[u8]) -> [u8; LINE]
        requires { self.old.count + length front.now ≡ self.old.size }
        ensures size { self.new.size ≡ self.old.size }
        ensures follows { (m : List ℕ) → HasTaken self.old m
            → HasTaken self.new (m ++ front.now)
            × (added_lines self.old.size m front.now ≡ result) }
    {
        self.hasher.write(front);
        let line = offset_line(self.offset, self.hasher.finish_128());
        self.hasher = empty_stream();
        self.count = 0;
        self.offset = self.offset.saturating_add(self.size);
        line
    }

    // Hashes a chunk, and writes the line of each block that it ends. The lines are collected in a buffer of `N` bytes,
    // which is empty afterwards.
    fn take<W: Sink, const N: usize>(&mut self, piece: &[u8], w: &mut W) -> Result<(), DigestError>
        requires works { W.has_failed w.old ≡ false }
        requires room { 50 ≤ N }
        requires small { N ≤ 65536 }
        ensures size { self.new.size ≡ self.old.size }
        ensures follows { IfOk result
            (λ _. (m : List ℕ) → HasTaken self.old m → HasTaken self.new (m ++ piece.now)) }
        ensures writes { (m : List ℕ) → HasTaken self.old m
            → Writes W.Sink (added_lines self.old.size m piece.now) w.old w.new result }
        ensures write_failed { (result ≡ Err DigestError.WriteFailed)
            ↔ (W.has_failed w.new ≡ true) }
        ensures only { IfErr result (λ e. e ≡ DigestError.WriteFailed) }
    {
        let mut lines = Waiting::<N>::new();
        let mut rest = piece;
        loop {
            let room = self.size - self.count;
            if (rest.len() as u64) < room {
                self.extend(rest);
                return lines.flush(w);
            }
            let (front, after) = rest.split_at(room as usize);
            let line = self.complete(front);
            lines.push(&line, w)?;
            rest = after;
        }
    }

    // Writes the line of the last block, if it is short.
    fn finish<W: Sink>(&self, w: &mut W) -> Result<(), DigestError>
        requires { W.has_failed w.old ≡ false }
        ensures writes { (m : List ℕ) → HasTaken self.now m
            → Writes W.Sink (last_lines self.now.size m) w.old w.new result }
        ensures write_failed { (result ≡ Err DigestError.WriteFailed)
            ↔ (W.has_failed w.new ≡ true) }
        ensures only { IfErr result (λ e. e ≡ DigestError.WriteFailed) }
    {
        if self.count == 0 {
            return Ok(());
        }
        let line = offset_line(self.offset, self.hasher.finish_128());
        write_all(&line, w)
    }
}

// Implements `digest_blocks` with a read buffer of `READ` bytes and a buffer of `LINES` bytes for the lines of the
// blocks that a chunk ends. That buffer is written before the next read.
pub(crate) fn digest_blocks_by<R: Source, W: Sink, const READ: usize, const LINES: usize>(
    r: &mut R,
    w: &mut W,
    block: u64,
    max_reads: u64,
) -> Result<(), DigestError>
    requires reader { R.has_failed r.old ≡ false }
    requires writer { W.has_failed w.old ≡ false }
    requires some { 1 ≤ block }
    requires offers { 1 ≤ READ }
    requires few { READ ≤ 131072 }
    requires room { 50 ≤ LINES }
    requires small { LINES ≤ 65536 }
    ensures digests { (pieces : List (List ℕ)) × NoneEmpty pieces
        × DigestsBlocks (filter_of R.Source W.Sink r.old r.new w.old w.new) block max_reads pieces
        result
        × ((result ≡ Err DigestError.TooLong)
        ↔ ((length pieces ≡ max_reads) × (W.has_failed w.new ≡ false))) }
    ensures read_failed { (result ≡ Err DigestError.ReadFailed) ↔ (R.has_failed r.new ≡ true) }
    ensures write_failed { (result ≡ Err DigestError.WriteFailed) ↔ (W.has_failed w.new ≡ true) }
{
    let mut current = CurrentBlock::new(block);
    let mut buf = [0; READ];
    for turn in 0..max_reads {
        match r.read(&mut buf) {
            Ok(0) => return current.finish(w),
            Ok(count) => current.take::<W, LINES>(&buf[..count], w)?,
            Err(Failed) => return Err(DigestError::ReadFailed),
        }
    }
    Err(DigestError::TooLong)
}

/// Reads to the end of the source and writes a line for each block of `block` bytes. The last block may be shorter. A
/// line has the block's offset, saturating at 2^64 - 1, in 16 lower-case hexadecimal digits, a space, XXH3 128-bit of
/// the block under the seed 0 and the default secret, in 32 digits, and a newline. Each read is offered 4,096 bytes
/// (tested, not in a clause). A line is written before the next read. Nothing is allocated. An empty input has no
/// lines.
///
/// The caller proves that neither stream has failed and that a block has at least one byte.
///
/// Its proof uses only public contracts of the library: the contracts of `SecretBuffer::default` and `RawHasher::new`,
/// and the clauses `message` of `write` and `finish_128`.
///
/// # Errors
///
/// - [`DigestError::ReadFailed`] if and only if the source has failed afterwards. The lines of the whole blocks were
///   written.
/// - [`DigestError::WriteFailed`] if and only if the sink has failed afterwards. A proper prefix of the lines was
///   written, and no further read was made.
/// - [`DigestError::TooLong`] if and only if `max_reads` reads each returned at least one byte and the sink has not
///   failed. The lines of the whole blocks were written, and no further read was made.
///
/// ```
/// let mut input = FromRead::new([0, 1, 0].as_slice());
/// let mut output = FromWrite::new(Vec::new(alloc));
/// digest_blocks(&mut input, &mut output, 2, u64::MAX)?;
/// // 0000000000000000 6a4a5274c1b0d3add6645fc3051a9457
/// // 0000000000000002 a6cd5e9392000f6ac44bdff4074eecdb
/// ```
pub fn digest_blocks<R: Source, W: Sink>(
    r: &mut R,
    w: &mut W,
    block: u64,
    max_reads: u64,
) -> Result<(), DigestError>
    requires reader { R.has_failed r.old ≡ false }
    requires writer { W.has_failed w.old ≡ false }
    requires some { 1 ≤ block }

    // The reads and writes. `pieces` is the list of nonempty chunks that were read.
    ensures digests { (pieces : List (List ℕ)) × NoneEmpty pieces
        × DigestsBlocks (filter_of R.Source W.Sink r.old r.new w.old w.new) block max_reads pieces
        result
        × ((result ≡ Err DigestError.TooLong)
        ↔ ((length pieces ≡ max_reads) × (W.has_failed w.new ≡ false))) }

    // When each stream fails.
    ensures read_failed { (result ≡ Err DigestError.ReadFailed) ↔ (R.has_failed r.new ≡ true) }
    ensures write_failed { (result ≡ Err DigestError.WriteFailed) ↔ (W.has_failed w.new ≡ true) }
{
    digest_blocks_by::<R, W, OFFERED, LINE>(r, w, block, max_reads)
}

/// Lemma (no code): a block of `n` bytes has a line if and only if it begins before their end. It is whole if and only
/// if it ends by then.
pub fn block_counts()
    ensures lines { (block n c : ℕ) → 1 ≤ block → (c < div_ceil n block) ↔ (c * block < n) }
    ensures whole { (block n c : ℕ) → 1 ≤ block → (c < n / block) ↔ ((c + 1) * block ≤ n) }
{}
