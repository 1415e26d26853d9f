//! The arguments of a program, as bytes.

ghost use Rattle.std.specs.Prelude.{◌≤◌, List, ℕ, length, map, take, IfErr, IfOk, MatchOption};
ghost use Rattle.xxhsum_program.specs.Arguments.{AreArguments, AnyArgument, AnyEnd, AnyExcess, IsLastPart, Refuses};

use std::alloc::{AllocError, Global};
use std::env::FillError;
use std::rt::Env;
use xxh_io::heap::buffer;

// The first capacity that is tried for an argument, and how often it is doubled.
const FIRST_ROOM: usize = 256;

const MOST_ROOMS: u32 = 40;

/// The arguments that a program is called with, by index. Argument 0 is the program's name.
pub trait Arguments {
    // The argument at this index has these bytes.
    ghost holds: { Self → ℕ → List ℕ → Type 0 };

    // There is no argument at this index.
    ghost ends: { Self → ℕ → Type 0 };

    // The argument at this index is longer than this many bytes.
    ghost exceeds: { Self → ℕ → ℕ → Type 0 };

    /// Copies the argument at this index to the front of `buf` and returns its length.
    ///
    /// # Errors
    ///
    /// [`FillError::NotPresent`] if there is no such argument, and [`FillError::TooLong`] if it is longer than `buf`.
    fn fill(&self, index: usize, buf: &mut [u8]) -> Result<usize, FillError>
        ensures within { IfOk result (λ n. n ≤ length buf.new) }
        ensures holds { IfOk result (λ n. holds self.now index (take n buf.new)) }
        ensures refuses { IfErr result (Refuses ends exceeds self.now index (length buf.old)) };
}

/// The arguments of a process. No clause says which they are.
#[derive(Clone, Copy)]
pub struct ProcessArguments<'a, P> {
    process: &'a P,
}

impl<'a, P: Env> ProcessArguments<'a, P> {
    /// Returns the arguments of this process.
    pub fn new(process: &'a P) -> ProcessArguments<'a, P> {
        ProcessArguments { process }
    }
}

impl<P: Env> Arguments for ProcessArguments<'_, P> {
    ghost holds = { AnyArgument };

    ghost ends = { AnyEnd };

    ghost exceeds = { AnyExcess };

    fn fill(&self, index: usize, buf: &mut [u8]) -> Result<usize, FillError> {
        self.process.arg(index, buf)
    }
}

/// Returns all arguments, the program's name first.
///
/// # Errors
///
/// `AllocError` if memory runs out.
pub fn all_arguments<A: Arguments>(alloc: Global, arguments: &A) -> Result<Vec<Vec<u8>>, AllocError>
    ensures { IfOk result (λ all. AreArguments A.holds A.ends arguments.now
        (map (λ argument. argument.items) all.items)) }
{
    let mut all = Vec::new(alloc);
    for index in 0..usize::MAX {
        match argument(alloc, arguments, index)? {
            Some(bytes) => all.push(bytes)?,
            None => return Ok(all),
        }
    }
    Err(AllocError)
}

// Returns the argument at this index, or `None` if there is none. `AllocError` if memory runs out.
fn argument<A: Arguments>(
    alloc: Global,
    arguments: &A,
    index: usize,
) -> Result<Option<Vec<u8>>, AllocError>
    ensures { IfOk result (λ found. MatchOption found (A.ends arguments.now index)
        (λ bytes. A.holds arguments.now index bytes.items)) }
{
    let mut room = FIRST_ROOM;
    for _ in 0..MOST_ROOMS {
        let mut bytes = buffer(alloc, room)?;
        match arguments.fill(index, bytes.as_mut_slice()) {
            Ok(len) => {
                bytes.truncate(len);
                return Ok(Some(bytes));
            }
            Err(FillError::NotPresent) => return Ok(None),
            Err(FillError::TooLong) => room = room.saturating_mul(2),
        }
    }
    Err(AllocError)
}

/// Returns the part of a path after its last slash.
pub fn last_part(path: &[u8]) -> &[u8]
    ensures { IsLastPart path.now result.now }
{
    match memchr::memrchr(b'/', path) {
        Some(place) => &path[place + 1..],
        None => path,
    }
}
