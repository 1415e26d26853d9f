//! The outcome of one name in a hashing run.

ghost use Rattle.std.specs.Prelude.{◌≡◌, ◌<◌, false, length, IfOk, IfErr};
ghost use Rattle.xxhsum_program.specs.Files.{files_of};
ghost use Rattle.xxhsum_program.specs.Outcomes.{Comes, HasNoValue, IsValueOf, reason_of};

use crate::context::Context;
use crate::progress_reader::ProgressDisplay;
use crate::terminal::TimedSink;
use xxh_io::digest_error::DigestError;
use xxh_io::kind::Kind;
use xxh_io::refusal::Refusal;
use xxh_io::streams::Source;
use xxhsum_fs::store::Store;

/// Size of the buffer for each read of a file, in bytes.
pub const OFFERED: usize = 131072;

/// The outcome of a name.
#[derive(Clone, Copy, Debug, PartialEq, Eq)]
pub enum Outcome {
    /// The file was read to its end and has this value.
    Digested { value: u128 },
    /// The name is a directory.
    IsDirectory,
    /// The name has no value.
    Unread { reason: Reason },
}

/// The reason why a name that isn't a directory has no value.
#[derive(Clone, Copy, Debug, PartialEq, Eq)]
pub enum Reason {
    /// The file could not be opened.
    Unopened { refusal: Refusal },
    /// A read of the file failed.
    ReadFailed { refusal: Refusal },
    /// The file is too long: 2^64 - 1 reads did not reach its end.
    TooLong,
}

impl Outcome {
    ghost use Rattle.xxhsum_program.specs.Outcomes.{is_digested};

    /// True if the name has a value.
    pub fn is_digested(&self) -> bool
        ensures { result ≡ is_digested self.now }
    {
        match self {
            Outcome::Digested { .. } => true,
            Outcome::IsDirectory | Outcome::Unread { .. } => false,
        }
    }
}

impl Reason {
    ghost use Rattle.xxhsum_program.specs.Lines.{step_text};
    ghost use Rattle.xxhsum_program.specs.Outcomes.{has_no_file, reason_text};

    // True if there is no file of this name.
    pub(crate) fn is_missing(&self) -> bool
        ensures { result ≡ has_no_file self.now }
    {
        match self {
            Reason::Unopened { refusal } => refusal.is_missing(),
            Reason::ReadFailed { .. } | Reason::TooLong => false,
        }
    }

    // Returns the reason as text: the system's message if the file can't be opened or read.
    pub(crate) fn text(&self) -> &[u8]
        ensures { result.now ≡ reason_text self.now }
    {
        match self {
            Reason::Unopened { refusal } | Reason::ReadFailed { refusal } => refusal.text(),
            Reason::TooLong => b"the input file is too long",
        }
    }

    // Returns the step that failed: `open` or `read`.
    pub(crate) fn step(&self) -> &[u8]
        ensures { result.now ≡ step_text self.now }
    {
        match self {
            Reason::Unopened { .. } => b"open",
            Reason::ReadFailed { .. } | Reason::TooLong => b"read",
        }
    }
}

// Returns the reason for an error of reading a file, if `refusal` is the system's error of the read. Reading a file writes
// nothing, so a write can't fail here.
pub(crate) fn reason_of(error: DigestError, refusal: Refusal) -> Reason
    ensures { result ≡ reason_of error refusal }
{
    match error {
        DigestError::ReadFailed | DigestError::WriteFailed => Reason::ReadFailed { refusal },
        DigestError::TooLong => Reason::TooLong,
    }
}

/// Opens and hashes the file of this name. Each read is offered the whole of `buf`. An error is the reason why there is
/// no value.
pub(crate) fn value_named<S: Store, T: TimedSink>(
    store: &S,
    progress: ProgressDisplay<T>,
    kind: Kind,
    name: &[u8],
    buf: &mut [u8],
) -> Result<u128, Reason>
    requires { 0 < length buf.old }
    ensures value { IfOk result
        (IsValueOf (files_of S.Store S.File.Source store.now) kind name.now) }
    ensures reason { IfErr result (HasNoValue (files_of S.Store S.File.Source store.now) name.now) }
{
    match progress.open(store, name) {
        Ok(file) => {
            let mut file = file;
            match file.value(kind, buf) {
                Ok(value) => Ok(value),
                Err(error) => Err(reason_of(error, file.failure())),
            }
        }
        Err(refusal) => Err(Reason::Unopened { refusal }),
    }
}

/// Opens and hashes the file of this name. Each read is offered the whole of `buf`. Directories are found by
/// `is_directory` of the store.
pub fn outcome_of<S: Store, T: TimedSink>(
    context: &Context<'_, S, T>,
    kind: Kind,
    name: &[u8],
    buf: &mut [u8],
) -> Outcome
    requires { 0 < length buf.old }
    ensures { Comes (files_of S.Store S.File.Source context.now.store.now) kind name.now result }
{
    if context.store.is_directory(name) {
        return Outcome::IsDirectory;
    }
    match value_named(context.store, context.progress, kind, name, buf) {
        Ok(value) => Outcome::Digested { value },
        Err(reason) => Outcome::Unread { reason },
    }
}
