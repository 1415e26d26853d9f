//! The names in directories.

ghost use Rattle.std.specs.Prelude.{◌≡◌, List, ℕ, map, MatchResult};
ghost use Rattle.xxhsum_fs.specs.Folders.{ClosesFor};
ghost use Rattle.xxhsum_fs.specs.declared.folders.PathKind.{PathKind};
ghost use Rattle.xxh_io.specs.declared.refusal.Refusal.{Refusal};

use std::alloc::{AllocError, Global};
use xxh_io::refusal::Refusal;

/// The type of a path, without following links.
#[derive(Clone, Copy, Debug, PartialEq, Eq)]
pub enum PathKind {
    /// A directory.
    Folder,
    /// A file; also a name that is not UTF-8, or that has vanished, for which opening returns the error.
    File,
    /// A link, a device, a pipe or a socket.
    Other,
    /// The store can't determine it, for this reason.
    Unknown(Refusal),
}

/// The error for a directory whose names are not known.
#[derive(Clone, Copy, Debug, PartialEq, Eq)]
pub enum FolderError {
    /// The directory can't be opened or read.
    Refused(Refusal),
    /// Out of memory.
    OutOfMemory,
}

impl From<AllocError> for FolderError {
    ghost use Rattle.xxhsum_fs.specs.declared.folders.FolderError.TheVariants.{OutOfMemory};

    ghost from_gives = { λ _ error. error ≡ OutOfMemory };

    fn from(_error: AllocError) -> FolderError {
        FolderError::OutOfMemory
    }
}

/// Directories by name, in bytes as for files.
pub trait Folders {
    // The directory of this name has these names in it, in some order.
    ghost holds: { Self → List ℕ → List (List ℕ) → Type 0 };

    // The names in the directory of this name can't be read, for this reason.
    ghost closes: { Self → List ℕ → Refusal → Type 0 };

    // The name itself, without following links, leads to this.
    ghost leads: { Self → List ℕ → PathKind → Type 0 };

    /// Returns the type of the path, without following links.
    fn kind_of(&self, name: &[u8]) -> PathKind
        ensures { leads self.now name.now result };

    /// Returns the names in the directory of this name, which ends with a slash, in any order, without `.` and `..`.
    ///
    /// # Errors
    ///
    /// - [`FolderError::Refused`] if the directory can't be opened or read.
    /// - [`FolderError::OutOfMemory`] if out of memory.
    fn names_in(&self, alloc: Global, folder: &[u8]) -> Result<Vec<Vec<u8>>, FolderError>
        ensures { MatchResult result
            (λ names. holds self.now folder.now (map (λ name. name.items) names.items))
            (ClosesFor closes self.now folder.now) };
}
