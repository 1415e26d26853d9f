//! The system's files, by names that std opens. The clauses state each result over those of the system's calls: no
//! clause can state which bytes a file has.

ghost use Rattle.std.specs.Prelude.{◌≡◌};
ghost use Rattle.xxhsum_fs.specs.System.{ClosesNames, HasAnswer, HasSize, HoldsNames, IsKindOf, IsSizeOf, LeadsTo, Opens, RefusesFor, process_of};

use crate::calls::SystemCalls;
use crate::entries::names_of;
use crate::folders::{FolderError, Folders, PathKind};
use crate::store::Store;
use crate::uninterrupted::Uninterrupted;
use std::alloc::Global;
use std::fs::Metadata;
use std::io;
use xxh_io::refusal::Refusal;
use xxh_io::words::words_of;

// `EILSEQ`, the system's error number for an illegal byte sequence.
const NOT_A_TEXT: i32 = 84;

/// The files that a process may open. A name that is not UTF-8 is refused, since std opens no such name.
#[derive(Clone, Copy)]
pub struct SystemFiles<'a, P> {
    process: &'a P,
}

impl<'a, P: SystemCalls> SystemFiles<'a, P> {
    /// Creates the store of this process's files.
    pub fn new(process: &'a P) -> SystemFiles<'a, P>
        ensures { process_of result ≡ process.now }
    {
        SystemFiles { process }
    }
}

impl<P: SystemCalls> Store for SystemFiles<'_, P> {
    type File = Uninterrupted<P::File>;

    ghost opens = { Opens P.SystemCalls };

    ghost refuses = { RefusesFor P.SystemCalls };

    ghost holds_directory = { HasAnswer P.SystemCalls };

    ghost sizes = { HasSize P.SystemCalls };

    fn is_directory(&self, name: &[u8]) -> bool {
        let Ok(path) = str::from_utf8(name) else {
            return false;
        };
        match self.process.look_up(path) {
            Ok(found) => found.is_dir(),
            // A path that opens as a directory is one, even if it could not be looked up.
            Err(_) => self.process.open_directory(path).is_ok(),
        }
    }

    fn size(&self, name: &[u8]) -> Option<u64> {
        let Ok(path) = str::from_utf8(name) else {
            return None;
        };
        size_from(self.process.look_up(path))
    }

    fn open(&self, name: &[u8]) -> Result<Uninterrupted<P::File>, Refusal> {
        let Ok(path) = str::from_utf8(name) else {
            return Err(Refusal::new(NOT_A_TEXT, b"The name is not UTF-8"));
        };
        match self.process.open(path) {
            Ok(file) => Ok(Uninterrupted::new(file)),
            Err(error) => Err(words_of(error)),
        }
    }
}

impl<P: SystemCalls> Folders for SystemFiles<'_, P> {
    ghost holds = { HoldsNames P.SystemCalls P.Directory.ReadCall };

    ghost closes = { ClosesNames P.SystemCalls P.Directory.ReadCall };

    ghost leads = { LeadsTo P.SystemCalls };

    fn kind_of(&self, name: &[u8]) -> PathKind {
        let Ok(path) = str::from_utf8(name) else {
            return PathKind::File;
        };
        kind_from(self.process.look_up_itself(path))
    }

    fn names_in(&self, alloc: Global, folder: &[u8]) -> Result<Vec<Vec<u8>>, FolderError> {
        let Ok(path) = str::from_utf8(folder) else {
            return Err(FolderError::Refused(Refusal::new(NOT_A_TEXT, b"The name is not UTF-8")));
        };
        match self.process.open_directory(path) {
            Ok(directory) => names_of(alloc, directory),
            Err(error) => Err(FolderError::Refused(words_of(error))),
        }
    }
}

// Returns the size of a file that was looked up.
fn size_from(found: io::Result<Metadata>) -> Option<u64>
    ensures { IsSizeOf found result }
{
    match found {
        Ok(found) if found.is_file() => Some(found.len()),
        _ => None,
    }
}

// Returns the type that a look-up found.
fn kind_from(found: io::Result<Metadata>) -> PathKind
    ensures { IsKindOf found result }
{
    match found {
        Ok(found) if found.is_dir() => PathKind::Folder,
        Ok(found) if found.is_file() => PathKind::File,
        Ok(_) => PathKind::Other,
        Err(error) => {
            // A name that has vanished is reported when it is opened, like one that vanishes later.
            let refusal = words_of(error);
            if refusal.is_missing() {
                PathKind::File
            } else {
                PathKind::Unknown(refusal)
            }
        }
    }
}
