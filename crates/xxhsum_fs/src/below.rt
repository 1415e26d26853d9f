//! Names relative to a directory.

ghost use Rattle.std.specs.Prelude.{◌≡◌, ◌+◌, ◌≤◌, ◌++◌, length, option_map};

use crate::folders::{FolderError, Folders, PathKind};
use crate::store::Store;
use std::alloc::Global;
use xxh_io::refusal::Refusal;

// Maximum length of the path of a name below a directory, in bytes: `PATH_MAX` without the NUL.
const MOST: usize = 4095;

// `ENAMETOOLONG`, the system's error number for a path that is too long.
const TOO_LONG: i32 = 36;

/// A store below a directory of another one: its names are relative to the directory, unless they begin with a slash or
/// are empty. The directory may be empty: then it is the store itself.
#[derive(Clone, Copy)]
pub struct Below<'a, S> {
    directory: &'a [u8],
    store: &'a S,
}

// A path in the other store: the name itself, or the name below the directory.
#[derive(Drop)]
enum Path<'n> {
    Itself(&'n [u8]),
    Joined(Joined),
}

// A path of limited length.
#[derive(Drop)]
struct Joined {
    bytes: [u8; MOST],
    len: usize,
    ghost within: { len ≤ 4095 },
}

impl Joined {
    ghost use Rattle.xxhsum_fs.specs.Below.{joined_bytes, joined_count};

    // Appends bytes that fit.
    fn append(&mut self, bytes: &[u8])
        requires { joined_count self.old + length bytes.now ≤ 4095 }
        ensures bytes { joined_bytes self.new ≡ joined_bytes self.old ++ bytes.now }
        ensures count { joined_count self.new ≡ joined_count self.old + length bytes.now }
    {
        let all = &mut self.bytes[..];
        all[self.len..self.len + bytes.len()].copy_from_slice(bytes);
        self.len += bytes.len();
    }
}

impl Path<'_> {
    ghost use Rattle.xxhsum_fs.specs.Below.{IsTooLong, path_bytes, stays};

    // True if the name is not relative: it is empty, or begins with a slash.
    fn stays(name: &[u8]) -> bool
        ensures { result ≡ stays name.now }
    {
        match name.split_first() {
            Some((first, _)) => *first == b'/',
            None => true,
        }
    }

    // Returns the error for a path that is too long.
    fn too_long() -> Refusal
        ensures { IsTooLong result }
    {
        Refusal::new(TOO_LONG, b"File name too long")
    }

    fn bytes(&self) -> &[u8]
        ensures { result.now ≡ path_bytes self.now }
    {
        match self {
            Path::Itself(name) => name,
            Path::Joined(joined) => &joined.bytes[..joined.len],
        }
    }
}

impl<'a, S> Below<'a, S> {
    ghost use Rattle.xxhsum_fs.specs.Below.{IsBelow, path_bytes, path_of};

    /// Creates the store below this directory.
    pub fn new(directory: &'a [u8], store: &'a S) -> Below<'a, S>
        ensures { IsBelow directory.now store.now result }
    {
        Below { directory, store }
    }

    // Returns the path of a name, or `None` if it is too long.
    fn path_of<'n>(&self, name: &'n [u8]) -> Option<Path<'n>>
        ensures { option_map path_bytes result ≡ path_of self.now name.now }
    {
        if self.directory.is_empty() || Path::stays(name) {
            return Some(Path::Itself(name));
        }
        if self.directory.len() + 1 + name.len() > MOST {
            return None;
        }
        let mut joined = Joined {
            bytes: [0; MOST],
            len: 0,
        };
        joined.append(self.directory);
        joined.append(b"/");
        joined.append(name);
        Some(Path::Joined(joined))
    }
}

impl<S: Store> Store for Below<'_, S> {
    ghost use Rattle.xxhsum_fs.specs.Below.{store_below};

    type File = S::File;

    ghost opens = { (store_below S.Store).opens };

    ghost refuses = { (store_below S.Store).refuses };

    ghost holds_directory = { (store_below S.Store).holds_directory };

    ghost sizes = { (store_below S.Store).sizes };

    fn is_directory(&self, name: &[u8]) -> bool {
        match self.path_of(name) {
            Some(path) => self.store.is_directory(path.bytes()),
            None => false,
        }
    }

    fn size(&self, name: &[u8]) -> Option<u64> {
        match self.path_of(name) {
            Some(path) => self.store.size(path.bytes()),
            None => None,
        }
    }

    fn open(&self, name: &[u8]) -> Result<S::File, Refusal> {
        match self.path_of(name) {
            Some(path) => self.store.open(path.bytes()),
            None => Err(Path::too_long()),
        }
    }
}

impl<S: Folders> Folders for Below<'_, S> {
    ghost use Rattle.xxhsum_fs.specs.Below.{folders_below};

    ghost holds = { (folders_below S.Folders).holds };

    ghost closes = { (folders_below S.Folders).closes };

    ghost leads = { (folders_below S.Folders).leads };

    fn kind_of(&self, name: &[u8]) -> PathKind {
        match self.path_of(name) {
            Some(path) => self.store.kind_of(path.bytes()),
            None => PathKind::Unknown(Path::too_long()),
        }
    }

    fn names_in(&self, alloc: Global, folder: &[u8]) -> Result<Vec<Vec<u8>>, FolderError> {
        match self.path_of(folder) {
            Some(path) => self.store.names_in(alloc, path.bytes()),
            None => Err(FolderError::Refused(Path::too_long())),
        }
    }
}
