//! The calls of the system that a store of its files makes, as traits with one method for each. What a call returned is
//! a ghost relation, so the store is proved for any results: each errno, each name and each order of reads.

ghost use Rattle.std.specs.Prelude.{List, ℕ, Result, IfOk, IfErr, ◌<◌, length, take};
ghost use Rattle.std.specs.Io.{ReadsAtMost};
ghost use Rattle.std.specs.declared.io.Error.{Error};
ghost use Rattle.std.specs.declared.fs.Metadata.{Metadata};
ghost use Rattle.xxhsum_fs.specs.Calls.{AnyResult, ConsumesPiece, KeepsAll};

use std::fs::{Files, Metadata};
use std::io::Read;
use std::{fs, io};

/// An open file or directory, or another input of the system.
pub trait ReadCall {
    // A call that returns these bytes leads from the first state to the second.
    ghost gives: { Self → List ℕ → Self → Type 0 };

    // A call that fails with this error leads from the first state to the second.
    ghost fails: { Self → Error → Self → Type 0 };

    /// Makes one call: reads bytes into the front of the buffer, and returns their number, or 0 at the end.
    ///
    /// The caller proves that the buffer is not empty.
    fn read_once(&mut self, buf: &mut [u8]) -> io::Result<usize>
        requires { 0 < length buf.old }
        ensures bound { ReadsAtMost result buf.new }
        ensures gives { IfOk result (λ n. gives self.old (take n buf.new) self.new) }
        ensures fails { IfErr result (λ e. fails self.old e self.new) };
}

/// A process that may open files and directories and look up their names.
pub trait SystemCalls {
    /// An open file. It is closed when it is dropped.
    type File: ReadCall + Drop;

    /// An open directory. Its reads return each name in it with a NUL at its end, and no read ends within a name. It is
    /// closed when it is dropped.
    type Directory: ReadCall + Drop;

    // A look-up of the name that follows links has this result.
    ghost looks_up: { Self → List ℕ → Result Metadata Error → Type 0 };

    // A look-up of the name that follows no link at its end has this result.
    ghost looks_up_itself: { Self → List ℕ → Result Metadata Error → Type 0 };

    // Opening the file of this name has this result.
    ghost opens: { Self → List ℕ → Result Self.File Error → Type 0 };

    // Opening the directory of this name has this result.
    ghost opens_directory: { Self → List ℕ → Result Self.Directory Error → Type 0 };

    /// Looks up the name. Follows links.
    fn look_up(&self, name: &str) -> io::Result<Metadata>
        ensures { looks_up self.now name.now result };

    /// Looks up the name. Follows no link at its end.
    fn look_up_itself(&self, name: &str) -> io::Result<Metadata>
        ensures { looks_up_itself self.now name.now result };

    /// Opens the file of this name for reading.
    fn open(&self, name: &str) -> io::Result<Self::File>
        ensures { opens self.now name.now result };

    /// Opens the directory of this name.
    fn open_directory(&self, name: &str) -> io::Result<Self::Directory>
        ensures { opens_directory self.now name.now result };
}

/// A standard reader, each of whose reads is one call.
#[derive(Drop)]
pub struct Reads<R> {
    reader: R,
}

impl<R: Read> Reads<R> {
    ghost use Rattle.std.specs.Prelude.{◌≡◌};
    ghost use Rattle.xxhsum_fs.specs.Calls.{called_reader};

    /// Wraps this reader.
    pub fn new(reader: R) -> Reads<R>
        ensures { called_reader result ≡ reader }
    {
        Reads { reader }
    }
}

impl<R: Read> ReadCall for Reads<R> {
    ghost gives = { ConsumesPiece R.remaining };

    ghost fails = { KeepsAll R.remaining };

    fn read_once(&mut self, buf: &mut [u8]) -> io::Result<usize> {
        self.reader.read(buf)
    }
}

/// The process itself. No clause of the standard library states what its calls return.
#[derive(Clone, Copy)]
pub struct Process<'a, P> {
    process: &'a P,
}

impl<'a, P: Files> Process<'a, P> {
    /// Creates the calls of this process.
    pub fn new(process: &'a P) -> Process<'a, P> {
        Process { process }
    }
}

impl<P: Files> SystemCalls for Process<'_, P> {
    type File = Reads<P::File>;

    type Directory = Reads<P::Dir>;

    ghost looks_up = { AnyResult };

    ghost looks_up_itself = { AnyResult };

    ghost opens = { AnyResult };

    ghost opens_directory = { AnyResult };

    fn look_up(&self, name: &str) -> io::Result<Metadata> {
        fs::metadata(self.process, name)
    }

    fn look_up_itself(&self, name: &str) -> io::Result<Metadata> {
        fs::symlink_metadata(self.process, name)
    }

    fn open(&self, name: &str) -> io::Result<Reads<P::File>> {
        match fs::open(self.process, name) {
            Ok(file) => Ok(Reads::new(file)),
            Err(error) => Err(error),
        }
    }

    fn open_directory(&self, name: &str) -> io::Result<Reads<P::Dir>> {
        match self.process.open_dir(name) {
            Ok(directory) => Ok(Reads::new(directory)),
            Err(error) => Err(error),
        }
    }
}
