//! The trait of file stores.

ghost use Rattle.std.specs.Prelude.{◌≡◌, false, List, ℕ, Bool, Option, IfOk, IfErr};
ghost use Rattle.xxh_io.specs.declared.refusal.Refusal.{Refusal};

use xxh_io::refusal::Refusal;
use xxh_io::streams::Source;

/// Files by name. A name is bytes, as for the system, and needn't be UTF-8.
pub trait Store {
    /// An open file. It is closed when it is dropped.
    type File: Source + Drop;

    // The name opens this file, as it is before the first read.
    ghost opens: { Self → List ℕ → Self.File → Type 0 };

    // The name opens no file, for this reason.
    ghost refuses: { Self → List ℕ → Refusal → Type 0 };

    // True if the name is a directory, as far as the store can determine.
    ghost holds_directory: { Self → List ℕ → Bool → Type 0 };

    // The size of the file of this name, as far as the store can determine before reading it.
    ghost sizes: { Self → List ℕ → Option ℕ → Type 0 };

    /// True if the name is a directory.
    fn is_directory(&self, name: &[u8]) -> bool
        ensures { holds_directory self.now name.now result };

    /// Returns the size in bytes of the file of this name, as far as the store can determine before reading it. Only
    /// progress uses it.
    fn size(&self, name: &[u8]) -> Option<u64>
        ensures { sizes self.now name.now result };

    /// Opens the file of this name for reading. Its first read may still fail, as a directory's does. An error has the
    /// reason.
    fn open(&self, name: &[u8]) -> Result<Self::File, Refusal>
        ensures opens { IfOk result (λ file. opens self.now name.now file) }
        ensures works { IfOk result (λ file. Self.File.has_failed file ≡ false) }
        ensures refuses { IfErr result (λ why. refuses self.now name.now why) };
}
