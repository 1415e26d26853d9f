//! Saved texts of the input's hasher, and digests that continue from one.

ghost use Rattle.std.specs.Prelude.{◌≡◌, [], ◌∷◌, ◌++◌, false, string_bytes};
ghost use Rattle.xxh_program.specs.Filter.{filter_of};
ghost use Rattle.xxh_program.specs.StateFaults.{form_fault_32, form_fault_64};
ghost use Rattle.xxh_program.specs.States.{Prints, Restores32, Restores64, Resumes32, Resumes64, Saves32, Saves64};

use crate::program::hasher_32::{digest_from_32, read_on_32};
use crate::program::hasher_64::{digest_from_64, read_on_64};
use std::alloc::Global;
use twox_hash::{XxHash32, XxHash64, xxhash32, xxhash64};
use xxh_io::fault::Fault;
use xxh_io::streams::{Sink, Source};
use xxh_io::write::write_all;

// Maximum number of reads that the program makes.
pub(crate) const MAX_READS: u64 = u64::MAX;

// Prints the saved text of XXH32 of the input, and a newline.
pub(crate) fn save_32<R: Source, W: Sink>(
    alloc: Global,
    seed: u32,
    r: &mut R,
    out: &mut W,
) -> Result<(), Fault>
    requires reader { R.has_failed r.old ≡ false }
    requires writer { W.has_failed out.old ≡ false }
    ensures { Saves32 (filter_of R.Source W.Sink r.old r.new out.old out.new) seed result }
{
    let hasher = read_on_32(XxHash32::with_seed(seed), MAX_READS, r)?;
    let text = hasher.to_state().to_json(alloc)?;
    print_line(text, out)
}

// Prints the saved text of XXH64 of the input, and a newline.
pub(crate) fn save_64<R: Source, W: Sink>(
    alloc: Global,
    seed: u64,
    r: &mut R,
    out: &mut W,
) -> Result<(), Fault>
    requires reader { R.has_failed r.old ≡ false }
    requires writer { W.has_failed out.old ≡ false }
    ensures { Saves64 (filter_of R.Source W.Sink r.old r.new out.old out.new) seed result }
{
    let hasher = read_on_64(XxHash64::with_seed(seed), MAX_READS, r)?;
    let text = hasher.to_state().to_json(alloc)?;
    print_line(text, out)
}

// Writes the text and a newline.
fn print_line<W: Sink>(text: String, out: &mut W) -> Result<(), Fault>
    requires { W.has_failed out.old ≡ false }
    ensures { Prints W.Sink (string_bytes text ++ 10 ∷ []) out.old out.new result }
{
    let mut line = text;
    line.push('\n')?;
    Ok(write_all(line.as_bytes(), out)?)
}

// Continues from a saved text of XXH32, and prints the digest line.
pub(crate) fn resume_32<R: Source, W: Sink>(
    alloc: Global,
    json: &str,
    r: &mut R,
    out: &mut W,
) -> Result<(), Fault>
    requires reader { R.has_failed r.old ≡ false }
    requires writer { W.has_failed out.old ≡ false }
    ensures { Resumes32 (filter_of R.Source W.Sink r.old r.new out.old out.new) json.now result }
{
    let hasher = restored_32(alloc, json)?;
    Ok(digest_from_32(hasher, MAX_READS, r, out)?)
}

// Continues from a saved text of XXH64, and prints the digest line.
pub(crate) fn resume_64<R: Source, W: Sink>(
    alloc: Global,
    json: &str,
    r: &mut R,
    out: &mut W,
) -> Result<(), Fault>
    requires reader { R.has_failed r.old ≡ false }
    requires writer { W.has_failed out.old ≡ false }
    ensures { Resumes64 (filter_of R.Source W.Sink r.old r.new out.old out.new) json.now result }
{
    let hasher = restored_64(alloc, json)?;
    Ok(digest_from_64(hasher, MAX_READS, r, out)?)
}

fn restored_32(alloc: Global, json: &str) -> Result<XxHash32, Fault>
    ensures { Restores32 json.now result }
{
    let state = match xxhash32::SavedState::from_json(alloc, json) {
        Ok(state) => state,
        Err(error) => return Err(form_fault_32(error)),
    };
    match XxHash32::from_state(state) {
        Ok(hasher) => Ok(hasher),
        Err(_) => Err(Fault::BadState),
    }
}

fn restored_64(alloc: Global, json: &str) -> Result<XxHash64, Fault>
    ensures { Restores64 json.now result }
{
    let state = match xxhash64::SavedState::from_json(alloc, json) {
        Ok(state) => state,
        Err(error) => return Err(form_fault_64(error)),
    };
    match XxHash64::from_state(state) {
        Ok(hasher) => Ok(hasher),
        Err(_) => Err(Fault::BadState),
    }
}

// Returns the error of an invalid saved text of XXH32.
fn form_fault_32(error: xxhash32::FormError) -> Fault
    ensures { result ≡ form_fault_32 error }
{
    match error {
        xxhash32::FormError::Text => Fault::BadState,
        xxhash32::FormError::Memory => Fault::OutOfMemory,
    }
}

// Returns the error of an invalid saved text of XXH64.
fn form_fault_64(error: xxhash64::FormError) -> Fault
    ensures { result ≡ form_fault_64 error }
{
    match error {
        xxhash64::FormError::Text => Fault::BadState,
        xxhash64::FormError::Memory => Fault::OutOfMemory,
    }
}
