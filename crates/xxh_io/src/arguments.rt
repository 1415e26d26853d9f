//! The arguments of a process.

ghost use Rattle.std.specs.Prelude.{IfOk, map, string_bytes, vec_items};
ghost use Rattle.std.specs.IoError.{error_kind};
ghost use Rattle.xxh_io.specs.Process.{AreWords, IsArgumentFault};

use crate::fault::Fault;
use std::alloc::{AllocError, Global};
use std::io;
use std::io::ErrorKind;

/// Returns the error for missing arguments: one is not UTF-8, or out of memory.
pub fn argument_fault(error: io::Error) -> Fault
    ensures { IsArgumentFault (error_kind error) result }
{
    match error.kind() {
        ErrorKind::InvalidData => Fault::Usage,
        _ => Fault::OutOfMemory,
    }
}

/// Returns the arguments after the program's name. Fails if out of memory.
pub fn words_after_name(alloc: Global, args: &[String]) -> Result<Vec<&str>, AllocError>
    ensures { IfOk result (λ words. AreWords (map string_bytes args.now) (vec_items words)) }
{
    let after_name = match args.split_first() {
        Some((_, rest)) => rest,
        None => args,
    };
    let mut words = Vec::new(alloc);
    for word in after_name {
        words.push(word.as_str())?;
    }
    Ok(words)
}
