//! Parses the arguments.

ghost use Rattle.std.specs.Prelude.{◌≡◌, ◌+◌, IfOk};
ghost use Rattle.xxh_io.specs.Command.{blocks_command, command_of, hash_command, kind_named, number_named, resume_command, save_command, saved_kind_named, NumberFits};
ghost use Rattle.xxh_io.specs.declared.fault.Fault.TheVariants.{BadSize};

use crate::fault::Fault;
use crate::kind::{Kind, SavedKind};

/// A parsed command.
#[derive(Clone, Copy, Debug, PartialEq, Eq)]
pub enum Command<'w> {
    /// Prints the digest line of the input.
    Hash { kind: Kind, seed: u64 },
    /// Prints the saved text of XXH32 of the input.
    Save32 { seed: u32 },
    /// Prints the saved text of XXH64 of the input.
    Save64 { seed: u64 },
    /// Continues from a saved text of XXH32, and prints the digest line.
    Resume32 { json: &'w str },
    /// Continues from a saved text of XXH64, and prints the digest line.
    Resume64 { json: &'w str },
    /// Prints the digest lines of the blocks of the input.
    Blocks { size: u64 },
}

// The seed if the arguments have none.
const NO_SEED: &str = "0";

/// Parses the arguments after the program's name.
pub fn parse<'w>(words: &[&'w str]) -> Result<Command<'w>, Fault>
    ensures command { result ≡ command_of words.now }
    ensures number { IfOk result NumberFits }
{
    match words {
        [name, word] => match *name {
            "hash" => hash(word, NO_SEED),
            "save" => save(word, NO_SEED),
            "blocks" => blocks(word),
            _ => Err(Fault::Usage),
        },
        [name, kind, last] => match *name {
            "hash" => hash(kind, last),
            "save" => save(kind, last),
            "resume" => resume(kind, last),
            _ => Err(Fault::Usage),
        },
        _ => Err(Fault::Usage),
    }
}

fn hash(kind: &str, seed: &str) -> Result<Command<'static>, Fault>
    ensures command { result ≡ hash_command kind.now seed.now }
    ensures number { IfOk result NumberFits }
{
    let kind = kind_from(kind)?;
    let seed = number_from(seed, kind.most_seed(), Fault::BadSeed)?;
    Ok(Command::Hash { kind, seed })
}

fn save(kind: &str, seed: &str) -> Result<Command<'static>, Fault>
    ensures command { result ≡ save_command kind.now seed.now }
    ensures number { IfOk result NumberFits }
{
    match saved_kind_from(kind)? {
        SavedKind::X32 => {
            let seed = number_from(seed, u64::from(u32::MAX), Fault::BadSeed)?;
            Ok(Command::Save32 { seed: seed as u32 })
        }
        SavedKind::X64 => {
            let seed = number_from(seed, u64::MAX, Fault::BadSeed)?;
            Ok(Command::Save64 { seed })
        }
    }
}

fn resume<'w>(kind: &str, json: &'w str) -> Result<Command<'w>, Fault>
    ensures command { result ≡ resume_command kind.now json.entry }
    ensures number { IfOk result NumberFits }
{
    Ok(match saved_kind_from(kind)? {
        SavedKind::X32 => Command::Resume32 { json },
        SavedKind::X64 => Command::Resume64 { json },
    })
}

fn blocks(size: &str) -> Result<Command<'static>, Fault>
    ensures command { result ≡ blocks_command size.now }
    ensures number { IfOk result NumberFits }
{
    match number_from(size, u64::MAX, Fault::BadSize)? {
        0 => Err(Fault::BadSize),
        size => Ok(Command::Blocks { size }),
    }
}

// Returns the algorithm of this name.
fn kind_from(name: &str) -> Result<Kind, Fault>
    ensures { result ≡ kind_named name.now }
{
    match name {
        "32" => Ok(Kind::X32),
        "64" => Ok(Kind::X64),
        "3-64" => Ok(Kind::X3_64),
        "3-128" => Ok(Kind::X3_128),
        _ => Err(Fault::Usage),
    }
}

// Returns the algorithm of this name, if its hashers have saved states.
fn saved_kind_from(name: &str) -> Result<SavedKind, Fault>
    ensures { result ≡ saved_kind_named name.now }
{
    match name {
        "32" => Ok(SavedKind::X32),
        "64" => Ok(SavedKind::X64),
        _ => Err(Fault::Usage),
    }
}

// Parses a number in decimal digits, up to the maximum, or returns this error.
fn number_from(word: &str, most: u64, fault: Fault) -> Result<u64, Fault>
    ensures { result ≡ number_named fault (most + 1) word.now }
{
    // `parse` also accepts a sign.
    if word.starts_with('+') {
        return Err(fault);
    }
    match word.parse::<u64>() {
        Ok(number) if number <= most => Ok(number),
        _ => Err(fault),
    }
}
