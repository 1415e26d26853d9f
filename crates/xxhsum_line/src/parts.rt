//! The parts of a line.

ghost use Rattle.std.specs.Prelude.{◌≡◌, ◌++◌, ◌∷◌, MatchOption};
ghost use Rattle.xxhsum_line.specs.Parts.{up_to_nul, without_return, Lacks, HasParts, HasNoParts, HasNoTaggedParts, IsTagged, IsTaggedWith};

use memchr::{memchr, memrchr};

/// The parts of a line.
#[derive(Clone, Copy, Debug, PartialEq, Eq)]
pub enum Parts<'a> {
    /// Digits, a space, any byte except `(`, and the name of a file.
    Plain {
        digits: &'a [u8],
        name: &'a [u8],
    },
    /// A tag, the name of a file in parentheses, an equals sign and digits.
    Tagged {
        tag: &'a [u8],
        name: &'a [u8],
        digits: &'a [u8],
    },
}

/// Returns the line up to its first NUL, or all of it if it has none.
#[tactic(auto, using(crate::proofs::LackFacts::up_to_nul_cut, crate::proofs::LackFacts::up_to_nul_whole))]
pub fn up_to_nul(line: &[u8]) -> &[u8]
    ensures { result.now ≡ up_to_nul line.now }
{
    match split_at_first(0, line) {
        Some((front, _)) => front,
        None => line,
    }
}

/// Returns the line without the carriage return at its end, if it has one.
#[tactic(auto, using(crate::proofs::LackFacts::without_return_ends, crate::proofs::LackFacts::without_return_stays))]
pub fn without_return(line: &[u8]) -> &[u8]
    ensures { result.now ≡ without_return line.now }
{
    match line {
        [front @ .., b'\r'] => front,
        _ => line,
    }
}

/// Splits a line, without its newline, into its parts. `None` if it has neither form.
#[tactic(auto, using(crate::proofs::PartFacts::no_parts_without_space, crate::proofs::PartFacts::parts_in_brackets))]
pub fn parts_of(line: &[u8]) -> Option<Parts<'_>>
    ensures { MatchOption result (HasNoParts line.now) (HasParts line.now) }
{
    let (first, rest) = split_at_first(b' ', line)?;
    match rest {
        [] => None,
        [b'(', inside @ ..] => tagged_parts(first, inside),
        [_, name @ ..] => Some(Parts::Plain {
            digits: first,
            name,
        }),
    }
}

// Returns the parts of a tagged line with this tag, a space, `(` and then these bytes.
#[tactic(auto, using(crate::proofs::PartFacts::no_end_without_space))]
fn tagged_parts<'a>(tag: &'a [u8], inside: &'a [u8]) -> Option<Parts<'a>>
    ensures { MatchOption result (HasNoTaggedParts inside.now) (IsTaggedWith tag.now inside.now) }
{
    let (before, digits) = split_at_last_space(inside)?;
    let name = before.strip_suffix(b") =")?;
    Some(Parts::Tagged { tag, name, digits })
}

/// Splits bytes at the first byte of this value. `None` if there is none.
#[tactic(auto, using(crate::proofs::LackFacts::lacks_nowhere))]
pub fn split_at_first(byte: u8, bytes: &[u8]) -> Option<(&[u8], &[u8])>
    ensures { MatchOption result (Lacks byte bytes.now)
        (λ parts. (bytes.now ≡ parts.0.now ++ byte ∷ parts.1.now) × Lacks byte parts.0.now) }
{
    let place = memchr(byte, bytes)?;
    Some((&bytes[..place], &bytes[place + 1..]))
}

// Splits bytes at the last space.
#[tactic(auto, using(crate::proofs::LackFacts::lacks_nowhere))]
fn split_at_last_space(line: &[u8]) -> Option<(&[u8], &[u8])>
    ensures { MatchOption result (Lacks 32 line.now)
        (λ parts. (line.now ≡ parts.0.now ++ 32 ∷ parts.1.now) × Lacks 32 parts.1.now) }
{
    let place = memrchr(b' ', line)?;
    Some((&line[..place], &line[place + 1..]))
}
