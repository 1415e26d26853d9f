//! Properties that users rely on, as functions with contracts.

ghost use Rattle.std.specs.Prelude.{◌≡◌, ◌<◌, ◌^◌, true, IfOk};
ghost use Rattle.xxh_io.specs.Kind.{digits_of};
ghost use Rattle.xxhsum_line.specs.Entry.{Says};
ghost use Rattle.xxhsum_line.specs.Laws.{DigestsDiffer, EscapeIsUndone, MessageIsOneLine, NotBothForms, PlainNamesStay, PlainPartsAreOne, PlainTextsStay, PrintedIsAccepted, PrintedIsNoComment, PrintedIsOneLine, SaysOneThing, TaggedPartsAreOne};
ghost use Rattle.xxhsum_line.specs.Parts.{Lacks};

use crate::entry::{Entry, Meaning, meaning_of};
use crate::printed::{Shape, digest_line};
use std::alloc::{AllocError, Global};
use xxh_io::kind::Kind;

/// Lemma (no code), the laws of lines: what is printed is accepted; a printed line is one line and no comment; a text
/// that is reported as one line is one, whatever names it has; an escape is undone; a line has at most one choice of
/// parts, and at most one meaning; two digests have two texts.
pub fn laws_of_lines()
    ensures printed_is_accepted { PrintedIsAccepted }
    ensures printed_is_one_line { PrintedIsOneLine }
    ensures message_is_one_line { MessageIsOneLine }
    ensures plain_texts_stay { PlainTextsStay }
    ensures printed_is_no_comment { PrintedIsNoComment }
    ensures escape_is_undone { EscapeIsUndone }
    ensures plain_names_stay { PlainNamesStay }
    ensures says_one_thing { SaysOneThing }
    ensures digests_differ { DigestsDiffer }
    ensures plain_parts_are_one { PlainPartsAreOne }
    ensures tagged_parts_are_one { TaggedPartsAreOne }
    ensures not_both_forms { NotBothForms }
{}

/// True if the printed line, without its newline, is parsed as the same algorithm, digest and name. It is, for each
/// name with no NUL and each digest of the algorithm. Returns `AllocError` if out of memory.
pub fn is_read_back(
    alloc: Global,
    kind: Kind,
    shape: Shape,
    value: u128,
    name: &[u8],
) -> Result<bool, AllocError>
    requires in_range { value < 16 ^ digits_of kind }
    requires no_nul { Lacks 0 name.now }
    ensures { IfOk result (λ is_same. is_same ≡ true) }
{
    let line = digest_line(alloc, kind, shape, value, name)?;
    let bytes = line.as_slice();
    match bytes.strip_suffix(b"\n") {
        Some(text) => is_read_as(alloc, text, shape.is_little, kind, value, name),
        None => Ok(false),
    }
}

// True if the line is parsed as this algorithm, digest and name.
fn is_read_as(
    alloc: Global,
    text: &[u8],
    is_little: bool,
    kind: Kind,
    value: u128,
    name: &[u8],
) -> Result<bool, AllocError>
    requires { Says is_little text.now kind value name.now }
    ensures { IfOk result (λ is_same. is_same ≡ true) }
{
    Ok(match meaning_of(alloc, text, is_little)? {
        Meaning::Entry(entry) => is_same(&entry, kind, value, name),
        Meaning::Comment | Meaning::Malformed => false,
    })
}

fn is_same(entry: &Entry, kind: Kind, value: u128, name: &[u8]) -> bool
    ensures { let e = entry.now in
        e.kind ≡ kind → e.value ≡ value → e.name.items ≡ name.now → result ≡ true }
{
    entry.kind == kind && entry.value == value && entry.name.as_slice() == name
}
