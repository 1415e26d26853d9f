//! Prints the report of an audit.

ghost use Rattle.std.specs.Prelude.{◌≡◌, ◌++◌, ◌&&◌, false, decimal, IfOk, map};
ghost use Rattle.xxhsum_app.specs.Report.{PrintsRemarks, PrintsReport, are_same, class_text, counts_text, formed_text, has_objects, shown_text};
ghost use Rattle.xxhsum_audit.specs.Found.{found_of, founds_of};
ghost use Rattle.xxhsum_audit.specs.Item.{texts_of};
ghost use Rattle.xxhsum_audit.specs.Text.{Classed, Unreadable};
ghost use Rattle.xxhsum_program.specs.Command.{has_none};
ghost use Rattle.xxhsum_program.specs.Lines.{PrintsLine};

use itoa::Buffer;
use std::alloc::{AllocError, Global};
use xxh_io::streams::Sink;
use xxhsum_audit::json::{unreadable_json, verdict_json};
use xxhsum_audit::text::{unreadable_text, verdict_text};
use xxhsum_audit::verdict::{Class, Verdict, count_of};
use xxhsum_options::options::Options;
use xxhsum_program::stdout::print;
use xxhsum_program::stop::Stop;

// Prints the verdicts, the names that can't be read, and the count of each class.
pub(crate) fn print_report<W: Sink>(
    alloc: Global,
    options: Options,
    found: &[Verdict<'_>],
    unread: &[&[u8]],
    out: &mut W,
) -> Result<(), Stop>
    requires { W.has_failed out.old ≡ false }
    ensures { PrintsReport W.Sink options (founds_of found.now) (texts_of unread.now)
        out.old out.new result }
{
    if options.is_status_only {
        return Ok(());
    }
    print_verdicts(alloc, options, found, out)?;
    print_unread(alloc, options, unread, out)?;
    let counts = counts_line(alloc, options, found, unread)?;
    print(&counts, out)
}

// Prints the texts of the verdicts.
fn print_verdicts<W: Sink>(
    alloc: Global,
    options: Options,
    found: &[Verdict<'_>],
    out: &mut W,
) -> Result<(), Stop>
    requires { W.has_failed out.old ≡ false }
    ensures prints { PrintsRemarks W.Sink options (map Classed (founds_of found.now))
        out.old out.new result }
    ensures works { IfOk result (λ _. W.has_failed out.new ≡ false) }
{
    for verdict in found {
        print_one(alloc, options, *verdict, out)?;
    }
    Ok(())
}

// Prints the texts of the names that can't be read.
fn print_unread<W: Sink>(
    alloc: Global,
    options: Options,
    unread: &[&[u8]],
    out: &mut W,
) -> Result<(), Stop>
    requires { W.has_failed out.old ≡ false }
    ensures prints { PrintsRemarks W.Sink options (map Unreadable (texts_of unread.now))
        out.old out.new result }
    ensures works { IfOk result (λ _. W.has_failed out.new ≡ false) }
{
    for name in unread {
        print_name(alloc, options, name, out)?;
    }
    Ok(())
}

// Prints the text of a verdict. With `-q`, files that are the same have none.
fn print_one<W: Sink>(
    alloc: Global,
    options: Options,
    verdict: Verdict<'_>,
    out: &mut W,
) -> Result<(), Stop>
    requires { W.has_failed out.old ≡ false }
    ensures prints { PrintsLine W.Sink (shown_text options (Classed (found_of verdict.entry)))
        out.old out.new result }
    ensures works { IfOk result (λ _. W.has_failed out.new ≡ false) }
{
    if options.is_quiet && verdict.class() == Class::Same {
        return Ok(());
    }
    let text = formed_verdict(alloc, options, verdict)?;
    print(&text, out)
}

// Prints the text of a name that can't be read.
fn print_name<W: Sink>(
    alloc: Global,
    options: Options,
    name: &[u8],
    out: &mut W,
) -> Result<(), Stop>
    requires { W.has_failed out.old ≡ false }
    ensures prints { PrintsLine W.Sink (shown_text options (Unreadable name.now))
        out.old out.new result }
    ensures works { IfOk result (λ _. W.has_failed out.new ≡ false) }
{
    let text = formed_name(alloc, options, name)?;
    print(&text, out)
}

// True if results are JSON objects.
fn has_objects(options: Options) -> bool
    ensures { result ≡ has_objects options }
{
    options.is_json && !options.ends_in_nul
}

// Returns the text of a verdict.
fn formed_verdict(
    alloc: Global,
    options: Options,
    verdict: Verdict<'_>,
) -> Result<Vec<u8>, AllocError>
    ensures { IfOk result
        (λ text. text.items ≡ formed_text options (Classed (found_of verdict.entry))) }
{
    if has_objects(options) {
        verdict_json(alloc, verdict, options.is_little_endian)
    } else {
        verdict_text(alloc, verdict, options.ends_in_nul)
    }
}

// Returns the text of a name that can't be read.
fn formed_name(alloc: Global, options: Options, name: &[u8]) -> Result<Vec<u8>, AllocError>
    ensures { IfOk result (λ text. text.items ≡ formed_text options (Unreadable name.now)) }
{
    if has_objects(options) {
        unreadable_json(alloc, name)
    } else {
        unreadable_text(alloc, name, options.ends_in_nul)
    }
}

// Returns the text with the count of each class; JSON has none.
fn counts_line(
    alloc: Global,
    options: Options,
    found: &[Verdict<'_>],
    unread: &[&[u8]],
) -> Result<Vec<u8>, AllocError>
    ensures { IfOk result
        (λ line. line.items ≡ counts_text options (founds_of found.now) (texts_of unread.now)) }
{
    let mut line = Vec::new(alloc);
    if has_objects(options) {
        return Ok(line);
    }
    put_count(&mut line, Class::Same, found, b" same, ")?;
    put_count(&mut line, Class::Changed, found, b" changed, ")?;
    put_count(&mut line, Class::Moved, found, b" moved, ")?;
    put_count(&mut line, Class::Copied, found, b" copied, ")?;
    put_count(&mut line, Class::New, found, b" new, ")?;
    put_count(&mut line, Class::Missing, found, b" missing, ")?;
    put_number(&mut line, unread.len())?;
    line.extend_from_slice(b" unreadable")?;
    line.push(if options.ends_in_nul { 0 } else { b'\n' })?;
    Ok(line)
}

fn put_count(
    line: &mut Vec<u8>,
    class: Class,
    found: &[Verdict<'_>],
    word: &[u8],
) -> Result<(), AllocError>
    ensures { IfOk result (λ _. line.new.items
        ≡ line.old.items ++ class_text class (founds_of found.now) word.now) }
{
    put_number(line, count_of(class, found))?;
    line.extend_from_slice(word)
}

fn put_number(line: &mut Vec<u8>, number: usize) -> Result<(), AllocError>
    ensures { IfOk result (λ _. line.new.items ≡ line.old.items ++ decimal number) }
{
    let mut digits = Buffer::new();
    line.extend_from_slice(digits.format(number).as_bytes())
}

// True if all are the same, and no name is unreadable.
pub(crate) fn is_good(found: &[Verdict<'_>], unread: &[&[u8]]) -> bool
    ensures { result ≡ (are_same (founds_of found.now) && has_none (texts_of unread.now)) }
{
    are_same(found) && unread.is_empty()
}

// True if all are the same.
fn are_same(found: &[Verdict<'_>]) -> bool
    ensures { result ≡ are_same (founds_of found.now) }
{
    for verdict in found {
        if verdict.class() != Class::Same {
            return false;
        }
    }
    true
}
