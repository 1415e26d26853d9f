//! Checks lists of checksum lines against the files that they name.

ghost use Rattle.std.specs.Prelude.{◌≡◌, ◌<◌, ◌≤◌, [], true, List, ℕ, Option, false, length, map, nat_eq, IfErr, IfOk, if◌then◌else◌};
ghost use Rattle.xxhsum_program.specs.Prelude.{Eprints, one_line};
ghost use Rattle.xxhsum_program.specs.CheckList.{AnswersList, AnswersOutcome, ChecksLine, FindsLines, IsListOutcome, ListOutcome, ReportsLines, SaysList, SaysLists, line_check, outcome_events};
ghost use Rattle.xxhsum_program.specs.Files.{files_of, input_of};
ghost use Rattle.xxhsum_program.specs.Findings.{Finding, Improper, IsFinding, TooLong, count_one, count_proper, no_findings, with_broken_end};
ghost use Rattle.xxhsum_program.specs.Lines.{PrintsLine};
ghost use Rattle.xxhsum_program.specs.LinesView.{IsGiven};
ghost use Rattle.xxhsum_program.specs.ListEnd.{ListEnd};
ghost use Rattle.xxhsum_program.specs.ListMessages.{count_text, finding_events, found_text, is_silent, line_message, lines_events, list_events, printed_summary, summary_events, summary_text, unread_text, unverified_line, unverified_text};
ghost use Rattle.xxhsum_program.specs.Order.{Emits, EmitsAll, EmitsTo, Reported, effect_of, rules_of};
ghost use Rattle.xxhsum_program.specs.ProgressReader.{source_of};
ghost use Rattle.xxhsum_program.specs.Report.{has_no_line, is_good, is_unverified, passes};

use crate::context::Context;
use crate::entry::{Found, compare};
use crate::lines::{Lines, Next};
use crate::outcome::OFFERED;
use crate::progress_reader::{ProgressDisplay, ProgressReader};
use crate::stderr::eprint_line;
use crate::stdout::{line_of, print, print_line};
use crate::stop::Stop;
use crate::streams::Streams;
use crate::terminal::TimedSink;
use itoa::Buffer;
use std::alloc::{AllocError, Global};
use xxh_io::heap::buffer;
use xxh_io::streams::{Sink, Source};
use xxh_io::waiting::Waiting;
use xxhsum_fs::store::Store;
use xxhsum_line::entry::{Meaning, meaning_of};
use xxhsum_options::options::Options;
use xxhsum_output::output::Output;

/// Counts of a list's lines, by result.
#[derive(Clone, Copy, Debug, PartialEq, Eq)]
pub struct Report {
    /// Well-formed lines.
    pub proper: u64,
    /// Malformed lines, including those longer than 32,767 bytes.
    pub improper: u64,
    /// Well-formed lines whose file could not be opened or read to its end. With `--ignore-missing`, missing files are
    /// not counted.
    pub unread: u64,
    /// Well-formed lines whose file matches.
    pub same: u64,
    /// Well-formed lines whose file doesn't match.
    pub different: u64,
    /// True if a line is too long to be checked, or a read of the list failed.
    pub is_broken: bool,
}

impl Report {
    // Returns the report of an empty list.
    fn new() -> Report
        ensures { result ≡ no_findings }
    {
        Report {
            proper: 0,
            improper: 0,
            unread: 0,
            same: 0,
            different: 0,
            is_broken: false,
        }
    }

    // Counts a well-formed line by `found`. A missing file that is ignored is counted neither as read nor as unread.
    fn count(&mut self, found: &Found, ignores_missing: bool)
        ensures { self.new ≡ count_proper ignores_missing self.old found.now }
    {
        self.proper = self.proper.saturating_add(1);
        match found {
            Found::Same => self.same = self.same.saturating_add(1),
            Found::Different => self.different = self.different.saturating_add(1),
            Found::Unread(reason) => {
                if !(ignores_missing && reason.is_missing()) {
                    self.unread = self.unread.saturating_add(1);
                }
            }
        }
    }

    // Returns this report for a list that breaks off.
    fn with_broken_end(self) -> Report
        ensures { result ≡ with_broken_end self }
    {
        Report {
            is_broken: true,
            ..self
        }
    }

    /// True if the list is good: it has a well-formed line, each file was read and matches, no line is too long, no
    /// read of the list failed, and, under `--strict`, no line is malformed.
    pub fn is_good(&self, is_strict: bool) -> bool
        ensures { result ≡ is_good is_strict self.now }
    {
        self.proper > 0
            && self.different == 0
            && self.unread == 0
            && (!is_strict || self.improper == 0)
            && !self.is_broken
    }

    // True if the list has no well-formed line, and didn't break off before its first line except comments.
    fn has_no_line(&self) -> bool
        ensures { result ≡ has_no_line self.now }
    {
        self.proper == 0 && !(self.is_broken && self.improper == 0)
    }

    // True if `--ignore-missing` is given and no file matches.
    fn is_unverified(&self, ignores_missing: bool) -> bool
        ensures { result ≡ is_unverified ignores_missing self.now }
    {
        ignores_missing && self.same == 0
    }

    // True if the list is good by `options`. With `--ignore-missing` at least one file has to match.
    fn passes(&self, options: Options) -> bool
        ensures { result ≡ passes options self.now }
    {
        self.is_good(options.is_strict) && !self.is_unverified(options.ignores_missing)
    }
}

// The message about a line longer than 32,767 bytes.
const TOO_LONG: &[u8] = b"Line too long";

// A line of a list. Its text is `None` if it is too long.
#[derive(Clone, Copy)]
struct ListLine<'a> {
    number: u64,
    text: Option<&'a [u8]>,
}

// The inputs of the check of one list.
#[derive(Clone, Copy)]
struct ListCheck<'a, S, T> {
    alloc: Global,
    store: &'a S,
    options: Options,
    progress: ProgressDisplay<T>,
    name: &'a [u8],
}

impl<S: Store, T: TimedSink> ListCheck<'_, S, T> {
    // Checks the lines of `source`, prints and reports the results, and returns whether the list is good.
    fn check<R: Source + Drop, W: Output, E: Sink>(
        &self,
        source: ProgressReader<R, T>,
        streams: &mut Streams<W, E>,
    ) -> Result<bool, Stop>
        requires { W.has_failed streams.old.out ≡ false }
        ensures checks { (findings : List Finding) × (end : Option ListEnd)
            × FindsLines (IsFinding (files_of S.Store S.File.Source self.now.store.now)
            self.now.options.is_little_endian) R.Source (source_of source) findings end
            × AnswersList self.now.options findings end result
            × EmitsTo (rules_of W.Sink W.held W.has_lost E.Sink)
            (list_events self.now.options self.now.name.now findings end)
            streams.old streams.new result }
        ensures works { IfOk result (λ _. W.has_failed streams.new.out ≡ false) }
    {
        let unverified = self.unverified_line()?;
        let report = self.check_lines(source, streams)?;
        self.sum_up(&report, &unverified, streams)?;
        Ok(report.passes(self.options))
    }

    // Checks the lines of `source`: up to its end, to a line without an end, or to the last line number.
    #[inline(never)]
    fn check_lines<R: Source + Drop, W: Output, E: Sink>(
        &self,
        source: ProgressReader<R, T>,
        streams: &mut Streams<W, E>,
    ) -> Result<Report, Stop>
        requires { W.has_failed streams.old.out ≡ false }
        ensures checks { (findings : List Finding) × (end : Option ListEnd)
            × FindsLines (IsFinding (files_of S.Store S.File.Source self.now.store.now)
            self.now.options.is_little_endian) R.Source (source_of source) findings end
            × ReportsLines self.now.options.ignores_missing findings end result
            × EmitsTo (rules_of W.Sink W.held W.has_lost E.Sink)
            (lines_events self.now.options self.now.name.now findings end)
            streams.old streams.new result }
        ensures works { IfOk result (λ _. W.has_failed streams.new.out ≡ false) }
    {
        let mut room = buffer(self.alloc, OFFERED)?;
        let buf = room.as_mut_slice();
        let mut lines = Lines::new(source);
        let mut report = Report::new();
        for number in 1..u64::MAX {
            match lines.next() {
                Next::End => return Ok(report),
                Next::Failed => {
                    let failure = lines.failure();
                    self.report_line(number, failure.text(), streams);
                    return Ok(report.with_broken_end());
                }
                Next::Endless => {
                    self.report_line(number, TOO_LONG, streams);
                    return Ok(report.with_broken_end());
                }
                Next::Line => {
                    let line = ListLine {
                        number,
                        text: lines.line(),
                    };
                    self.check_line(line, &mut report, buf, streams)?;
                }
            }
        }
        Ok(report)
    }

    // Compares the file that `line` names, counts the line and prints the result. Comments are not counted.
    fn check_line<W: Output, E: Sink>(
        &self,
        line: ListLine<'_>,
        report: &mut Report,
        buf: &mut [u8],
        streams: &mut Streams<W, E>,
    ) -> Result<(), Stop>
        requires room { 0 < length buf.old }
        requires writer { W.has_failed streams.old.out ≡ false }
        ensures checks { (text : List ℕ) → IsGiven text line.entry.text → ChecksLine
            (IsFinding (files_of S.Store S.File.Source self.now.store.now)
            self.now.options.is_little_endian text)
            (line_check self.now.options self.now.name.now line.entry.number report.old report.new)
            (rules_of W.Sink W.held W.has_lost E.Sink) streams.old streams.new result }
        ensures works { IfOk result (λ _. W.has_failed streams.new.out ≡ false) }
    {
        let Some(text) = line.text else {
            self.count_too_long(line.number, report, streams);
            return Ok(());
        };
        let entry = match meaning_of(self.alloc, text, self.options.is_little_endian)? {
            Meaning::Entry(entry) => entry,
            Meaning::Comment => return Ok(()),
            Meaning::Malformed => {
                self.count_improper(line.number, report, streams);
                return Ok(());
            }
        };
        let found = compare(self.store, self.progress, &entry, buf);
        report.count(&found, self.options.ignores_missing);
        if is_silent(self.options, &found) {
            return Ok(());
        }
        self.print_found(line.number, &entry.name, &found, &mut streams.out)
    }

    // Counts a malformed line. Reports it if `--warn` is given.
    fn count_improper<W: Output, E: Sink>(
        &self,
        number: u64,
        report: &mut Report,
        streams: &mut Streams<W, E>,
    )
        requires { W.has_failed streams.old.out ≡ false }
        ensures emits { EmitsAll (rules_of W.Sink W.held W.has_lost E.Sink)
            (finding_events self.now.options self.now.name.now number Improper)
            streams.old streams.new }
        ensures works { W.has_failed streams.new.out ≡ false }
        ensures counts { report.new
            ≡ count_one self.now.options.ignores_missing report.old Improper }
    {
        report.improper = report.improper.saturating_add(1);
        if self.options.warns {
            self.report_line(number, b"Improperly formatted checksum line", streams);
        }
    }

    // Counts a line that is too long, and reports it.
    fn count_too_long<W: Output, E: Sink>(
        &self,
        number: u64,
        report: &mut Report,
        streams: &mut Streams<W, E>,
    )
        requires { W.has_failed streams.old.out ≡ false }
        ensures emits { EmitsAll (rules_of W.Sink W.held W.has_lost E.Sink)
            (finding_events self.now.options self.now.name.now number TooLong)
            streams.old streams.new }
        ensures works { W.has_failed streams.new.out ≡ false }
        ensures counts { report.new
            ≡ count_one self.now.options.ignores_missing report.old TooLong }
    {
        *report = Report {
            improper: report.improper.saturating_add(1),
            ..report.with_broken_end()
        };
        self.report_line(number, TOO_LONG, streams);
    }

    // Reports what is wrong with line `number`.
    fn report_line<W: Output, E: Sink>(&self, number: u64, what: &[u8], streams: &mut Streams<W, E>)
        requires { W.has_failed streams.old.out ≡ false }
        ensures reports { Emits (rules_of W.Sink W.held W.has_lost E.Sink)
            (Reported (line_message self.now.name.now number what.now)) streams.old streams.new }
        ensures works { W.has_failed streams.new.out ≡ false }
    {
        streams.release();
        eprint_line_error(self.name, number, what, streams.messages());
    }

    // Prints the result of line `number`.
    fn print_found<W: Output>(
        &self,
        number: u64,
        name: &[u8],
        found: &Found,
        out: &mut W,
    ) -> Result<(), Stop>
        requires { W.has_failed out.old ≡ false }
        ensures prints { PrintsLine W.Sink
            (one_line (found_text self.now.name.now number name.now found.now))
            out.old out.new result }
        ensures works { IfOk result (λ _. W.has_failed out.new ≡ false) }
    {
        match found {
            Found::Same => print_line(self.alloc, &[name, b": OK"], out),
            Found::Different => print_line(self.alloc, &[name, b": FAILED"], out),
            Found::Unread(reason) => {
                print_unread(self.alloc, self.name, number, name, reason.text(), out)
            }
        }
    }

    // Returns the line "no file was verified".
    fn unverified_line(&self) -> Result<Vec<u8>, AllocError>
        ensures { IfOk result (λ line. line.items ≡ unverified_line self.now.name.now) }
    {
        line_of(self.alloc, &[self.name, b": no file was verified"])
    }

    // Reports a list without a well-formed line, unless it broke off before, and prints the summary of a list.
    fn sum_up<W: Output, E: Sink>(
        &self,
        report: &Report,
        unverified: &[u8],
        streams: &mut Streams<W, E>,
    ) -> Result<(), Stop>
        requires line { unverified.now ≡ unverified_line self.now.name.now }
        requires writer { W.has_failed streams.old.out ≡ false }
        ensures emits { EmitsTo (rules_of W.Sink W.held W.has_lost E.Sink)
            (summary_events self.now.options self.now.name.now report.now)
            streams.old streams.new result }
        ensures works { IfOk result (λ _. W.has_failed streams.new.out ≡ false) }
    {
        if report.has_no_line() {
            streams.report(&[
                self.name,
                b": no properly formatted xxHash checksum lines found",
            ]);
        }
        self.print_summary(report, unverified, &mut streams.out)
    }

    // Prints the summary of a list.
    #[tactic(auto, using(crate::proofs::LineEndFacts::line_join, crate::proofs::LineEndFacts::line_more))]
    fn print_summary<W: Output>(
        &self,
        report: &Report,
        unverified: &[u8],
        out: &mut W,
    ) -> Result<(), Stop>
        requires line { unverified.now ≡ unverified_line self.now.name.now }
        requires writer { W.has_failed out.old ≡ false }
        ensures prints { PrintsLine W.Sink
            (summary_text self.now.options self.now.name.now report.now) out.old out.new result }
        ensures works { IfOk result (λ _. W.has_failed out.new ≡ false) }
        ensures only { IfErr result (λ stop. stop ≡ Stop.WriteFailed) }
    {
        self.print_counts(report, out)?;
        self.print_unverified(report, unverified, out)
    }

    // Prints `unverified` if `--ignore-missing` is given and no file matches.
    #[tactic(auto, using(crate::proofs::LineEndFacts::unverified_is))]
    fn print_unverified<W: Output>(
        &self,
        report: &Report,
        unverified: &[u8],
        out: &mut W,
    ) -> Result<(), Stop>
        requires line { unverified.now ≡ unverified_line self.now.name.now }
        requires writer { W.has_failed out.old ≡ false }
        ensures prints { PrintsLine W.Sink
            (unverified_text self.now.options self.now.name.now report.now) out.old out.new result }
        ensures works { IfOk result (λ _. W.has_failed out.new ≡ false) }
        ensures only { IfErr result (λ stop. stop ≡ Stop.WriteFailed) }
    {
        if report.is_unverified(self.options.ignores_missing) {
            return print(unverified, out);
        }
        Ok(())
    }

    // Prints the numbers of malformed lines, unread files and mismatches, unless no line is well-formed.
    fn print_counts<W: Output>(&self, report: &Report, out: &mut W) -> Result<(), Stop>
        requires { W.has_failed out.old ≡ false }
        ensures prints { PrintsLine W.Sink (printed_summary self.now.options report.now)
            out.old out.new result }
        ensures works { IfOk result (λ _. W.has_failed out.new ≡ false) }
        ensures only { IfErr result (λ stop. stop ≡ Stop.WriteFailed) }
    {
        if report.proper == 0 || self.options.is_status_only {
            return Ok(());
        }
        print_count(
            report.improper,
            b" line is improperly formatted\n",
            b" lines are improperly formatted\n",
            out,
        )?;
        print_count(
            report.unread,
            b" listed file could not be read\n",
            b" listed files could not be read\n",
            out,
        )?;
        print_count(
            report.different,
            b" computed checksum did NOT match\n",
            b" computed checksums did NOT match\n",
            out,
        )
    }
}

// True if nothing is printed about a file.
fn is_silent(options: Options, found: &Found) -> bool
    ensures { result ≡ is_silent options found.now }
{
    match found {
        _ if options.is_status_only => true,
        Found::Same => options.is_quiet,
        Found::Different => false,
        Found::Unread(reason) => options.ignores_missing && reason.is_missing(),
    }
}

// Prints why the file of line `number` of `list` could not be read.
fn print_unread<'a, W: Output>(
    alloc: Global,
    list: &'a [u8],
    number: u64,
    name: &'a [u8],
    why: &'a [u8],
    out: &mut W,
) -> Result<(), Stop>
    requires { W.has_failed out.old ≡ false }
    ensures prints { PrintsLine W.Sink (one_line (unread_text list.now number name.now why.now))
        out.old out.new result }
    ensures works { IfOk result (λ _. W.has_failed out.new ≡ false) }
{
    let mut digits = Buffer::new();
    let digits = digits.format(number).as_bytes();
    let parts: [&[u8]; 8] = [
        list,
        b":",
        digits,
        b": Could not open or read '",
        name,
        b"': ",
        why,
        b".",
    ];
    print_line(alloc, &parts, out)
}

/// Reports what is wrong with line `number` of `list`.
pub fn eprint_line_error<E: Sink>(list: &[u8], number: u64, what: &[u8], err: &mut E)
    ensures { Eprints E.Sink (one_line (line_message list.now number what.now)) err.old err.new }
{
    let mut digits = Buffer::new();
    let digits = digits.format(number).as_bytes();
    eprint_line(&[list, b":", digits, b": Error: ", what, b"."], err);
}

// Maximum length of a line with a count, in bytes.
const MOST_COUNT_LINE: usize = 80;

// Prints `count` followed by `one` or `more`, unless it is 0.
fn print_count<W: Output>(count: u64, one: &[u8], more: &[u8], out: &mut W) -> Result<(), Stop>
    requires one { length one.now ≤ 40 }
    requires more { length more.now ≤ 40 }
    requires writer { W.has_failed out.old ≡ false }
    ensures prints { PrintsLine W.Sink (count_text count one.now more.now) out.old out.new result }
    ensures works { IfOk result (λ _. W.has_failed out.new ≡ false) }
    ensures only { IfErr result (λ stop. stop ≡ Stop.WriteFailed) }
{
    if count == 0 {
        return Ok(());
    }
    let mut line = Waiting::<MOST_COUNT_LINE>::new();
    line.append(Buffer::new().format(count).as_bytes());
    line.append(word_for(count, one, more));
    match line.flush(out) {
        Ok(()) => Ok(()),
        Err(_) => Err(Stop::WriteFailed),
    }
}

fn word_for<'a>(count: u64, one: &'a [u8], more: &'a [u8]) -> &'a [u8]
    requires one { length one.now ≤ 40 }
    requires more { length more.now ≤ 40 }
    ensures word { result.now ≡ (if nat_eq count 1 then one.now else more.now) }
    ensures short { length result.now ≤ 40 }
{
    if count == 1 { one } else { more }
}

/// Checks the lines of the list `name`. Prints for each well-formed line whether its file matches, and at the end how
/// many lines failed. Returns whether the list is good.
///
/// A file that can't be read is printed as such, and the next line is checked. A line longer than 32,767 bytes is
/// reported, counts as malformed, and makes the list fail; later lines are still checked. A failed read of the list is
/// reported and ends it. With `--ignore-missing`, missing files are neither printed nor counted; if then no file
/// matches, that is printed and the list fails.
///
/// # Errors
///
/// Both errors end the check at once; the results before it are printed. [`Stop::WriteFailed`] if a write to standard
/// output fails, or failed before, and [`Stop::OutOfMemory`] if memory for a line runs out.
pub fn check_list<S: Store, T: TimedSink, R: Source + Drop, W: Output, E: Sink>(
    context: &Context<'_, S, T>,
    name: &[u8],
    source: R,
    streams: &mut Streams<W, E>,
) -> Result<bool, Stop>
    ensures { SaysList (files_of S.Store S.File.Source context.now.store.now)
        (input_of R.Source source)
        (effect_of (rules_of W.Sink W.held W.has_lost E.Sink) streams.old streams.new result)
        context.now.options name.now }
{
    if streams.out.failed() {
        return Err(Stop::WriteFailed);
    }
    let list = ListCheck {
        alloc: context.alloc,
        store: context.store,
        options: context.options,
        progress: context.progress,
        name,
    };
    list.check(context.progress.watch(source), streams)
}

// Checks the list `name`. A list that can't be opened is reported, and fails.
fn check_named<S: Store, T: TimedSink, W: Output, E: Sink>(
    context: &Context<'_, S, T>,
    name: &[u8],
    streams: &mut Streams<W, E>,
) -> Result<bool, Stop>
    requires { W.has_failed streams.old.out ≡ false }
    ensures checks { (outcome : ListOutcome)
        × IsListOutcome (files_of S.Store S.File.Source context.now.store.now) context.now.options.is_little_endian
        name.now outcome
        × AnswersOutcome context.now.options outcome result
        × EmitsTo (rules_of W.Sink W.held W.has_lost E.Sink)
        (outcome_events context.now.options name.now outcome)
        streams.old streams.new result }
    ensures works { IfOk result (λ _. W.has_failed streams.new.out ≡ false) }
{
    match context.progress.open(context.store, name) {
        Ok(file) => {
            let list = ListCheck {
                alloc: context.alloc,
                store: context.store,
                options: context.options,
                progress: context.progress,
                name,
            };
            list.check(file, streams)
        }
        Err(refusal) => {
            streams.report(&[b"Error: Could not open '", name, b"': ", refusal.text()]);
            Ok(false)
        }
    }
}

/// Checks each list of `names`. Returns whether all are good. A list that can't be opened is reported, and fails.
///
/// # Errors
///
/// As [`check_list`], at once. Later lists are not opened.
pub fn check_lists<S: Store, T: TimedSink, W: Output, E: Sink>(
    context: &Context<'_, S, T>,
    names: &[Vec<u8>],
    streams: &mut Streams<W, E>,
) -> Result<bool, Stop>
    ensures { SaysLists (files_of S.Store S.File.Source context.now.store.now)
        (effect_of (rules_of W.Sink W.held W.has_lost E.Sink) streams.old streams.new result)
        context.now.options (map (λ name. name.items) names.now) }
{
    if streams.out.failed() {
        return Err(Stop::WriteFailed);
    }
    let mut all = true;
    for name in names {
        let good = check_named(context, name, streams)?;
        all = all && good;
    }
    Ok(all)
}
