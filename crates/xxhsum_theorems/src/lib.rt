//! The main theorem of `xxhsum`, as functions with contracts, for readers of nothing else. There is no code: each is a
//! lemma on what the contract of `run` (`xxhsum_app`) states of a run, over any store of files and any streams, and is
//! proved from the public contracts of the crates `xxhsum_*`.
#![tactic(auto)]

ghost use Rattle.std.specs.Prelude.{◌≡◌, ◌<◌, ◌≤◌, ◌+◌, ◌^◌, ◌↔◌, ◌++◌, ◌∷◌, [], Bool, List, ℕ, Option, Some, Result, true, false, codes, length, IsPermutation};
ghost use Rattle.std.specs.List.{AllByRecursion, flat_map};
ghost use Rattle.xxhsum_program.specs.Prelude.{EachHas, Eprints, Kind, Options, Refused, Shape, Style, Took};
ghost use Rattle.xxhsum_program.specs.declared.streams.Streams.{Streams};
ghost use Rattle.xxhsum_program.specs.declared.outcome.Outcome.{Outcome};
ghost use Rattle.xxhsum_program.specs.declared.stop.Stop.{Stop};
ghost use Rattle.xxhsum_program.specs.declared.stop.Stop.TheVariants.{WriteFailed};
ghost use Rattle.xxhsum_audit.specs.Audit.{IsAudit};
ghost use Rattle.xxhsum_audit.specs.Item.{HasSameDigest, IsAmong, Item};
ghost use Rattle.xxhsum_audit.specs.Laws.{IsKept, IsRight};
ghost use Rattle.xxhsum_audit.specs.Found.{Copied, Found, Missing, New, Same, line_in, name_in};
ghost use Rattle.xxhsum_audit.specs.Json.{digits_in, remark_json, told_actual, told_listed, told_state};
ghost use Rattle.xxhsum_audit.specs.Text.{HasNoNul, IsSameRemark, Remark, remark_text, told_name, told_other};
ghost use Rattle.xxhsum_app.specs.Audits.{duplicate_text};
ghost use Rattle.xxhsum_app.specs.Names.{ListNone};
ghost use Rattle.xxhsum_app.specs.ReadList.{ListSaysNothing};
ghost use Rattle.xxhsum_app.specs.Report.{remarks_of, report_text};
ghost use Rattle.xxhsum_app.specs.Run.{WalksFolders};
ghost use Rattle.xxhsum_app.specs.Walk.{tree_of, without};
ghost use Rattle.xxhsum_fs.specs.Below.{IsBelow, path_in, stays};
ghost use Rattle.xxhsum_fs.specs.declared.below.Below.{Below};
ghost use Rattle.xxhsum_theorems.specs.Headline.{AreFilesBelow, IsLineAtMost, IsLineOrMessage, LeadsAs, PrintsBeginning};
ghost use Rattle.xxhsum_theorems.specs.LineLaws.{AreLines, AreRecords, IsListLine, WritesLines};
ghost use Rattle.xxhsum_line.specs.Entry.{Says};
ghost use Rattle.xxhsum_line.specs.Escapes.{one_line};
ghost use Rattle.xxhsum_line.specs.Laws.{IsOneLine};
ghost use Rattle.xxhsum_line.specs.Printed.{digest_text};
ghost use Rattle.xxh_io.specs.Kind.{digits_of};
ghost use Rattle.xxhsum_program.specs.CheckList.{EndsAs, ListOutcome, SaysList, outcome_events};
ghost use Rattle.xxhsum_program.specs.Findings.{Finding, IsFinding};
ghost use Rattle.xxhsum_program.specs.GoodList.{IsWell};
ghost use Rattle.xxhsum_program.specs.HashNames.{SaysNames, name_events};
ghost use Rattle.xxhsum_program.specs.Lines.{lines_of};
ghost use Rattle.xxhsum_program.specs.ListEnd.{ListEnd};
ghost use Rattle.xxhsum_program.specs.Outcomes.{Comes, IsValueOf, are_digested};
ghost use Rattle.xxhsum_program.specs.PrintedIsGood.{PrintedIsGood, plain_style};
ghost use Rattle.xxhsum_program.specs.Files.{files_of, input_of};
ghost use Rattle.xxhsum_program.specs.Order.{EmitsAll, EmitsTo, Event, effect_of, printed_of, reported_of, rules_of};
ghost use Rattle.xxhsum_program.specs.Streams.{err_of};
ghost use Rattle.xxhsum_program.specs.ListMessages.{finding_events, list_events};
ghost use Rattle.xxhsum_program.specs.Run.{status_of, style_of};

use xxh_io::streams::{Sink, Source};
use xxhsum_app::walk::laws_of_walks;
use xxhsum_audit::laws::{laws_of_audits, laws_of_texts};
use xxhsum_fs::folders::Folders;
use xxhsum_fs::store::Store;
use xxhsum_line::laws::laws_of_lines;
use xxhsum_program::{good_lists, printed_lists};

// ---- the status

/// The exit status is 0 if and only if a run reached its end and everything is well. It is never 0 after a failed write
/// or out of memory.
#[tactic(auto, using(crate::proofs::HeadlineFacts::status))]
pub fn status()
    ensures { (done : Result Bool Stop) → (status_of done ≡ 0) ↔ (done ≡ Ok true) }
{}

// ---- fingerprints

/// A run over names that reached its end: each name has one outcome, in their order: the value of exactly the bytes
/// that the reads of its file returned, or the reason for none. Standard output has the lines of those with a value,
/// standard error the messages of the others, and everything is well if and only if each has a value.
pub fn each_name_once<S: Store, W: Sink, E: Sink>()
    ensures { (held : W → List ℕ) (has_lost : W → Bool) (store : S) (kind : Kind) (style : Style)
        → (names : List (List ℕ)) (old new : Streams W E) (all : Bool)
        → SaysNames (files_of S.Store S.File.Source store)
        (effect_of (rules_of W.Sink held has_lost E.Sink) old new (Ok all)) kind style names
        → (outcomes : List Outcome)
        × EachHas (Comes (files_of S.Store S.File.Source store) kind) names outcomes
        × (let events = lines_of (name_events kind style) names outcomes in
        Took W.Sink (printed_of events) old.out new.out
        × Eprints E.Sink (reported_of events) (err_of old) (err_of new))
        × (all ≡ are_digested outcomes) }
{}

/// A run over folders (`-r`) with status 0: standard output has one line for each of these files, in their order, and
/// each has a value. The files are those that the given names lead to through names in folders which no pattern of
/// `--exclude` matches, and no others, if no folder changes meanwhile.
pub fn each_file_below_once<S: Store + Folders, W: Sink, E: Sink>()
    ensures { (held : W → List ℕ) (has_lost : W → Bool) (store : S) (options : Options)
        → (patterns names : List (List ℕ)) (old new : Streams W E)
        → WalksFolders (without patterns (tree_of S.Store S.Folders store))
        (files_of S.Store S.File.Source store)
        (effect_of (rules_of W.Sink held has_lost E.Sink) old new (Ok true)) options names
        → (files : List (List ℕ)) × (outcomes : List Outcome)
        × EachHas (Comes (files_of S.Store S.File.Source store) options.kind) files outcomes
        × (are_digested outcomes ≡ true)
        × (let events = lines_of (name_events options.kind (style_of options)) files outcomes in
        Took W.Sink (printed_of events) old.out new.out)
        × AreFilesBelow patterns (tree_of S.Store S.Folders store) names files }
{
    laws_of_walks::<S>();
}

/// With `-C DIR` the store of a run is the store below `DIR`, where each name leads to what its path leads to: the path
/// of a relative name is `DIR/NAME`, of at most 4,095 bytes. Without `-C`, and for a name that is empty or begins with a
/// slash, it is the name itself.
pub fn each_name_in_directory<S: Store + Folders>()
    ensures leads { (store : S) (below : Below S) (directory name path : List ℕ)
        → IsBelow directory store below → path_in directory name ≡ Some path
        → LeadsAs S.Store S.Folders store below name path }
    ensures relative { (directory name : List ℕ) → 0 < length directory → stays name ≡ false
        → length directory + 1 + length name ≤ 4095
        → path_in directory name ≡ Some (directory ++ 47 ∷ name) }
    ensures without { (name : List ℕ) → path_in [] name ≡ Some name }
    ensures absolute { (directory name : List ℕ) → stays name ≡ true
        → path_in directory name ≡ Some name }
{}

/// Events are exactly the bytes of both streams: standard output takes what they print and standard error what they
/// report. If a write failed, a prefix of the printed bytes is written.
pub fn each_stream<W: Sink, E: Sink>()
    ensures ends { (held : W → List ℕ) (has_lost : W → Bool) (events : List Event)
        → (old new : Streams W E) → EmitsAll (rules_of W.Sink held has_lost E.Sink) events old new
        → Took W.Sink (printed_of events) old.out new.out
        × Eprints E.Sink (reported_of events) (err_of old) (err_of new) }
    ensures stops { (held : W → List ℕ) (has_lost : W → Bool) (events : List Event)
        → (old new : Streams W E)
        → EmitsTo {T = Bool} (rules_of W.Sink held has_lost E.Sink) events old new (Err WriteFailed)
        → Refused W.Sink (printed_of events) old.out new.out
        × Eprints E.Sink (reported_of events) (err_of old) (err_of new) }
{}

/// Whatever bytes names have, each message and each printed result is one line, so no name can forge one, for example
/// one that reports another file as `OK`. The outcome of a name is one line and no message, or one message and no line.
/// A line of a list has the same, or neither. The check of a list writes whole lines. The message about a list without
/// entries or names has one of the four forms of [`IsListMessage`]. Each result of an audit is one line, also as a JSON
/// object, and its report is whole lines. With `-z`, they are whole records instead, each ended by its only NUL, if no
/// name has a NUL.
pub fn one_line_a_name<S: Store, R: Source>()
    ensures names { (kind : Kind) (shape : Shape) (name : List ℕ) (outcome : Outcome)
        → IsLineOrMessage (name_events kind (plain_style shape) name outcome) }
    ensures findings { (options : Options) (list : List ℕ) (number : ℕ) (finding : Finding)
        → IsLineAtMost (finding_events options list number finding) }
    ensures lines { (text : List ℕ) → IsOneLine (one_line text) }
    ensures checks { (options : Options) (list : List ℕ) (outcome : ListOutcome)
        → AllByRecursion WritesLines (outcome_events options list outcome) }
    ensures lists { (store : S) (source : R) (is_little : Bool) (lists : List (List ℕ))
        → (list message : List ℕ)
        → (ListSaysNothing (files_of S.Store S.File.Source store) is_little list message
        → IsListLine list message)
        × (ListNone (files_of S.Store S.File.Source store) (input_of R.Source source) lists message
        → (name : List ℕ) × IsListLine name message) }
    ensures twice { (among name : List ℕ) → IsOneLine (one_line (duplicate_text among name)) }
    ensures audits { (remark : Remark) → IsOneLine (remark_text false remark) }
    ensures objects { (is_little : Bool) (remark : Remark)
        → IsOneLine (remark_json is_little remark) }
    ensures reports { (options : Options) (found : List Found) (unread : List (List ℕ))
        → options.ends_in_nul ≡ false → AreLines (report_text options found unread) }
    ensures records { (remark : Remark) → HasNoNul remark → AreRecords (remark_text true remark) }
    ensures reports_of_records { (options : Options) (found : List Found) (unread : List (List ℕ))
        → options.ends_in_nul ≡ true → AllByRecursion HasNoNul (remarks_of found unread)
        → AreRecords (report_text options found unread) }
{
    laws_of_lines();
    laws_of_texts();
}

/// A run that stops has printed a beginning of the lines of the names that it reached, or of the results of a list.
pub fn stops_early<S: Store, R: Source, W: Sink, E: Sink>()
    ensures names { (held : W → List ℕ) (has_lost : W → Bool) (store : S) (kind : Kind)
        → (style : Style) (names : List (List ℕ)) (old new : Streams W E) (stop : Stop)
        → SaysNames (files_of S.Store S.File.Source store)
        (effect_of (rules_of W.Sink held has_lost E.Sink) old new (Err stop)) kind style names
        → (done rest : List (List ℕ)) × (outcomes : List Outcome) × (names ≡ done ++ rest)
        × EachHas (Comes (files_of S.Store S.File.Source store) kind) done outcomes
        × PrintsBeginning W.Sink (printed_of (lines_of (name_events kind style) done outcomes))
        old.out new.out }
    ensures list { (held : W → List ℕ) (has_lost : W → Bool) (store : S) (options : Options)
        → (name : List ℕ) (source : R) (old new : Streams W E) (stop : Stop)
        → SaysList (files_of S.Store S.File.Source store) (input_of R.Source source)
        (effect_of (rules_of W.Sink held has_lost E.Sink) old new (Err stop)) options name
        → (findings : List Finding) × (end : Option ListEnd)
        × PrintsBeginning W.Sink (printed_of (list_events options name findings end))
        old.out new.out }
{}

// ---- checks

/// "OK" is printed only for a file whose bytes have the line's value: a line's result is "NAME: OK" only if the line
/// has an algorithm, a value and this name, and reads of its file returned bytes with that value.
pub fn ok_means_equal<S: Store>()
    ensures { (store : S) (options : Options) (list : List ℕ) (number : ℕ) (line : List ℕ)
        → (finding : Finding) (name : List ℕ)
        → IsFinding (files_of S.Store S.File.Source store) options.is_little_endian line finding
        → printed_of (finding_events options list number finding) ≡ one_line (name ++ codes ": OK")
        → (kind : Kind) × (value : ℕ) × Says options.is_little_endian line kind value name
        × IsValueOf (files_of S.Store S.File.Source store) kind name value }
{
    good_lists::ok_means_equal::<S>();
}

/// A good list means equal files: if a check reaches its end and the list is good, the file of each well-formed line
/// has the line's value, or is missing and was to be ignored.
pub fn good_means_equal<S: Store, R: Source, W: Sink, E: Sink>()
    ensures { (held : W → List ℕ) (has_lost : W → Bool) (store : S) (options : Options)
        → (name : List ℕ) (source : R) (old new : Streams W E)
        → SaysList (files_of S.Store S.File.Source store) (input_of R.Source source)
        (effect_of (rules_of W.Sink held has_lost E.Sink) old new (Ok true)) options name
        → (lines : List (List ℕ)) × (end : ListEnd) × EndsAs R.Source source lines end
        × AllByRecursion (IsWell (files_of S.Store S.File.Source store) options) lines }
{
    good_lists::good_means_equal::<S, R>();
}

/// Printed lines are accepted again, line for line, for any names: the lines that a run prints are a good list while
/// the files stay as they are.
pub fn printed_is_accepted<S: Store, R: Source + Drop>()
    ensures { PrintedIsGood S.Store S.File.Source R.Source }
{
    printed_lists::printed_is_good::<S, R>();
}

// ---- audits

/// An audit reports each line of the list once and each name once, each in its class, and leaves no line missing that
/// has the digest of a new name or of a copy.
pub fn audit_classes()
    ensures { (lines names : List Item) (found : List Found) → IsAudit lines names found
        → IsPermutation lines (flat_map line_in found) × IsPermutation names (flat_map name_in found)
        × ((one : Found) → IsAmong found one → IsRight lines names one)
        × ((line first name : Item) → IsAmong found (Missing line) → HasSameDigest line name
        → (IsAmong found (New name) → ⊥) × (IsAmong found (Copied first name) → ⊥)) }
{
    laws_of_audits();
}

/// No two results of an audit have one text. Two results with one line have the same name, class and other name. So
/// have two with one record that ends with a NUL (`-z`), whatever follows it, if no name has a NUL. Two results with one
/// JSON object, whatever follows it, have the same name, state, other name and digests; and two digests with the same
/// digits are by one algorithm and have one value, if both fit.
pub fn audit_texts_differ()
    ensures lines { (a b : Remark) (behind behind' : List ℕ)
        → remark_text false a ++ behind ≡ remark_text false b ++ behind'
        → IsSameRemark a b × (behind ≡ behind') }
    ensures records { (a b : Remark) (behind behind' : List ℕ) → HasNoNul a → HasNoNul b
        → remark_text true a ++ behind ≡ remark_text true b ++ behind'
        → IsSameRemark a b × (behind ≡ behind') }
    ensures objects { (is_little : Bool) (a b : Remark) (behind behind' : List ℕ)
        → remark_json is_little a ++ behind ≡ remark_json is_little b ++ behind'
        → (told_name a ≡ told_name b) × (told_state a ≡ told_state b)
        × (told_other a ≡ told_other b)
        × (digits_in is_little (told_listed a) ≡ digits_in is_little (told_listed b))
        × (digits_in is_little (told_actual a) ≡ digits_in is_little (told_actual b))
        × (behind ≡ behind') }
    ensures digests { (is_little : Bool) (kind kind' : Kind) (value value' : ℕ)
        → value < 16 ^ digits_of kind → value' < 16 ^ digits_of kind'
        → digest_text kind is_little value ≡ digest_text kind' is_little value'
        → (kind ≡ kind') × (value ≡ value') }
{
    laws_of_lines();
    laws_of_texts();
}

/// If all are the same (status 0 of an audit), each line has a file at its path, with the line's value, and each name
/// has such a line.
pub fn same_means_equal()
    ensures { (lines names : List Item) (found : List Found) → IsAudit lines names found
        → ((one : Found) → IsAmong found one → (line name : Item) × (one ≡ Same line name))
        → ((line : Item) → IsAmong lines line → (name : Item) × IsAmong names name × IsKept line name)
        × ((name : Item) → IsAmong names name → (line : Item) × IsAmong lines line × IsKept line name) }
{
    laws_of_audits();
}
