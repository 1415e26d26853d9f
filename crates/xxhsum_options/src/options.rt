//! The arguments of the command line.

ghost use Rattle.std.specs.Prelude.{◌≡◌, [], drop, get_or, map, take};
ghost use Rattle.xxhsum_options.specs.Options.{dash_step, directory_in, directory_of, directory_step, format_step, have_input, leaves_input, lists_audited, lists_before, parsed_args, pattern_step, run_from, word_step};

use crate::letters::letters;
use crate::table::name_step;
use xxh_io::kind::Kind;

/// The source of a run's names.
#[derive(Clone, Copy, Debug, PartialEq, Eq)]
pub enum NamesFrom {
    /// The arguments are names.
    Words,
    /// `--files-from`, `--filelist`: the arguments are files of names, one per line.
    Lines,
    /// `--files0-from`: the arguments are files of names, each ended by a NUL.
    Nuls,
}

impl NamesFrom {
    ghost use Rattle.xxhsum_options.specs.Options.{are_listed};

    /// True if the names are read from lists.
    pub fn are_listed(self) -> bool
        ensures { result ≡ are_listed self }
    {
        match self {
            NamesFrom::Words => false,
            NamesFrom::Lines | NamesFrom::Nuls => true,
        }
    }
}

/// The options in effect.
#[derive(Clone, Copy, Debug, PartialEq, Eq)]
pub struct Options {
    /// The algorithm: that of the last `-H`, or otherwise the program's own.
    pub kind: Kind,
    /// `-c`, `--check`: the names are lists, which are checked.
    pub checks: bool,
    /// `-q`, `--quiet`: OK isn't printed for a verified file.
    pub is_quiet: bool,
    /// `--status`: a check prints no result.
    pub is_status_only: bool,
    /// `--strict`: a malformed line makes its list a bad one.
    pub is_strict: bool,
    /// `-w`, `--warn`: each malformed line is reported.
    pub warns: bool,
    /// `--ignore-missing`: a check ignores missing files.
    pub ignores_missing: bool,
    /// `--tag`: lines are printed BSD-style.
    pub is_tagged: bool,
    /// `--little-endian`: digests are printed, and read, with their lowest byte first.
    pub is_little_endian: bool,
    /// `-z`, `--zero`: each printed line ends with a NUL, and no name in it is escaped.
    pub ends_in_nul: bool,
    /// `--audit`: the first argument is a checksum list, with which the named files are compared.
    pub audits: bool,
    /// True if `--format` was given.
    pub has_format: bool,
    /// True if the next argument is the value of `--format`.
    pub awaits_format: bool,
    /// `--format=json`: an audit prints a JSON object for each result.
    pub is_json: bool,
    /// `-r`, `--recursive`: the name of a directory means the files below it.
    pub walks: bool,
    /// `--exclude`: names in directories that match a pattern are skipped.
    pub excludes: bool,
    /// True if the next argument is a pattern of `--exclude`.
    pub awaits_pattern: bool,
    /// The index of the argument with the directory of `-C`.
    pub directory: Option<usize>,
    /// True if the next argument is the directory of `-C`.
    pub awaits_directory: bool,
    /// The source of the names.
    pub names_from: NamesFrom,
    /// `-`: standard input is read even if it is a terminal.
    pub takes_terminal: bool,
}

/// The meaning of the arguments.
#[derive(Clone, Copy, Debug, PartialEq, Eq)]
pub enum ParsedArgs {
    /// Digests of the named files, or a comparison. The names are the arguments from this index on.
    Run { options: Options, names_from: usize },
    /// A benchmark, by `-b`, `--bench-all` or `--benchmark-all`.
    Benchmark,
    /// The program's version.
    Version,
    /// The help.
    Help,
    /// An error: the argument of this index is not a valid option.
    WrongOption { at: usize },
    /// An error: `-z` was given with `-c`.
    NulsInList,
    /// An error: `--format` was given without `--audit`.
    FormatWithoutAudit,
    /// An error: `-z` was given with `--format=json`.
    NulsInJson,
    /// An error: `-r` was given with `-c` or lists of names.
    WalkBesideLists,
    /// An error: `-r` was given without a name.
    WalkOfNothing,
    /// An error: `--exclude` was given without `-r`.
    ExcludeWithoutWalk,
    /// An error: a pattern of `--exclude` has a `/`, which no name in a directory has.
    SlashInPattern,
    /// An error: the directory of `-C` is empty, begins with `-`, or is the second one.
    WrongDirectory,
    /// An error: `-` was given with names, or after `--`, so standard input is not read.
    InputBesideNames,
    /// An error: an option has a number that is too large.
    NumberTooLarge,
}

/// The effect of one argument.
#[derive(Clone, Copy, Debug, PartialEq, Eq)]
pub(crate) enum Step {
    /// It is an option. These are the options after it.
    Takes(Options),
    /// It is a name: the options end before it.
    EndsBefore,
    /// It is `--`: the names are the arguments after it.
    EndsAfter,
    /// It looks like an option, and is not one.
    IsWrong,
    /// It determines the result, whatever follows.
    Settles(ParsedArgs),
}

/// Parses the arguments after the program's name. The algorithm is this one if they select none.
#[tactic(auto, using(crate::proofs::ListFacts::places))]
pub fn parse_args(kind: Kind, words: &[Vec<u8>]) -> ParsedArgs
    ensures { result ≡ parsed_args kind (map (λ word. word.items) words.now) }
{
    let mut options = Options {
        kind,
        checks: false,
        is_quiet: false,
        is_status_only: false,
        is_strict: false,
        warns: false,
        ignores_missing: false,
        is_tagged: false,
        is_little_endian: false,
        ends_in_nul: false,
        audits: false,
        has_format: false,
        awaits_format: false,
        is_json: false,
        walks: false,
        excludes: false,
        awaits_pattern: false,
        directory: None,
        awaits_directory: false,
        names_from: NamesFrom::Words,
        takes_terminal: false,
    };
    for (at, word) in words.iter().enumerate() {
        match word_step(at, word.as_slice(), options) {
            Step::Takes(next) => options = next,
            Step::EndsBefore => return run_from(options, at, words),
            Step::EndsAfter => return run_from(options, at + 1, words),
            Step::IsWrong => return ParsedArgs::WrongOption { at },
            Step::Settles(parsed) => return parsed,
        }
    }
    run_from(options, words.len(), words)
}

// Returns the run by these options, of the names from this index on. Refuses `--exclude` without a pattern or a walk,
// `--format` without a value or an audit, `-C` without a directory, a NUL ending of a check or of JSON, a walk without a
// directory name, and standard input that would stay unread.
#[tactic(auto, unfolding(crate::specs::Options::run_from))]
fn run_from(options: Options, names_from: usize, words: &[Vec<u8>]) -> ParsedArgs
    ensures { result ≡ run_from options names_from
        (drop names_from (map (λ word. word.items) words.now)) }
{
    if options.awaits_pattern || options.awaits_format || options.awaits_directory {
        return ParsedArgs::WrongOption {
            at: names_from.saturating_sub(1),
        };
    }
    if options.ends_in_nul && options.checks {
        return ParsedArgs::NulsInList;
    }
    if options.has_format && !options.audits {
        return ParsedArgs::FormatWithoutAudit;
    }
    if options.is_json && options.ends_in_nul {
        return ParsedArgs::NulsInJson;
    }
    if options.excludes && !options.walks {
        return ParsedArgs::ExcludeWithoutWalk;
    }
    if options.walks && (options.checks || options.names_from.are_listed()) {
        return ParsedArgs::WalkBesideLists;
    }
    if options.walks && words_behind(words, names_from).len() <= lists_audited(options) {
        return ParsedArgs::WalkOfNothing;
    }
    if leaves_input(options, words_behind(words, names_from)) {
        return ParsedArgs::InputBesideNames;
    }
    ParsedArgs::Run {
        options,
        names_from,
    }
}

/// Returns the arguments before this index.
pub fn words_before(words: &[Vec<u8>], place: usize) -> &[Vec<u8>]
    ensures { map (λ word. word.items) result.now
        ≡ take place (map (λ word. word.items) words.now) }
{
    &words[..place.min(words.len())]
}

/// Returns the arguments from this index on.
#[tactic(auto, using(crate::proofs::ListFacts::places))]
pub fn words_behind(words: &[Vec<u8>], place: usize) -> &[Vec<u8>]
    ensures { map (λ word. word.items) result.now
        ≡ drop place (map (λ word. word.items) words.now) }
{
    if place < words.len() {
        &words[place..]
    } else {
        &[]
    }
}

/// Returns the directory of `-C` among these arguments, or nothing without `-C`.
pub fn directory_in(options: Options, words: &[Vec<u8>]) -> &[u8]
    ensures { result.now ≡ directory_in options (map (λ word. word.items) words.now) }
{
    match options.directory {
        Some(at) => directory_of(word_at(words, at)),
        None => b"",
    }
}

/// Returns the argument at this index, or nothing if there is none.
pub fn word_at(words: &[Vec<u8>], at: usize) -> &[u8]
    ensures { result.now ≡ get_or (map (λ word. word.items) words.now) at [] }
{
    match words.get(at) {
        Some(word) => word,
        None => b"",
    }
}

// Returns the directory in an argument of `-C` or `--directory=`.
fn directory_of(word: &[u8]) -> &[u8]
    ensures { result.now ≡ directory_of word.now }
{
    match word.strip_prefix(b"--directory=") {
        Some(directory) => directory,
        None => word,
    }
}

// True if `-` is one of the names, or was given before names with which standard input is not read.
fn leaves_input(options: Options, names: &[Vec<u8>]) -> bool
    ensures { result ≡ leaves_input options (map (λ name. name.items) names.now) }
{
    have_input(names) || (options.takes_terminal && names.len() > lists_before(options))
}

// Returns the number of checksum lists before the names: an audit has one.
fn lists_audited(options: Options) -> usize
    ensures { result ≡ lists_audited options }
{
    if options.audits { 1 } else { 0 }
}

// Returns the number of checksum lists before lists of names: an audit has one.
fn lists_before(options: Options) -> usize
    ensures { result ≡ lists_before options }
{
    if options.audits && options.names_from.are_listed() {
        1
    } else {
        0
    }
}

// True if one of the names is `-`.
fn have_input(names: &[Vec<u8>]) -> bool
    ensures { result ≡ have_input (map (λ name. name.items) names.now) }
{
    for name in names {
        if name.as_slice() == b"-".as_slice() {
            return true;
        }
    }
    false
}

// Applies the argument of this index to these options.
#[tactic(auto, unfolding(crate::specs::Options::word_step))]
fn word_step(at: usize, word: &[u8], options: Options) -> Step
    ensures { result ≡ word_step at options word.now }
{
    if options.awaits_directory {
        return directory_step(at, word, options);
    }
    if options.awaits_pattern {
        return pattern_step(word, options);
    }
    if let Some(pattern) = word.strip_prefix(b"--exclude=") {
        return pattern_step(pattern, options);
    }
    if options.awaits_format {
        return format_step(word, options);
    }
    if let Some(value) = word.strip_prefix(b"--format=") {
        return format_step(value, options);
    }
    if let Some(directory) = word.strip_prefix(b"--directory=") {
        return directory_step(at, directory, options);
    }
    dash_step(word, options)
}

// Applies an argument that is no value to these options.
fn dash_step(word: &[u8], options: Options) -> Step
    ensures { result ≡ dash_step options word.now }
{
    if let Some(name) = word.strip_prefix(b"--") {
        return name_step(name, options);
    }
    match word.strip_prefix(b"-") {
        Some([]) => Step::Takes(Options {
            takes_terminal: true,
            ..options
        }),
        Some(rest) => letters(rest, options),
        None => Step::EndsBefore,
    }
}

// Applies a pattern of `--exclude` to these options.
fn pattern_step(pattern: &[u8], options: Options) -> Step
    ensures { result ≡ pattern_step options pattern.now }
{
    for byte in pattern {
        if *byte == b'/' {
            return Step::Settles(ParsedArgs::SlashInPattern);
        }
    }
    Step::Takes(Options {
        excludes: true,
        awaits_pattern: false,
        ..options
    })
}

// Applies a directory of `-C` to these options: that of the argument of this index.
fn directory_step(at: usize, directory: &[u8], options: Options) -> Step
    ensures { result ≡ directory_step at options directory.now }
{
    let Some((first, _)) = directory.split_first() else {
        return Step::Settles(ParsedArgs::WrongDirectory);
    };
    if *first == b'-' || options.directory.is_some() {
        return Step::Settles(ParsedArgs::WrongDirectory);
    }
    Step::Takes(Options {
        directory: Some(at),
        awaits_directory: false,
        ..options
    })
}

// Applies a value of `--format` to these options.
fn format_step(value: &[u8], options: Options) -> Step
    ensures { result ≡ format_step options value.now }
{
    let is_json = value == b"json".as_slice();
    if !is_json && value != b"text".as_slice() {
        return Step::IsWrong;
    }
    Step::Takes(Options {
        has_format: true,
        awaits_format: false,
        is_json,
        ..options
    })
}
