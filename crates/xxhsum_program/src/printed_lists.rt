//! Lemmas about the check of lists that the program printed.

ghost use Rattle.xxh_io.specs.Script.{slice_rest};
ghost use Rattle.xxh_io.specs.declared.script_source.SliceSource.{SliceSource};
ghost use Rattle.xxhsum_program.specs.PrintedIsGood.{PrintedIsGood};
ghost use Rattle.xxhsum_program.specs.PrintedList.{ChecksPrinted, FindsPrintedFiles, FindsPrintedLines, Holds, HoldsPrintedLines, ReadsPrintedLines, ShortNamesFit};

use xxh_io::script_source::SliceSource;
use xxh_io::streams::Source;
use xxhsum_fs::store::Store;

/// Lemma: a printed list is accepted whole. The names of its entries contain no NUL, and each line has at most 32,767
/// bytes, as the line of a name of at most 16,359 bytes does. However the reads split the list, its lines are those of
/// the entries in order, each line means its entry and nothing else, and the findings are the states of the entries'
/// files. A source holds a list if its reads return exactly that list, as the reads of a slice do.
pub fn laws_of_printed_lists<S: Store, R: Source + Drop>()
    ensures finds_lines { FindsPrintedLines }
    ensures reads_lines { ReadsPrintedLines R.Source }
    ensures holds_lines { HoldsPrintedLines R.Source }
    ensures finds_files { FindsPrintedFiles S.Store S.File.Source }
    ensures checks { ChecksPrinted S.Store S.File.Source R.Source }
    ensures short_names { ShortNamesFit }
    ensures slices_hold { (source : SliceSource)
        → Holds ⟦<SliceSource<'static> as Source>⟧ source (slice_rest source) }
{}

/// Lemma: the output of a hashing run, if at least one name has a value, is a good list while the files stay unchanged.
/// That holds whatever directories and unreadable files were among the names, for every check that reaches the end of
/// the list, and under all options. The names contain no NUL and have at most 16,359 bytes.
pub fn printed_is_good<S: Store, R: Source + Drop>()
    ensures { PrintedIsGood S.Store S.File.Source R.Source }
{}
