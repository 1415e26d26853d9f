//! Lemmas about the check of lists: what a good list and a line "OK" guarantee.

ghost use Rattle.xxhsum_program.specs.GoodList.{GoodMeansEqual, OkMeansEqual};

use xxh_io::streams::Source;
use xxhsum_fs::store::Store;
use xxhsum_line::laws::laws_of_lines;

/// Lemma: the file of each well-formed line of a good list has the line's value, or is missing and the options ignore
/// missing files. `check_list` guarantees that its lines are found so, and that it returns true only for a good list;
/// `run` then exits with 0.
pub fn good_means_equal<S: Store, R: Source>()
    ensures { GoodMeansEqual S.Store S.File.Source R.Source }
{}

/// Lemma: "OK" is printed only for a file whose bytes have the line's value, whatever bytes the names have.
#[tactic(auto, using(crate::proofs::OkFacts::ok_means_equal))]
pub fn ok_means_equal<S: Store>()
    ensures { OkMeansEqual S.Store S.File.Source }
{
    laws_of_lines();
}
