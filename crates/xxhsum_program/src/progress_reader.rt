//! Sources whose reads are shown as progress. They return the same bytes as without progress.

ghost use Rattle.std.specs.Prelude.{◌≡◌, ◌≢◌, ◌<◌, ◌≤◌, false, List, ℕ, length, take, is_err, Err, IfErr, IfOk, OnErr};
ghost use Rattle.std.specs.List.{concat};
ghost use Rattle.xxh_io.specs.Digest.{ReadsTo};
ghost use Rattle.xxh_program.specs.Kind.{value_of};
ghost use Rattle.xxh_program.specs.States.{most_reads};
ghost use Rattle.xxhsum_program.specs.Command.{shows_progress};
ghost use Rattle.xxhsum_program.specs.Progress.{bytes_expected, bytes_read, is_shown};
ghost use Rattle.xxhsum_program.specs.ProgressReader.{IsFresh, ShowsRead, progress_of, shows_reads, source_of};

use crate::process::{Interactive, shows_progress};
use crate::progress::{Progress, time_of};
use crate::terminal::TimedSink;
use xxh_io::digest_error::DigestError;
use xxh_io::kind::Kind;
use xxh_io::refusal::Refusal;
use xxh_io::streams::{Failed, Source};
use xxh_program::program::value_of_source;
use xxhsum_fs::store::Store;
use xxhsum_options::options::Options;

// The maximum number of reads of a file.
const MAX_READS: u64 = u64::MAX;

/// A source whose reads are shown as progress. It returns the same bytes as its own source.
#[derive(Drop)]
pub struct ProgressReader<R, T> {
    source: R,
    progress: Progress<T>,
}

impl<R: Source, T: TimedSink> ProgressReader<R, T> {
    /// Returns this source, with this progress.
    pub fn new(source: R, progress: Progress<T>) -> ProgressReader<R, T>
        ensures source { source_of result ≡ source }
        ensures progress { progress_of result ≡ progress }
    {
        ProgressReader { source, progress }
    }

    /// Reads the source to its end and returns the hash of the bytes. Each read is offered the whole of `buf`.
    ///
    /// The caller shows that the source has not failed.
    ///
    /// # Errors
    ///
    /// [`DigestError::ReadFailed`] if a read fails, and [`DigestError::TooLong`] if 2^64 - 1 reads don't reach the end.
    #[tactic(auto, using(crate::proofs::ProgressReaderFacts::inner_reads))]
    pub(crate) fn value(&mut self, kind: Kind, buf: &mut [u8]) -> Result<u128, DigestError>
        requires reader { R.has_failed (source_of self.old) ≡ false }
        requires room { 0 < length buf.old }
        ensures value { (pieces : List (List ℕ))
            × ReadsTo R.Source most_reads pieces (source_of self.old) (source_of self.new) result
            × IfOk result (λ value. value ≡ value_of kind 0 (concat pieces)) }
        ensures never_writes { result ≢ Err DigestError.WriteFailed }
    {
        value_of_source(kind, 0, MAX_READS, self, buf)
    }
}

impl<R: Source, T: TimedSink> Source for ProgressReader<R, T> {
    ghost has_failed = { λ progress_reader. R.has_failed (source_of progress_reader) };

    ghost gives = { λ old piece new. R.gives (source_of old) piece (source_of new) };

    ghost fails = { λ old new. R.fails (source_of old) (source_of new) };

    ghost reason = { λ progress_reader. R.reason (source_of progress_reader) };

    fn failed(&self) -> bool {
        self.source.failed()
    }

    fn failure(&self) -> Refusal {
        self.source.failure()
    }

    fn read(&mut self, buf: &mut [u8]) -> Result<usize, Failed>
        requires works { R.has_failed (source_of self.old) ≡ false }
        requires room { 0 < length buf.old }
        ensures within { IfOk result (λ n. n ≤ length buf.new) }
        ensures piece { IfOk result
            (λ n. R.gives (source_of self.old) (take n buf.new) (source_of self.new)) }
        ensures fails { OnErr result (R.fails (source_of self.old) (source_of self.new)) }
        ensures failed { R.has_failed (source_of self.new) ≡ is_err result }
        ensures shows { ShowsRead T.Sink (progress_of self.old) (progress_of self.new) result }
    {
        let found = self.source.read(buf);
        match found {
            Ok(count) => self.progress.show(count),
            Err(Failed) => self.progress.show(0),
        }
        found
    }
}

/// A display of reading progress, or none.
#[derive(Clone, Copy)]
pub struct ProgressDisplay<T> {
    terminal: T,
    is_on: bool,
}

impl<T: TimedSink> ProgressDisplay<T> {
    /// Returns a display on `terminal`. It is on if [`shows_progress`] returns true.
    pub fn new(terminal: T, interactive: Interactive, options: Options) -> ProgressDisplay<T>
        ensures shown { shows_reads result ≡ shows_progress interactive options }
    {
        ProgressDisplay {
            terminal,
            is_on: shows_progress(interactive, options),
        }
    }

    /// Returns this source, with its progress. Its size is not known.
    pub fn watch<R: Source>(&self, source: R) -> ProgressReader<R, T>
        ensures source { source_of result ≡ source }
        ensures shown { is_shown (progress_of result) ≡ shows_reads self.now }
        ensures unread { bytes_read (progress_of result) ≡ 0 }
        ensures size { bytes_expected (progress_of result) ≡ None }
    {
        let started = time_of(&self.terminal, self.is_on);
        ProgressReader::new(
            source,
            Progress::new(self.terminal, self.is_on, None, started),
        )
    }

    /// Opens the file of this name, with its progress. Its expected size is the store's.
    ///
    /// # Errors
    ///
    /// The store's reason if it doesn't open the file.
    pub fn open<S: Store>(
        &self,
        store: &S,
        name: &[u8],
    ) -> Result<ProgressReader<S::File, T>, Refusal>
        ensures opens { IfOk result (λ file. S.opens store.now name.now (source_of file)) }
        ensures fresh { IfOk result
            (λ file. IsFresh S.Store store.now self.now name.now (progress_of file)) }
        ensures works { IfOk result (λ file. S.File.has_failed (source_of file) ≡ false) }
        ensures refuses { IfErr result (λ why. S.refuses store.now name.now why) }
    {
        match store.open(name) {
            Ok(file) => { Ok(ProgressReader::new(file, self.progress_of(store, name))) }
            Err(refusal) => Err(refusal),
        }
    }

    // Returns the progress of the file of this name.
    fn progress_of<S: Store>(&self, store: &S, name: &[u8]) -> Progress<T>
        ensures { IsFresh S.Store store.now self.now name.now result }
    {
        let size = if self.is_on { store.size(name) } else { None };
        let started = time_of(&self.terminal, self.is_on);
        Progress::new(self.terminal, self.is_on, size, started)
    }
}
