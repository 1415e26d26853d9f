//! The context of a run.

use crate::progress_reader::ProgressDisplay;
use std::alloc::Global;
use xxhsum_options::options::Options;

/// The context of a run: the allocator, the files, the options, and the display of progress.
#[derive(Clone, Copy)]
pub struct Context<'a, S, T> {
    /// The allocator.
    pub alloc: Global,
    /// The files.
    pub store: &'a S,
    /// The options.
    pub options: Options,
    /// The display of reading progress.
    pub progress: ProgressDisplay<T>,
}
