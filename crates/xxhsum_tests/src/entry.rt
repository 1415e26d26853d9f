//! Names of scripts.

use xxh_io::script_source::ScriptSource;
use xxhsum_fs::memory::MemoryEntry;

pub(crate) fn entry<'a>(
    name: &'a [u8],
    source: ScriptSource<'a>,
    is_directory: bool,
) -> MemoryEntry<'a, ScriptSource<'a>> {
    MemoryEntry {
        name,
        source,
        is_directory,
    }
}
