//! All bytes of a source.

ghost use Rattle.std.specs.Prelude.{◌≡◌, false, IfOk, MatchOption};
ghost use Rattle.xxhsum_audit.specs.Read.{BreaksOff, GivesAll};

use std::alloc::{AllocError, Global};
use xxh_io::heap::buffer;
use xxh_io::streams::Source;

// Size of the read buffer.
const OFFERED: usize = 65536;

/// Returns all bytes of a source, up to its end, however its reads split them; `None` if a read fails. Returns
/// `AllocError` if out of memory.
///
/// The caller shows that the source has not failed.
#[inline(never)]
pub fn read_text<R: Source>(alloc: Global, source: &mut R) -> Result<Option<Vec<u8>>, AllocError>
    requires { R.has_failed source.old ≡ false }
    ensures { IfOk result (λ text. MatchOption text (BreaksOff R.Source source.old source.new)
        (λ bytes. GivesAll R.gives source.old source.new bytes.items)) }
{
    let mut bytes = Vec::new(alloc);
    let mut room = buffer(alloc, OFFERED)?;
    let buf = room.as_mut_slice();
    for _ in 0..u64::MAX {
        let Ok(count) = source.read(buf) else {
            return Ok(None);
        };
        if count == 0 {
            return Ok(Some(bytes));
        }
        bytes.extend_from_slice(&buf[..count])?;
    }
    Err(AllocError)
}
