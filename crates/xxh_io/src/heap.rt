//! Buffers on the heap, which need no stack.

ghost use Rattle.std.specs.Prelude.{◌≡◌, IfOk, length};

use std::alloc::{AllocError, Global};

/// Returns a buffer of `room` zero bytes. Returns `AllocError` if out of memory.
pub fn buffer(alloc: Global, room: usize) -> Result<Vec<u8>, AllocError>
    ensures { IfOk result (λ bytes. length bytes.items ≡ room) }
{
    Ok(vec![in alloc; 0u8; room]?)
}
