//! The reason why a run stops early.

ghost use Rattle.std.specs.Prelude.{◌≡◌};

use std::alloc::AllocError;

/// The reason why a run stops before its last name. An unreadable file is no such reason.
#[derive(Clone, Copy, Debug, PartialEq, Eq)]
pub enum Stop {
    /// A write to standard output failed.
    WriteFailed,
    /// Memory ran out.
    OutOfMemory,
}

impl From<AllocError> for Stop {
    ghost use Rattle.xxhsum_program.specs.declared.stop.Stop.TheVariants.{OutOfMemory};

    ghost from_gives = { λ _ stop. stop ≡ OutOfMemory };

    fn from(_error: AllocError) -> Stop {
        Stop::OutOfMemory
    }
}
