//! Sinks that may write later.

ghost use Rattle.std.specs.Prelude.{◌≡◌, [], false, List, ℕ, Bool};
ghost use Rattle.std.specs.List.{concat};
ghost use Rattle.xxh_io.specs.Pieces.{Pieces};

use xxh_io::script_sink::ScriptSink;
use xxh_io::streams::Sink;

/// A sink that may hold bytes for a while, to write many at once.
///
/// Bytes that it holds count as written to it. If their own write fails later, they are lost, and the next write to it
/// fails.
pub trait Output: Sink {
    // The bytes that it holds.
    ghost held: { Self → List ℕ };

    // Bytes that it held were lost.
    ghost has_lost: { Self → Bool };

    /// True if bytes that it held were lost because their write failed.
    fn has_lost(&self) -> bool
        ensures { result ≡ has_lost self.now };

    /// Writes the bytes that it holds.
    fn release(&mut self)
        ensures takes_nothing { (pieces : List (List ℕ))
            × Pieces Self.takes self.old pieces self.new × (concat pieces ≡ []) }
        ensures failed { Self.has_failed self.new ≡ Self.has_failed self.old }
        ensures released { has_lost self.new ≡ false → held self.new ≡ [] };
}

// A sink in memory holds nothing.
impl<const N: usize> Output for ScriptSink<N> {
    ghost held = { λ _. [] };

    ghost has_lost = { λ _. false };

    fn has_lost(&self) -> bool {
        false
    }

    fn release(&mut self) {}
}
