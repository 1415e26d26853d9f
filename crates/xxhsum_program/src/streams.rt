//! Standard output and standard error.

ghost use Rattle.std.specs.Prelude.{◌≡◌, false};
ghost use Rattle.std.specs.Borrow.{sem};
ghost use Rattle.xxhsum_program.specs.Finish.{IsWritten};
ghost use Rattle.xxhsum_program.specs.Joined.{joined};

use crate::stderr::eprint_line;
use xxh_io::streams::Sink;
use xxhsum_output::output::Output;

/// Standard output and standard error of a run.
///
/// A message never appears before output that was printed before it: standard error is reached only by
/// [`Streams::messages`], whose caller shows that all output is written.
#[derive(Drop)]
pub struct Streams<W, E> {
    /// Standard output.
    pub out: W,
    err: E,
}

impl<W: Output, E: Sink> Streams<W, E> {
    ghost use Rattle.xxhsum_program.specs.Order.{Emits, Releases, Reported, rules_of};
    ghost use Rattle.xxhsum_program.specs.Streams.{LendsMessages, err_of, streams_of};

    /// Returns these streams.
    pub fn new(out: W, err: E) -> Streams<W, E>
        ensures { result ≡ streams_of out err }
    {
        Streams { out, err }
    }

    /// Writes the bytes that standard output holds.
    ///
    /// The caller shows that no write to it has failed.
    pub fn release(&mut self)
        requires { W.has_failed self.old.out ≡ false }
        ensures releases { Releases (rules_of W.Sink W.held W.has_lost E.Sink) self.old self.new }
        ensures works { W.has_failed self.new.out ≡ false }
    {
        self.out.release();
    }

    /// Returns standard error, for a message.
    ///
    /// The caller shows that all printed bytes are written, or were lost.
    pub fn messages(&mut self) -> &mut E
        requires { IsWritten W.held W.has_lost self.old.out }
        ensures* lends { sem 𝓛 (LendsMessages W.row E.row self.entry result) }
        ensures value { result.now ≡ err_of self.old }
    {
        &mut self.err
    }

    /// Reports the parts as one line, as [`eprint_line`] does, after all bytes that were printed before.
    ///
    /// The caller shows that no write to standard output has failed.
    pub fn report(&mut self, parts: &[&[u8]])
        requires { W.has_failed self.old.out ≡ false }
        ensures reports { Emits (rules_of W.Sink W.held W.has_lost E.Sink)
            (Reported (joined parts.now)) self.old self.new }
        ensures works { W.has_failed self.new.out ≡ false }
    {
        self.release();
        eprint_line(parts, self.messages());
    }
}
