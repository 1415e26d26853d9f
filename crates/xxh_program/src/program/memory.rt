//! The digest line of bytes in memory, with no relation of a stream in its contract.

ghost use Rattle.std.specs.Prelude.{◌≡◌, ◌<◌, ◌≤◌, ◌+◌, ◌^◌, ◌++◌, length, false, Ok};
ghost use Rattle.xxh_io.specs.Hex.{hex_line};
ghost use Rattle.xxh_io.specs.Script.{sink_bytes, sink_fail_at};
ghost use Rattle.xxh_program.specs.Kind.{digits_of, value_of};

use crate::program::engine::digest;
use xxh_io::digest_error::DigestError;
use xxh_io::kind::Kind;
use xxh_io::script_sink::ScriptSink;
use xxh_io::script_source::SliceSource;
use xxh_io::streams::Sink;

/// Writes the digest line of the bytes into the sink, as [`digest`] does from a source that returns them all and never
/// fails. The caller proves that the sink has not failed, that no write of its script fails, and that it has space for
/// the line. So the result is `Ok`, and the sink then holds what it held and the line.
///
/// It is `digest` over memory, and shows what its clauses mean if both streams expose their bytes. No contract can
/// state what is in a file that standard input reads.
///
/// ```
/// let mut sink = ScriptSink::<17>::new(17, 0);
/// digest_of_bytes(Kind::X64, 1234, b"some bytes", &mut sink)?;
/// sink.bytes() // eab55659a496d78b and a newline
/// ```
pub fn digest_of_bytes<const N: usize>(
    kind: Kind,
    seed: u64,
    bytes: &[u8],
    w: &mut ScriptSink<N>,
) -> Result<(), DigestError>
    requires seed { kind ≡ Kind.X32 → seed < 2 ^ 32 }
    requires works { ⟦<ScriptSink<N> as Sink>⟧.has_failed w.old ≡ false }
    requires never_fails { sink_fail_at w.old ≡ 0 }
    requires room { length (sink_bytes w.old) + digits_of kind + 1 ≤ N }
    ensures answer { result ≡ Ok tt }
    ensures line { sink_bytes w.new
        ≡ sink_bytes w.old ++ hex_line (digits_of kind) (value_of kind seed bytes.now) }
{
    let max_reads = bytes.len() as u64 + 1;
    digest(kind, seed, max_reads, &mut SliceSource::new(bytes), w)
}
