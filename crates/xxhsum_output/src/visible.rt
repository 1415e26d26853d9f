//! A sink in front of a terminal, which makes control characters visible.

ghost use Rattle.std.specs.Prelude.{◌≡◌, ◌↔◌, ◌<◌, false, true, List, ℕ, Bool, Err, IfErr, map};
ghost use Rattle.std.specs.List.{AllByRecursion, concat};
ghost use Rattle.xxh_io.specs.Digest.{Took, Writes};
ghost use Rattle.xxh_io.specs.Hex.{hex_digit};
ghost use Rattle.xxh_io.specs.Pieces.{Pieces};
ghost use Rattle.xxhsum_output.specs.Shown.{in_hex, is_calm, is_clean, is_plain, shown, shown_all, shown_byte};

use xxh_io::digest_error::DigestError;
use xxh_io::streams::{Failed, Sink};
use xxh_io::write::write_all;

// In UTF-8 a control character of two bytes is this one and one from 128 to 159.
const BEFORE_CONTROL: u8 = 194;

/// A sink in front of a terminal. In a text with a control character, it replaces each byte that is neither printable
/// ASCII nor a newline nor NUL by `\xHH`. It passes on any other text unchanged, and every text if it is off.
#[derive(Drop)]
pub struct Visible<W> {
    inner: W,
    is_on: bool,
}

impl<W: Sink> Visible<W> {
    ghost use Rattle.xxhsum_output.specs.Visible.{is_shown, terminal_of};
    ghost use Rattle.xxhsum_output.specs.declared.visible.Visible.{Visible};

    /// Wraps this sink. Control characters are made visible if `is_on`.
    pub fn new(inner: W, is_on: bool) -> Visible<W>
        ensures terminal { terminal_of result ≡ inner }
        ensures shown { is_shown result ≡ is_on }
    {
        Visible { inner, is_on }
    }

    /// Lemma (no code), the laws of such a sink: the inner sink took what this one took, as it is displayed: unchanged
    /// if it is off, and without control characters if it is on.
    #[tactic(auto, using(crate::proofs::ShownFacts::shows_pieces, crate::proofs::ShownFacts::shown_clean))]
    pub fn laws()
        ensures pieces { (old new : Visible W) (pieces : List (List ℕ))
            → Pieces ⟦<Visible<W> as Sink>⟧.takes old pieces new
            → Took W.Sink (concat (map (shown (is_shown old)) pieces))
            (terminal_of old) (terminal_of new) }
        ensures off { (bytes : List ℕ) → shown false bytes ≡ bytes }
        ensures on { (bytes : List ℕ) → AllByRecursion (λ byte. byte < 256) bytes
            → is_clean 0 (shown true bytes) ≡ true }
    {}
}

impl<W: Sink> Sink for Visible<W> {
    ghost use Rattle.xxhsum_output.specs.Visible.{RefusesShown, TakesShown, terminal_of};

    ghost has_failed = { λ s. W.has_failed (terminal_of s) };

    ghost takes = { TakesShown W.Sink };

    ghost refuses = { RefusesShown W.Sink };

    fn failed(&self) -> bool {
        self.inner.failed()
    }

    fn write(&mut self, bytes: &[u8]) -> Result<usize, Failed> {
        match write_visible(bytes, self.is_on, &mut self.inner) {
            Ok(()) => Ok(bytes.len()),
            Err(_) => Err(Failed),
        }
    }
}

// Writes the bytes as they are displayed.
fn write_visible<W: Sink>(bytes: &[u8], is_on: bool, w: &mut W) -> Result<(), DigestError>
    requires { W.has_failed w.old ≡ false }
    ensures writes { Writes W.Sink (shown is_on bytes.now) w.old w.new result }
    ensures write_failed { (result ≡ Err DigestError.WriteFailed) ↔ (W.has_failed w.new ≡ true) }
    ensures only { IfErr result (λ e. e ≡ DigestError.WriteFailed) }
{
    if is_on && !is_clean(bytes) {
        return write_shown(bytes, w);
    }
    write_all(bytes, w)
}

// True if no byte belongs to a control character.
fn is_clean(bytes: &[u8]) -> bool
    ensures { result ≡ is_clean 0 bytes.now }
{
    let mut before = 0;
    for byte in bytes {
        if !is_calm(before, *byte) {
            return false;
        }
        before = *byte;
    }
    true
}

// True if a byte after this one belongs to no control character.
fn is_calm(before: u8, byte: u8) -> bool
    ensures { result ≡ is_calm before byte }
{
    if byte < 128 {
        return is_plain(byte);
    }
    byte > 159 || (before > 127 && before != BEFORE_CONTROL)
}

// True if a byte is printable ASCII, a newline or NUL.
fn is_plain(byte: u8) -> bool
    ensures { result ≡ is_plain byte }
{
    byte == b'\n' || byte == 0 || (31 < byte && byte < 127)
}

// Writes each byte as it is displayed.
fn write_shown<W: Sink>(bytes: &[u8], w: &mut W) -> Result<(), DigestError>
    requires { W.has_failed w.old ≡ false }
    ensures writes { Writes W.Sink (shown_all bytes.now) w.old w.new result }
    ensures write_failed { (result ≡ Err DigestError.WriteFailed) ↔ (W.has_failed w.new ≡ true) }
    ensures only { IfErr result (λ e. e ≡ DigestError.WriteFailed) }
{
    for byte in bytes {
        match write_byte(*byte, w) {
            Ok(()) => {}
            Err(error) => return Err(error),
        }
    }
    Ok(())
}

// Writes a byte as it is displayed.
fn write_byte<W: Sink>(byte: u8, w: &mut W) -> Result<(), DigestError>
    requires { W.has_failed w.old ≡ false }
    ensures writes { Writes W.Sink (shown_byte byte) w.old w.new result }
    ensures write_failed { (result ≡ Err DigestError.WriteFailed) ↔ (W.has_failed w.new ≡ true) }
    ensures only { IfErr result (λ e. e ≡ DigestError.WriteFailed) }
{
    if is_plain(byte) {
        return write_all(&[byte], w);
    }
    write_all(&in_hex(byte), w)
}

// Returns a backslash, an x and two digits.
fn in_hex(byte: u8) -> [u8; 4]
    ensures { result ≡ in_hex byte }
{
    [b'\\', b'x', digit(byte / 16), digit(byte % 16)]
}

// Returns the lower-case digit of a number below 16.
fn digit(n: u8) -> u8
    requires { n < 16 }
    ensures { result ≡ hex_digit n }
{
    if n < 10 { b'0' + n } else { b'a' - 10 + n }
}
