//! Errors of the system.

ghost use Rattle.std.specs.Prelude.{◌≡◌, ◌≤◌, length, take};

// Capacity for the system's message, which is shorter.
const TEXT_ROOM: usize = 256;

/// `ENOENT`, the system's error number for a missing file.
pub const MISSING: i32 = 2;

/// An error of opening or reading a file: the system's error number and message.
#[derive(Clone, Copy, Debug, PartialEq, Eq)]
pub struct Refusal {
    code: i32,
    text: [u8; TEXT_ROOM],
    len: usize,
    ghost within: { len ≤ 256 },
}

impl Refusal {
    ghost use Rattle.xxh_io.specs.Refusal.{is_missing, refusal_code, refusal_text};

    /// Creates the error of this error number, for example 2, and the first 256 bytes of this message.
    pub fn new(code: i32, words: &[u8]) -> Refusal
        ensures code { refusal_code result ≡ code }
        ensures words { refusal_text result ≡ take 256 words.now }
    {
        let len = words.len().min(TEXT_ROOM);
        let mut text = [0; TEXT_ROOM];
        text[..len].copy_from_slice(&words[..len]);
        Refusal { code, text, len }
    }

    /// True if the file is missing: the number is `ENOENT`. A file that exists and can't be opened has another.
    pub fn is_missing(&self) -> bool
        ensures { result ≡ is_missing self.now }
    {
        self.code == MISSING
    }

    /// Returns the system's message, for example `No such file or directory`.
    pub fn text(&self) -> &[u8]
        ensures text { result.now ≡ refusal_text self.now }
        ensures short { length result.now ≤ 256 }
    {
        &self.text[..self.len]
    }
}
