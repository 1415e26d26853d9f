//! The saved text of a record.

ghost use Rattle.std.specs.Prelude.{◌≡◌, ◌^◌, Some, None, IfOk, IsErrOf, string_bytes};
ghost use Rattle.serde_json.specs.View.{view};
ghost use Rattle.twox_plain.specs.Saved32.{core_of_data, record_of_data, record_of_text, saved_text};

use crate::saved_text::{
    byte_array, byte_array_value, core_value, record_value, u32_member, u64_member, usize_member,
};
use crate::xxhash32::{Core, SavedState};
use serde_json::Value;
use std::alloc::{AllocError, Global};
use std::error::Error;
use std::fmt;

/// The error for a text without a record.
#[derive(Clone, Copy, Debug, PartialEq, Eq)]
pub enum FormError {
    /// The text is not one of a saved state.
    Text,
    /// Out of memory while reading it.
    Memory,
}

impl fmt::Display for FormError {
    ghost use Rattle.std.specs.Prelude.{Some};
    ghost use Rattle.twox_plain.specs.Saved32.{form_error_text};

    ghost output = { λ error. Some (form_error_text error) };

    fn fmt<W: fmt::Write>(&self, f: &mut fmt::Formatter<W>) -> fmt::Result {
        f.write_str(match self {
            FormError::Text => "The text is not a saved state",
            FormError::Memory => "out of memory",
        })
    }
}

impl Error for FormError {}

fn core_of_value(value: &Value) -> Option<Core>
    ensures { result ≡ core_of_data (view value.now) }
{
    let v1 = u32_member(value, "v1")?;
    let v2 = u32_member(value, "v2")?;
    let v3 = u32_member(value, "v3")?;
    let v4 = u32_member(value, "v4")?;
    Some(Core { v1, v2, v3, v4 })
}

fn record_of_value(value: &Value) -> Option<SavedState>
    ensures { result ≡ record_of_data (view value.now) }
{
    let buffer = byte_array(value.get("buffer")?)?;
    let buffer_usage = usize_member(value, "buffer_usage")?;
    let core = core_of_value(value.get("core")?)?;
    let seed = u32_member(value, "seed")?;
    let total_len = u64_member(value, "total_len")?;
    Some(SavedState {
        total_len,
        seed,
        core,
        buffer,
        buffer_usage,
    })
}

impl SavedState {
    /// Writes the saved text: the compact JSON of an object with the members `buffer` (an array of numbers),
    /// `buffer_usage`, `core` (an object of `v1` to `v4`), `seed` and `total_len`, in this order.
    ///
    /// # Errors
    ///
    /// `AllocError` if out of memory.
    pub fn to_json(&self, alloc: Global) -> Result<String, AllocError>
        ensures text { IfOk result (λ text. string_bytes text ≡ saved_text self.now) }
        ensures reads_back { IfOk result (λ text.
            record_of_text (string_bytes text) ≡ Some self.now) }
    {
        let buffer = byte_array_value(alloc, &self.buffer)?;
        let Core { v1, v2, v3, v4 } = self.core;
        let core = core_value(alloc, v1 as u64, v2 as u64, v3 as u64, v4 as u64)?;
        let (usage, seed, total_len) = (self.buffer_usage, self.seed, self.total_len);
        record_value(alloc, buffer, core, usage, seed as u64, total_len)?.to_string(alloc)
    }

    /// Reads the record of a saved text: an object with the members that [`SavedState::to_json`] writes, in any order
    /// and with any white space, each number whole and in its type's range, and exactly 16 of them in the buffer. Other
    /// members are ignored.
    ///
    /// # Errors
    ///
    /// - [`FormError::Text`] if `serde_json` reads no such object.
    /// - [`FormError::Memory`] if out of memory, possibly for a text that is invalid.
    pub fn from_json(alloc: Global, text: &str) -> Result<SavedState, FormError>
        ensures read { IfOk result (λ state. record_of_text text.now ≡ Some state) }
        ensures refused { IsErrOf result FormError.Text → record_of_text text.now ≡ None }
    {
        match Value::from_str(alloc, text) {
            Ok(value) => record_of_value(&value).ok_or(FormError::Text),
            Err(error) => Err(if error.is_memory() {
                FormError::Memory
            } else {
                FormError::Text
            }),
        }
    }
}
