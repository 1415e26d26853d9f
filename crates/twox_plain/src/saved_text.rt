//! Code shared by the saved texts of both hashes: numbers and bytes as members of a JSON object, and that object.

ghost use Rattle.std.specs.Prelude.{◌≡◌, ◌^◌, length, Some, IfOk};
ghost use Rattle.serde_json.specs.View.{view, items_view};
ghost use Rattle.twox_plain.specs.SavedText.{whole_number, number_member, bytes_of_data, items_of_bytes, bytes_data, core_data, record_data};

use serde_json::{Value, json};
use std::alloc::{AllocError, Global};

// Returns the whole number, if it is below the limit.
fn whole_number_below(value: &Value, limit: u64) -> Option<u64>
    ensures { result ≡ whole_number limit (view value.now) }
{
    let number = value.as_u64()?;
    if number < limit { Some(number) } else { None }
}

// Returns the whole number, if it fits.
fn whole_number(value: &Value) -> Option<u64>
    ensures { result ≡ whole_number (2 ^ 64) (view value.now) }
{
    value.as_u64()
}

/// Returns the member of this name, a whole number below 2^32.
pub(crate) fn u32_member(value: &Value, name: &str) -> Option<u32>
    ensures { result ≡ number_member (2 ^ 32) name.now (view value.now) }
{
    let number = whole_number_below(value.get(name)?, 0x1_0000_0000)?;
    Some(number as u32)
}

/// Returns the member of this name, a whole number below 2^64.
pub(crate) fn u64_member(value: &Value, name: &str) -> Option<u64>
    ensures { result ≡ number_member (2 ^ 64) name.now (view value.now) }
{
    whole_number(value.get(name)?)
}

/// Returns the member of this name, a length: a whole number below 2^64 that fits the target's `usize`.
pub(crate) fn usize_member(value: &Value, name: &str) -> Option<usize>
    ensures { result ≡ number_member (2 ^ 64) name.now (view value.now) }
{
    usize::try_from(u64_member(value, name)?).ok()
}

/// Parses an array of exactly N integers from 0 to 255.
#[tactic(auto, using(crate::proofs::ByteItems::bytes_of_other_length, crate::proofs::ByteItems::one_more, crate::proofs::ByteItems::all_read))]
pub(crate) fn byte_array<const N: usize>(value: &Value) -> Option<[u8; N]>
    ensures { result ≡ bytes_of_data N (view value.now) }
{
    let list = value.as_array()?;
    if list.len() != N {
        return None;
    }
    let mut bytes = [0u8; N];
    for i in 0..N {
        bytes[i] = whole_number_below(&list[i], 256)? as u8;
    }
    Some(bytes)
}

fn byte_values(alloc: Global, bytes: &[u8]) -> Result<Vec<Value>, AllocError>
    ensures { IfOk result (λ list. items_view list.items ≡ items_of_bytes bytes.now) }
{
    let mut list = Vec::new(alloc);
    for byte in bytes {
        list.push(Value::from(*byte))?;
    }
    Ok(list)
}

/// Returns the bytes as an array of numbers.
#[tactic(auto, using(crate::proofs::ByteTexts::data_there_and_back))]
pub(crate) fn byte_array_value(alloc: Global, bytes: &[u8]) -> Result<Value, AllocError>
    ensures value { IfOk result (λ value. view value ≡ bytes_data bytes.now) }
    ensures reads_back { bytes_of_data (length bytes.now) (bytes_data bytes.now) ≡ Some bytes.now }
{
    Ok(Value::Array(byte_values(alloc, bytes)?))
}

/// Returns the object of four accumulators.
pub(crate) fn core_value(
    alloc: Global,
    v1: u64,
    v2: u64,
    v3: u64,
    v4: u64,
) -> Result<Value, AllocError>
    ensures { IfOk result (λ value. view value ≡ core_data v1 v2 v3 v4) }
{
    json!(in alloc; {"v1": v1, "v2": v2, "v3": v3, "v4": v4})
}

/// Returns the object of a record's members, from the values of the buffer and the core.
pub(crate) fn record_value(
    alloc: Global,
    buffer: Value,
    core: Value,
    usage: usize,
    seed: u64,
    total_len: u64,
) -> Result<Value, AllocError>
    ensures { IfOk result (λ value.
        view value ≡ record_data total_len seed (view core) (view buffer) usage) }
{
    json!(in alloc; {"buffer": buffer, "buffer_usage": usage, "core": core, "seed": seed, "total_len": total_len})
}
