//! Hexadecimal digits of either case, and their values.

ghost use Rattle.std.specs.Prelude.{◌≡◌, ◌<◌, ◌≤◌, ◌^◌, length, IfSome};
ghost use Rattle.xxh_io.specs.Kind.{digits_of};
ghost use Rattle.xxhsum_line.specs.Digits.{digit_of, in_order, number_of, value_shown};

use xxh_io::kind::Kind;

/// Maximum number of digits of a digest.
pub const MOST_DIGITS: usize = 32;

/// Returns the value of a digit of either case. `None` if the byte is no digit.
pub fn digit_of(byte: u8) -> Option<u8>
    ensures value { result ≡ digit_of byte }
    ensures small { IfSome result (λ digit. digit < 16) }
{
    match byte {
        b'0'..=b'9' => Some(byte - b'0'),
        b'a'..=b'f' => Some(byte - b'a' + 10),
        b'A'..=b'F' => Some(byte - b'A' + 10),
        _ => None,
    }
}

/// Returns the value of at most 32 digits, the most significant first. `None` if a byte is no digit.
#[tactic(auto, using(crate::proofs::ShownFacts::powers))]
pub fn number_of(digits: &[u8]) -> Option<u128>
    requires { length digits.now ≤ 32 }
    ensures value { result ≡ number_of digits.now }
    ensures in_range { IfSome result (λ number. number < 16 ^ length digits.now) }
{
    let mut number: u128 = 0;
    for byte in digits {
        let digit = digit_of(*byte)?;
        number = number * 16 + u128::from(digit);
    }
    Some(number)
}

/// Returns the digest by this algorithm; if `is_little`, with its bytes in reverse order.
#[tactic(auto, using(crate::proofs::ShownFacts::orders), unfolding(crate::specs::Digits::bytes_reversed))]
pub fn in_order(kind: Kind, is_little: bool, value: u128) -> u128
    ensures value { result ≡ in_order kind is_little value }
    ensures in_range { value < 16 ^ digits_of kind → result < 16 ^ digits_of kind }
{
    if !is_little {
        return value;
    }
    let mut left = value;
    let mut reversed: u128 = 0;
    for done in 0..kind.digits() / 2 {
        reversed = reversed * 256 + left % 256;
        left /= 256;
    }
    reversed
}

/// Returns the digest of the digits by this algorithm, with its least significant byte first if `is_little`. `None` if
/// the algorithm has another number of digits, or a byte is no digit.
pub fn value_shown(kind: Kind, digits: &[u8], is_little: bool) -> Option<u128>
    ensures value { result ≡ value_shown kind is_little digits.now }
    ensures in_range { IfSome result (λ value. value < 16 ^ digits_of kind) }
{
    if digits.len() != kind.digits() {
        return None;
    }
    let number = number_of(digits)?;
    Some(in_order(kind, is_little, number))
}
