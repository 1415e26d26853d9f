//! Numbers in hexadecimal, and lines of them.

ghost use Rattle.std.specs.Prelude.{◌≡◌, ◌<◌, ◌^◌, length};
ghost use Rattle.xxh_io.specs.Hex.{hex_digit, hex_digits, hex_value, offset_line};

/// Length of a block's line: 16 digits, a space, 32 digits and a newline.
pub const LINE: usize = 50;

// Returns the lower-case digit of a number below 16.
fn digit(n: u8) -> u8
    requires { n < 16 }
    ensures { result ≡ hex_digit n }
{
    if n < 10 { b'0' + n } else { b'a' - 10 + n }
}

/// Fills the slice with the value's lowest digits, the lowest of them last.
#[tactic(auto, using(crate::proofs::HexValue::hex_laws))]
pub fn write_digits(value: u128, out: &mut [u8])
    ensures digits { out.new ≡ hex_digits (length out.old) value }
    ensures value { value < 16 ^ length out.old → hex_value out.new ≡ value }
{
    let mut rest = value;
    for i in (0..out.len()).rev() {
        out[i] = digit((rest % 16) as u8);
        rest /= 16;
    }
}

/// Returns the line of a block with this offset and this value.
pub fn offset_line(offset: u64, value: u128) -> [u8; LINE]
    ensures { result ≡ offset_line offset value }
{
    let mut line = [b'\n'; LINE];
    write_digits(u128::from(offset), &mut line[..16]);
    line[16] = b' ';
    write_digits(value, &mut line[17..49]);
    line
}
