// Numbers in decimal digits.

ghost use Rattle.std.specs.Prelude.{◌≡◌, ◌≤◌, length, take, drop, decimal};
ghost use Rattle.tb_base.specs.Numbers.{number_of, signed_of};

use itoa::Buffer;

/// The number that the text spells in 1 to 10 decimal digits; leading zeros are allowed. None where
/// the text is no such number or its value is above `u32::MAX`.
pub fn read_number(text: &[u8]) -> Option<u32>
    ensures { result ≡ number_of text.now }
{
    if text.is_empty() || text.len() > 10 {
        return None;
    }
    let mut value: u64 = 0;
    for c in text {
        if !c.is_ascii_digit() {
            return None;
        }
        value = 10 * value + u64::from(*c - b'0');
    }
    u32::try_from(value).ok()
}

/// The number that the text spells, with a minus sign before its digits or not: the digits are
/// those of `read_number`.
pub fn read_signed(text: &[u8]) -> Option<i64>
    ensures { result ≡ signed_of text.now }
{
    match text {
        [b'-', digits @ ..] => Some(-i64::from(read_number(digits)?)),
        _ => Some(i64::from(read_number(text)?)),
    }
}

/// Writes the decimal digits of `value`, without leading zeros, at the start of `buf`, and returns
/// how many they are. What stands after them stays.
pub fn print_number(value: u32, buf: &mut [u8; 10]) -> usize
    ensures digits { take result buf.new ≡ decimal value }
    ensures rest { drop result buf.new ≡ drop result buf.old }
    ensures within { result ≤ 10 }
{
    let mut digits = Buffer::new();
    let text = digits.format(value).as_bytes();
    buf[..text.len()].copy_from_slice(text);
    text.len()
}
