//! Numbers as they stand in a text.
ghost use Rattle.std.specs.Prelude.{◌≡◌, ◌^◌, ◌≤◌};
ghost use Rattle.std.specs.Char.{digit_value};
ghost use Rattle.cip_tool.specs.Numbers.{numeral, number_of, below};

// The value of each byte as a digit in any radix up to 36, and 36 for what is no digit.
static DIGITS: [u8; 256] = [
    36, 36, 36, 36, 36, 36, 36, 36, 36, 36, 36, 36, 36, 36, 36, 36, 36, 36, 36, 36, 36, 36, 36, 36,
    36, 36, 36, 36, 36, 36, 36, 36, 36, 36, 36, 36, 36, 36, 36, 36, 36, 36, 36, 36, 36, 36, 36, 36,
    0, 1, 2, 3, 4, 5, 6, 7, 8, 9, 36, 36, 36, 36, 36, 36, 36, 10, 11, 12, 13, 14, 15, 16, 17, 18,
    19, 20, 21, 22, 23, 24, 25, 26, 27, 28, 29, 30, 31, 32, 33, 34, 35, 36, 36, 36, 36, 36, 36, 10,
    11, 12, 13, 14, 15, 16, 17, 18, 19, 20, 21, 22, 23, 24, 25, 26, 27, 28, 29, 30, 31, 32, 33, 34,
    35, 36, 36, 36, 36, 36, 36, 36, 36, 36, 36, 36, 36, 36, 36, 36, 36, 36, 36, 36, 36, 36, 36, 36,
    36, 36, 36, 36, 36, 36, 36, 36, 36, 36, 36, 36, 36, 36, 36, 36, 36, 36, 36, 36, 36, 36, 36, 36,
    36, 36, 36, 36, 36, 36, 36, 36, 36, 36, 36, 36, 36, 36, 36, 36, 36, 36, 36, 36, 36, 36, 36, 36,
    36, 36, 36, 36, 36, 36, 36, 36, 36, 36, 36, 36, 36, 36, 36, 36, 36, 36, 36, 36, 36, 36, 36, 36,
    36, 36, 36, 36, 36, 36, 36, 36, 36, 36, 36, 36, 36, 36, 36, 36, 36, 36, 36, 36, 36, 36, 36, 36,
    36, 36, 36, 36, 36, 36, 36, 36, 36, 36, 36, 36, 36, 36,
];

/// The value of a digit in any radix up to 36, and 36 for what is no digit.
#[inline(always)]
pub fn digit(byte: u8) -> u8
    ensures { result ≡ digit_value byte }
{
    DIGITS[byte as usize]
}

// The number that digits of this radix write.
#[inline(always)]
fn numeral(digits: &[u8], radix: u8) -> Option<u64>
    requires { 1 ≤ radix }
    ensures { result ≡ below (2 ^ 64) (numeral radix digits.now) }
{
    if digits.is_empty() {
        return None;
    }
    let mut number: u64 = 0;
    for byte in digits {
        let digit = digit(*byte);
        if radix <= digit {
            return None;
        }
        let tens = number.checked_mul(u64::from(radix))?;
        number = tens.checked_add(u64::from(digit))?;
    }
    Some(number)
}

/// A number below 18,446,744,073,709,551,616, in decimal digits or after `0x` in hexadecimal ones.
pub fn number(word: &str) -> Option<u64>
    ensures { result ≡ below (2 ^ 64) (number_of word.now) }
{
    match word.strip_prefix("0x") {
        Some(digits) => numeral(digits.as_bytes(), 16),
        None => numeral(word.as_bytes(), 10),
    }
}

/// A number below 256.
pub fn number_u8(word: &str) -> Option<u8>
    ensures { result ≡ below (2 ^ 8) (number_of word.now) }
{
    match number(word) {
        Some(n) => u8::try_from(n).ok(),
        None => None,
    }
}

/// A number below 65,536.
pub fn number_u16(word: &str) -> Option<u16>
    ensures { result ≡ below (2 ^ 16) (number_of word.now) }
{
    match number(word) {
        Some(n) => u16::try_from(n).ok(),
        None => None,
    }
}

/// A number below 4,294,967,296.
pub fn number_u32(word: &str) -> Option<u32>
    ensures { result ≡ below (2 ^ 32) (number_of word.now) }
{
    match number(word) {
        Some(n) => u32::try_from(n).ok(),
        None => None,
    }
}
