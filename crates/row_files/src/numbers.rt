// Numbers and bytes in digits.
use std::alloc::AllocError;

/// The value of a hexadecimal digit of either case.
fn digit(byte: u8) -> Option<u8> {
    match byte {
        b'0'..=b'9' => Some(byte - b'0'),
        b'a'..=b'f' => Some(byte - b'a' + 10),
        b'A'..=b'F' => Some(byte - b'A' + 10),
        _ => None,
    }
}

/// The hexadecimal digit of a number below 16; `?` of a larger one.
pub fn digit_of(value: u8) -> u8 {
    match value {
        0..=9 => b'0' + value,
        10..=15 => b'a' + (value - 10),
        _ => b'?',
    }
}

/// The byte of two hexadecimal digits.
pub fn byte_of(high: u8, low: u8) -> Option<u8> {
    Some((digit(high)? << 4) | digit(low)?)
}

/// The number of decimal digits; None of other texts and of a number that needs more than 64 bits.
pub fn number(text: &[u8]) -> Option<u64> {
    if text.is_empty() {
        return None;
    }
    let mut number = 0u64;
    for byte in text {
        if !byte.is_ascii_digit() {
            return None;
        }
        let value = u64::from(digit(*byte)?);
        number = number.checked_mul(10)?.checked_add(value)?;
    }
    Some(number)
}

/// Adds the bytes of pairs of hexadecimal digits, between which spaces may stand, and answers whether the whole text
/// was such pairs.
pub fn push_hex(to: &mut Vec<u8>, text: &[u8]) -> Result<bool, AllocError> {
    let mut rest = text;
    for _ in 0..text.len() {
        rest = match rest {
            [b' ', behind @ ..] => behind,
            [high, low, behind @ ..] => match byte_of(*high, *low) {
                Some(byte) => {
                    to.push(byte)?;
                    behind
                }
                None => return Ok(false),
            },
            _ => break,
        };
    }
    Ok(rest.is_empty())
}
