// What texts stand for.
use crate::numbers::byte_of;
use std::alloc::AllocError;

/// The byte that stands for two, the first of which is a backslash.
fn unescaped(byte: u8) -> u8 {
    match byte {
        b'0' => 0,
        b'n' => b'\n',
        b'r' => b'\r',
        b's' => b' ',
        _ => byte,
    }
}

/// The first byte that a text stands for, and the text behind it; None at the end and before a last backslash.
fn first_byte(text: &[u8]) -> Option<(u8, &[u8])> {
    match text {
        [] | [b'\\'] => None,
        [b'\\', b'x', high, low, rest @ ..] => Some((byte_of(*high, *low)?, rest)),
        [b'\\', byte, rest @ ..] => Some((unescaped(*byte), rest)),
        [byte, rest @ ..] => Some((*byte, rest)),
    }
}

/// Adds the bytes that a text stands for, without a newline, and answers with what is left of it: nothing, or a
/// backslash at its end, or a `\x` with no two digits behind it.
pub fn push_bytes<'a>(to: &mut Vec<u8>, text: &'a [u8]) -> Result<&'a [u8], AllocError> {
    let mut rest = text;
    for _ in 0..text.len() {
        let Some((byte, behind)) = first_byte(rest) else {
            break;
        };
        to.push(byte)?;
        rest = behind;
    }
    Ok(rest)
}

/// Adds the bytes that a line's text stands for, and a newline unless the text ends in a backslash.
pub fn push_line(to: &mut Vec<u8>, text: &[u8]) -> Result<(), AllocError> {
    if push_bytes(to, text)?.is_empty() {
        to.push(b'\n')?;
    }
    Ok(())
}
