// Words from the left, and what they spell.
ghost use Rattle.std.specs.Prelude.{◌≡◌, ◌∷◌, ◌≤◌, ◌<◌, ◌==◌, [], ℕ, List, length, MatchOption, Some, true};
ghost use Rattle.std.specs.List.{list_all, position};
ghost use Rattle.std.specs.Char.{is_ascii_digit};
ghost use Rattle.std.specs.Str.{bytes_eq, str_eq_ignore_ascii_case};
ghost use Rattle.std.specs.Str.Parse.{digits_value};
ghost use Rattle.cmdlet_line.specs.Words.{behind_spaces, is_no_space, is_numeral, number_in, number_of, within, words_from, words_of};

use crate::limits::MOST_DIGITS;

/// The line without the spaces that it begins with.
pub(crate) fn text_of(line: &[u8]) -> &[u8]
    ensures { result.now ≡ behind_spaces line.now }
{
    let start = first_text(line).unwrap_or(line.len());
    &line[start..]
}

fn first_text(line: &[u8]) -> Option<usize>
    ensures { result ≡ position is_no_space line.now }
{
    line.iter().position(|byte| *byte != b' ')
}

/// The first word without its quotes, and the bytes behind it, in a line without bad quotes.
pub(crate) fn first_word(line: &[u8]) -> Option<(&[u8], &[u8])>
    ensures { MatchOption result (words_of line.now ≡ [])
        (λ found. words_of line.now ≡ found.0.now ∷ words_of found.1.now) }
{
    let text = text_of(line);
    if text.is_empty() {
        return None;
    }
    if text[0] == b'"' {
        Some(word_until(b'"', &text[1..]))
    } else {
        Some(word_until(b' ', text))
    }
}

/// What stands before the first byte `end`, and what stands behind that byte.
fn word_until(end: u8, text: &[u8]) -> (&[u8], &[u8])
    ensures { words_from (Some end) text.now ≡ result.0.now ∷ words_of result.1.now }
{
    match first_place(end, text) {
        Some(at) => (&text[..at], &text[at + 1..]),
        None => (text, &[]),
    }
}

fn first_place(byte: u8, text: &[u8]) -> Option<usize>
    ensures { result ≡ position (λ b. b == byte) text.now }
{
    text.iter().position(|other| *other == byte)
}

/// Is the word the name, byte by byte?
pub(crate) fn is_word(word: &[u8], name: &str) -> bool
    ensures { result ≡ bytes_eq word.now name.now }
{
    word == name.as_bytes()
}

/// Does the word spell the name, without regard to ASCII case?
pub(crate) fn is_cmdlet(word: &[u8], name: &str) -> bool
    ensures { result ≡ str_eq_ignore_ascii_case word.now name.now }
{
    word.eq_ignore_ascii_case(name.as_bytes())
}

/// The number from `least` to `most` that a word writes.
pub(crate) fn number(word: &[u8], least: u64, most: u64) -> Option<u64>
    ensures { result ≡ number_in least most word.now }
{
    match any_number(word) {
        Some(value) if least <= value && value <= most => Some(value),
        _ => None,
    }
}

/// The number of 64 bits that a word writes.
fn any_number(word: &[u8]) -> Option<u64>
    ensures { result ≡ number_of word.now }
{
    if !is_numeral(word) {
        return None;
    }
    u64::try_from(value_of(word)).ok()
}

fn is_numeral(word: &[u8]) -> bool
    ensures { result ≡ is_numeral word.now }
{
    1 <= word.len() && word.len() <= MOST_DIGITS && has_digits_only(word)
}

fn has_digits_only(word: &[u8]) -> bool
    ensures { result ≡ list_all is_ascii_digit word.now }
{
    word.iter().all(|byte| byte.is_ascii_digit())
}

/// The value of a numeral, which may have more than 64 bits.
fn value_of(digits: &[u8]) -> u128
    requires { is_numeral digits.now ≡ true }
    ensures { result ≡ digits_value 10 digits.now }
{
    let mut value = 0;
    for digit in digits {
        value = value * 10 + u128::from(*digit - b'0');
    }
    value
}
