// A line, by its grammar.
ghost use Rattle.std.specs.Prelude.{◌≡◌, ◌==◌, ◌∷◌, [], ℕ, List, length};
ghost use Rattle.cmdlet_line.specs.Words.{words_of};
ghost use Rattle.cmdlet_line.specs.Lines.{Gives, ask_of, asked_by, is_silent, line_of};

use crate::commands::command;
use crate::limits::MOST_LINE;
use crate::lines::{Line, LineFault};
use crate::quotes::has_bad_quote;
use crate::spelling::{first_word, text_of};

/// What a line asks, without its newline and the carriage return before that, or its first fault
/// from the left. `volume` is the session's volume text, a letter and a colon. Takes no memory.
pub fn parse(line: &[u8], volume: [u8; 2]) -> Result<Line<'_>, LineFault<'_>>
    ensures { Gives ask_of result (line_of volume line.now) }
{
    if line.len() > MOST_LINE {
        return Err(LineFault::LineTooLong);
    }
    if is_silent(text_of(line)) {
        return Ok(Line::Silent);
    }
    if has_bad_quote(line) {
        return Err(LineFault::BadQuote);
    }
    asked_by(line)
}

/// Is the text nothing or a remark?
fn is_silent(text: &[u8]) -> bool
    ensures { result ≡ is_silent text.now }
{
    matches!(text, [] | [b'#', ..])
}

/// What the words of a line without bad quotes ask.
fn asked_by(line: &[u8]) -> Result<Line<'_>, LineFault<'_>>
    ensures { Gives ask_of result (asked_by (words_of line.now)) }
{
    match first_word(line) {
        Some((word, rest)) => command(word, rest),
        None => Ok(Line::Silent),
    }
}
