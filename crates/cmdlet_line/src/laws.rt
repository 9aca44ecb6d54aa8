// Laws of the grammar, in the words of its rules. None of these functions does anything: each
// states a fact about every line.
ghost use Rattle.std.specs.Prelude.{◌≡◌, ◌==◌, ◌<◌, ◌≤◌, ◌+◌, ◌++◌, ◌∷◌, ◌^◌, ◌-◌, ◌≢◌, ◌↔◌, [], ℕ, List, codes, length, replicate, take, true, false, None, Some, Ok, Err, Result};
ghost use Rattle.std.specs.Fmt.{decimal};
ghost use Rattle.cmdlet_line.specs.Words.{behind_spaces, number_in};
ghost use Rattle.cmdlet_line.specs.Lines.{Ask, BadQuote, BadValue, LineTooLong, MissingValue, NotBuilt, Refusal, Silent, UnknownCommand, UnknownParameter, is_command, is_silent, line_of, split};
ghost use Rattle.cmdlet_line.specs.Spelled.{AreInRange, AreSpaced, HasNoQuote, HasWords, IsNumber, IsWord, Spaced, between_spaces, laid, words_for, words_laid};

use crate::limits::{MOST_COUNT, MOST_DIGITS, MOST_LINE};

/// The limits of a line, of a number and of a count.
pub fn limits_are_these()
    ensures line { MOST_LINE ≡ 4096 }
    ensures digits { MOST_DIGITS ≡ 20 }
    ensures count { MOST_COUNT ≡ 1048576 }
{}

/// Every list of bytes has exactly one meaning.
pub fn each_line_has_one_meaning()
    ensures { (volume line : List ℕ) → (one : Result Ask Refusal)
        × ((other : Result Ask Refusal) → (line_of volume line ≡ other) ↔ (other ≡ one)) }
{}

/// A longer line than `MOST_LINE` is too long, whatever it holds.
pub fn long_lines_are_refused()
    ensures { (volume line : List ℕ) → MOST_LINE < length line → line_of volume line ≡ Err LineTooLong }
{}

/// The first bytes of a line, up to one beyond its limit, say what all of it says.
pub fn a_long_line_is_known_by_its_front()
    ensures { (volume line : List ℕ) → line_of volume (take (MOST_LINE + 1) line) ≡ line_of volume line }
{}

/// An empty line and one of spaces ask nothing.
pub fn spaces_are_silent()
    ensures { (volume : List ℕ) (n : ℕ) → n ≤ MOST_LINE → line_of volume (replicate n 32) ≡ Ok Silent }
{}

/// A line whose first byte after spaces is `#` asks nothing, whatever stands behind it.
pub fn remarks_are_silent()
    ensures { (volume rest : List ℕ) (n : ℕ) → n + 1 + length rest ≤ MOST_LINE
        → line_of volume (replicate n 32 ++ 35 ∷ rest) ≡ Ok Silent }
{}

/// Words are what stands between spaces, however many these are, and between two double quotes.
pub fn spaced_words_are_read()
    ensures { (spaced : List Spaced) (last : ℕ) → AreSpaced 0 spaced
        → split (laid spaced last) ≡ Ok (words_laid spaced) }
{}

/// Each line that has words is its words behind their spaces.
pub fn each_line_is_spaced_words()
    ensures { (line : List ℕ) (words : List (List ℕ)) → split line ≡ Ok words
        → (spaced : List Spaced) × (last : ℕ) × AreSpaced 0 spaced × (line ≡ laid spaced last)
        × (words ≡ words_laid spaced) }
{}

/// Any other double quote is refused: one in a line that is no such row of words.
pub fn other_quotes_are_refused()
    ensures { (volume line : List ℕ) → length line ≤ MOST_LINE → is_silent (behind_spaces line) ≡ false
        → ((spaced : List Spaced) (last : ℕ) → AreSpaced 0 spaced → line ≢ laid spaced last)
        → line_of volume line ≡ Err BadQuote }
{}

/// So a double quote is refused inside a bare word, where anything but a space stands behind a
/// quoted word, and where it is not closed.
pub fn quotes_stand_round_whole_words()
    ensures inside { (front word rest : List ℕ) (words : List (List ℕ)) → split front ≡ Ok words
        → IsWord false word → split (front ++ 32 ∷ (word ++ 34 ∷ rest)) ≡ Err BadQuote }
    ensures touched { (front word rest : List ℕ) (b : ℕ) (words : List (List ℕ)) → split front ≡ Ok words
        → IsWord true word → b ≢ 32 → split (front ++ 32 ∷ 34 ∷ (word ++ 34 ∷ b ∷ rest)) ≡ Err BadQuote }
    ensures unclosed { (front word : List ℕ) (words : List (List ℕ)) → split front ≡ Ok words
        → IsWord true word → split (front ++ 32 ∷ 34 ∷ word) ≡ Err BadQuote }
{}

/// The words of a line without quotes are what stands between its spaces.
pub fn lines_without_quotes_are_cut_at_spaces()
    ensures { (line : List ℕ) → HasNoQuote line → split line ≡ Ok (between_spaces line) }
{}

/// A word is a number exactly where it is 1 to 20 digits without a sign, and what they write is
/// in range.
pub fn numbers_are_digits_in_range()
    ensures { (least most n : ℕ) (word : List ℕ) → (number_in least most word ≡ Some n)
        ↔ IsNumber least most n word }
{}

/// The decimal of a number is read as that number.
pub fn decimals_are_read()
    ensures { (least most n : ℕ) → least ≤ n → n ≤ most → n < 2 ^ 64 → number_in least most (decimal n) ≡ Some n }
{}

/// A line that has the words of what is asked asks it.
pub fn words_ask_what_they_say()
    ensures { (volume line : List ℕ) (ask : Ask) → AreInRange ask → HasWords line (words_for ask)
        → line_of volume line ≡ Ok ask }
{}

/// The numbers that a line asks for are in range.
pub fn what_is_asked_is_in_range()
    ensures { (volume line : List ℕ) (ask : Ask) → line_of volume line ≡ Ok ask → AreInRange ask }
{}

/// A line that has more words is refused by the first of them.
pub fn further_words_are_refused()
    ensures { (volume line word : List ℕ) (ask : Ask) (rest : List (List ℕ)) → AreInRange ask → ask ≢ Silent
        → HasWords line (words_for ask ++ word ∷ rest) → line_of volume line ≡ Err (UnknownParameter word) }
{}

/// The command is looked at before the words behind it.
pub fn commands_come_before_their_words()
    ensures unknown { (volume line word : List ℕ) (rest : List (List ℕ)) → HasWords line (word ∷ rest)
        → is_silent (behind_spaces line) ≡ false → is_command word ≡ false
        → line_of volume line ≡ Err (UnknownCommand word) }
    ensures turn { (volume line : List ℕ) (rest : List (List ℕ)) → HasWords line (codes "turn" ∷ rest)
        → line_of volume line ≡ Err (NotBuilt (codes "turn")) }
    ensures load { (volume line : List ℕ) (rest : List (List ℕ)) → HasWords line (codes "load" ∷ rest)
        → line_of volume line ≡ Err (NotBuilt (codes "load")) }
{}

/// The first word at fault from the left decides, whatever stands behind it.
pub fn first_fault_decides()
    ensures at { (volume line name at : List ℕ) (rest : List (List ℕ))
        → HasWords line (codes "write" ∷ name ∷ at ∷ rest) → number_in 0 (2 ^ 64 - 1) at ≡ None
        → line_of volume line ≡ Err (BadValue (codes "At")) }
    ensures count { (volume line name at count : List ℕ) (rest : List (List ℕ))
        → HasWords line (codes "write" ∷ name ∷ at ∷ count ∷ rest)
        → number_in 0 (2 ^ 64 - 1) at ≢ None → number_in 0 MOST_COUNT count ≡ None
        → line_of volume line ≡ Err (BadValue (codes "Count")) }
{}

/// A line with too few words is refused by the parameter that the first missing word stands for.
pub fn missing_words_are_named()
    ensures name { (volume line : List ℕ) → HasWords line (codes "write" ∷ [])
        → line_of volume line ≡ Err (MissingValue (codes "Name")) }
    ensures at { (volume line name : List ℕ) → HasWords line (codes "write" ∷ name ∷ [])
        → line_of volume line ≡ Err (MissingValue (codes "At")) }
    ensures count { (volume line name at : List ℕ) → HasWords line (codes "write" ∷ name ∷ at ∷ [])
        → number_in 0 (2 ^ 64 - 1) at ≢ None → line_of volume line ≡ Err (MissingValue (codes "Count")) }
{}
