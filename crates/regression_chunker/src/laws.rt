//! Laws of the definitions, each the contract of a function that does nothing.

ghost use Rattle.std.specs.Prelude.{◌≡◌, ℕ, ◌+◌, ◌<◌, ◌≤◌, min, sum, map, List, ◌++◌, ◌∷◌, [], length, replicate, slice_index, Option, Some};
ghost use Rattle.regression_chunker.specs.Cuts.{NoMatch, IsCut, IsEnough, Decides};
ghost use Rattle.regression_chunker.specs.Fingerprint.{print_of};
ghost use Rattle.regression_chunker.specs.Pieces.{known_start, IsPieces};

/// A rest is cut at one place at most, and its start decides at most one.
pub fn at_most_one_cut()
    ensures cut { (rest : List ℕ) (p q : ℕ) → IsCut rest p → IsCut rest q → p ≡ q }
    ensures decided { (start : List ℕ) (n p q : ℕ) → length start ≤ n → Decides start n p → Decides start n q → p ≡ q }
{}

/// Whatever follows a window that decides a piece, the longer window decides the same piece. A window that
/// is not enough decides none.
pub fn windows_agree()
    ensures longer { (start more : List ℕ) (n p : ℕ) → length start + length more ≤ n → Decides start n p
        → Decides (start ++ more) n p }
    ensures shorter { (start : List ℕ) (n : ℕ) → length start < min n 131072 → NoMatch 16 start 32768 (length start)
        → ¬ (IsEnough start n) }
{}

/// Cells have one list of pieces at most.
pub fn at_most_one_list_of_pieces()
    ensures { (cells : List (Option ℕ)) (ns ms : List ℕ) → IsPieces cells ns → IsPieces cells ms → ns ≡ ms }
{}

/// The pieces of a file of which no cell is lost cover it. Else they end before the first lost cell.
pub fn pieces_cover_the_file()
    ensures whole { (bytes : List ℕ) → known_start (map (λ b. Some b) bytes) ≡ bytes }
    ensures covered { (cells : List (Option ℕ)) (ns : List ℕ) → length (known_start cells) ≡ length cells
        → IsPieces cells ns → sum ns ≡ length cells }
    ensures known { (cells : List (Option ℕ)) (ns : List ℕ) → IsPieces cells ns → sum ns ≤ length (known_start cells) }
{}

/// The sizes of pieces: only the last one of a file may be short.
pub fn pieces_have_their_sizes()
    ensures size { (cells : List (Option ℕ)) (ns : List ℕ) → IsPieces cells ns → (i : ℕ) → i < length ns
        → (0 < slice_index ns i) × (slice_index ns i ≤ 131072) }
    ensures least { (cells : List (Option ℕ)) (ns : List ℕ) → IsPieces cells ns → (i : ℕ) → i + 1 < length ns
        → 32768 ≤ slice_index ns i }
{}

/// The prints of some windows, as they are known from outside.
pub fn prints_of_windows()
    ensures zeros { print_of (replicate 48 0) ≡ 0 }
    ensures last_byte { print_of (replicate 47 0 ++ 0xff ∷ []) ≡ 0xff }
    ensures last_two_bytes { print_of (replicate 46 0 ++ 0xff ∷ 0xff ∷ []) ≡ 0xffff }
    ensures eight_zeros { print_of (replicate 39 0 ++ 0x01 ∷ replicate 8 0) ≡ 0x1b }
    ensures eight_zeros_high { print_of (replicate 39 0 ++ 0x80 ∷ replicate 8 0) ≡ 0xd80 }
    ensures sixteen_zeros { print_of (replicate 31 0 ++ 0x01 ∷ replicate 16 0) ≡ 0x145 }
    ensures twenty_four_zeros { print_of (replicate 23 0 ++ 0x01 ∷ replicate 24 0) ≡ 0x1db7 }
    ensures thirty_two_zeros { print_of (replicate 15 0 ++ 0x01 ∷ replicate 32 0) ≡ 0x11011 }
    ensures forty_zeros { print_of (replicate 7 0 ++ 0x01 ∷ replicate 40 0) ≡ 0x1ab1ab }
{}
