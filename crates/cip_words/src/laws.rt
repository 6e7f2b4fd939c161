//! What a transcript shows of numbers and bytes is read back.
ghost use Rattle.std.specs.Prelude.{◌≡◌, ℕ, ◌<◌, ◌^◌, ◌++◌, ◌∷◌, List, Some, decimal, All, false};
ghost use Rattle.hex.specs.Hex.{IsBytes};
ghost use Rattle.cip_words.specs.Shown.{below, number_of, bytes_of, bytes_shown};
ghost use Rattle.cip_words.specs.Shown.{is_space, words_of};

/// The digits of a number are read as that number, where it is within the bound.
pub fn shown_numbers_are_read()
    ensures { (bound n : ℕ) → n < bound → n < 2 ^ 64
        → below bound (number_of (decimal n)) ≡ Some n }
{}

/// Bytes that are shown as pairs of digits, or as a dash, are read as those bytes.
pub fn shown_bytes_are_read()
    ensures { (bytes : List ℕ) → IsBytes bytes → bytes_of (bytes_shown bytes) ≡ Some bytes }
{}

/// A word without a space in front of a space is the first word of the line.
pub fn shown_words_are_parted()
    ensures { (word rest : List ℕ) → All (λ b. is_space b ≡ false) word
        → words_of (word ++ 32 ∷ rest) ≡ word ∷ words_of rest }
{}
