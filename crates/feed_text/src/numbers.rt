// The words of a line that are numbers, each in its one spelling.
ghost use Rattle.std.specs.Prelude.{◌≡◌, ◌≢◌, ℕ, ℤ, ◌∷◌, slice_index, ◌+◌, ◌*◌, ◌^◌, ◌<◌, ◌≤◌, Option, IsTrue, ◌↔◌, IfSome, IfNone, MatchOption, FitsSigned};
ghost use Rattle.std.specs.Char.{digit_value};
ghost use Rattle.std.specs.Fmt.{decimal, signed_decimal};
ghost use Rattle.std.specs.Int.{w64};
ghost use Rattle.std.specs.Str.Parse.{AllDigits, digits_value};
ghost use Rattle.feed_text.specs.Grammar.{frontier_text};
ghost use Rattle.feed_text.specs.Words.{IsPlain};

use update_core::Frontier;

// The digit that a byte writes.
fn digit(byte: u8) -> Option<u64>
    ensures { MatchOption result (10 ≤ digit_value byte) (λ d. (d ≡ digit_value byte) × (d < 10)) }
{
    if byte < b'0' || b'9' < byte {
        return None;
    }
    Some(u64::from(byte - b'0'))
}

// One more digit at the end of a number, where it still fits.
fn with_digit(value: u64, digit: u64) -> Option<u64>
    requires { digit < 10 }
    ensures { MatchOption result (2 ^ 64 ≤ value * 10 + digit) (λ n. (n < 2 ^ 64) × (n ≡ value * 10 + digit)) }
{
    if value > (u64::MAX - digit) / 10 {
        return None;
    }
    Some(value * 10 + digit)
}

// The number that digits write, where it fits.
fn digits(word: &[u8]) -> Option<u64>
    ensures some { IfSome result (λ n. (n < 2 ^ 64) × AllDigits 10 word.now × (n ≡ digits_value 10 word.now)) }
    ensures none { IfNone result (AllDigits 10 word.now → 2 ^ 64 ≤ digits_value 10 word.now) }
{
    let mut value = 0u64;
    for byte in word {
        let digit = digit(*byte)?;
        value = with_digit(value, digit)?;
    }
    Some(value)
}

// Whether there is something, and no zero before other digits.
fn is_plain(word: &[u8]) -> bool
    ensures { IsTrue result ↔ IsPlain word.now }
{
    match word.len() {
        0 => false,
        1 => true,
        _ => word[0] != b'0',
    }
}

/// The number that a word writes, in its one spelling, within 64 bits.
pub fn number(word: &[u8]) -> Option<u64>
    ensures some { IfSome result (λ n. (n < 2 ^ 64) × (word.now ≡ decimal n)) }
    ensures none { IfNone result ((n : ℕ) → n < 2 ^ 64 → word.now ≡ decimal n → ⊥) }
{
    if !is_plain(word) {
        return None;
    }
    digits(word)
}

// The number below 0 that a word writes behind its minus.
fn negative(word: &[u8]) -> Option<i64>
    ensures some { IfSome result (λ z. FitsSigned w64 z × (45 ∷ word.now ≡ signed_decimal z)) }
    ensures none { IfNone result ((z : ℤ) → FitsSigned w64 z → 45 ∷ word.now ≡ signed_decimal z → ⊥) }
{
    let size = number(word)?;
    if size == 0 {
        return None;
    }
    if size > 1 << 63 {
        return None;
    }
    Some(-1 - (size - 1) as i64)
}

// The number from 0 on that a word writes.
fn positive(word: &[u8]) -> Option<i64>
    ensures some { IfSome result (λ z. FitsSigned w64 z × (word.now ≡ signed_decimal z)) }
    ensures none { IfNone result
        ((z : ℤ) → FitsSigned w64 z → slice_index word.now 0 ≢ 45 → word.now ≡ signed_decimal z → ⊥) }
{
    let size = number(word)?;
    if size >= 1 << 63 {
        return None;
    }
    Some(size as i64)
}

// The difference that a word writes.
pub(crate) fn difference(word: &[u8]) -> Option<i64>
    ensures some { IfSome result (λ z. FitsSigned w64 z × (word.now ≡ signed_decimal z)) }
    ensures none { IfNone result ((z : ℤ) → FitsSigned w64 z → word.now ≡ signed_decimal z → ⊥) }
{
    if !word.is_empty() && word[0] == b'-' {
        return negative(&word[1..]);
    }
    positive(word)
}

// The frontier that a word writes.
pub(crate) fn frontier(word: &[u8]) -> Option<Frontier>
    ensures some { IfSome result (λ f. IfSome f (λ t. t < 2 ^ 64) × (word.now ≡ frontier_text f)) }
    ensures none { IfNone result ((f : Option ℕ) → IfSome f (λ t. t < 2 ^ 64) → word.now ≡ frontier_text f → ⊥) }
{
    if word == b"closed".as_slice() {
        return Some(Frontier::closed());
    }
    let time = number(word)?;
    Some(Frontier::at(time))
}
