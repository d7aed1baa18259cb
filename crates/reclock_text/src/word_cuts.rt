// The first words of a line: a given one, and a number.
ghost use Rattle.std.specs.Prelude.{◌≡◌, ◌≢◌, ℕ, ◌^◌, ◌<◌, List, ◌∷◌, ◌++◌, MatchOption};
ghost use Rattle.std.specs.Fmt.{decimal};
ghost use Rattle.std.specs.List.{AllByRecursion};

use feed_text::{cut_at, number};

// What stands behind a word and a space.
pub(crate) fn behind<'a>(word: &[u8], line: &'a [u8]) -> Option<&'a [u8]>
    requires { AllByRecursion (λ x. x ≢ 32) word.now }
    ensures { MatchOption result
        ((rest : List ℕ) → line.entry.now ≡ word.now ++ 32 ∷ rest → ⊥)
        (λ rest. line.entry.now ≡ word.now ++ 32 ∷ rest.now) }
{
    match cut_at(b' ', line) {
        None => None,
        Some((first, rest)) => {
            if first == word {
                return Some(rest);
            }
            None
        }
    }
}

// A number, and what stands behind it and a space.
pub(crate) fn number_and_rest(text: &[u8]) -> Option<(u64, &[u8])>
    ensures { MatchOption result
        ((n : ℕ) (rest : List ℕ) → n < 2 ^ 64 → text.now ≡ decimal n ++ 32 ∷ rest → ⊥)
        (λ found. (found.0 < 2 ^ 64) × (text.now ≡ decimal found.0 ++ 32 ∷ found.1.now)) }
{
    match cut_at(b' ', text) {
        None => None,
        Some((word, rest)) => match number(word) {
            None => None,
            Some(value) => Some((value, rest)),
        },
    }
}
