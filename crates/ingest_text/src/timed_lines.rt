// A word and a time on a line.
ghost use Rattle.std.specs.Prelude.{◌≡◌, ◌≢◌, ℕ, ◌^◌, ◌<◌, ◌∷◌, ◌++◌, MatchOption};
ghost use Rattle.std.specs.Fmt.{decimal};
ghost use Rattle.std.specs.List.{AllByRecursion};

use feed_text::{cut_at, number};

// The time that a line has behind a word.
pub(crate) fn time_behind(word: &[u8], line: &[u8]) -> Option<u64>
    requires { AllByRecursion (λ x. x ≢ 32) word.now }
    ensures { MatchOption result
        ((t : ℕ) → t < 2 ^ 64 → line.now ≡ word.now ++ 32 ∷ decimal t → ⊥)
        (λ t. (t < 2 ^ 64) × (line.now ≡ word.now ++ 32 ∷ decimal t)) }
{
    match cut_at(b' ', line) {
        None => None,
        Some((first, rest)) => {
            if first == word {
                return number(rest);
            }
            None
        }
    }
}
