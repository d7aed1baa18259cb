// How often a line has a client polled.
ghost use Rattle.std.specs.Prelude.{◌≡◌, ℕ, ◌≤◌, MatchOption};
ghost use Rattle.std.specs.Fmt.{decimal};
ghost use Rattle.step_text.specs.Words.{IsPolls};

use feed_text::number;

/// A line has a client polled at most this many times.
pub const MAX_POLLS: u64 = 1_000_000;

/// How many polls a word says: 1 to 1,000,000.
pub fn polls(word: &[u8]) -> Option<u64>
    ensures { MatchOption result
        ((n : ℕ) → IsPolls n → word.now ≡ decimal n → ⊥)
        (λ n. IsPolls n × (word.now ≡ decimal n)) }
{
    let count = number(word)?;
    if count < 1 {
        return None;
    }
    if count > MAX_POLLS {
        return None;
    }
    Some(count)
}
