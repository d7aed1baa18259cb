// Cuts: a line at a space, and a text at the end of its first line.
ghost use Rattle.std.specs.Prelude.{◌≡◌, ◌≢◌, ◌==◌, ◌<◌, ◌∷◌, ◌++◌, length, MatchOption, position};
ghost use Rattle.std.specs.List.{AllByRecursion};
ghost use Rattle.feed_text.specs.Lines.{lines_of};

// The place of the first such byte.
fn place_of(byte: u8, text: &[u8]) -> Option<usize>
    ensures { result ≡ position (λ x. x == byte) text.now }
{
    text.iter().position(|x| *x == byte)
}

/// What stands before the first such byte, and what stands after it.
pub fn cut_at(byte: u8, text: &[u8]) -> Option<(&[u8], &[u8])>
    ensures { MatchOption result (AllByRecursion (λ x. x ≢ byte) text.now)
        (λ cut. (text.now ≡ cut.0.now ++ byte ∷ cut.1.now) × AllByRecursion (λ x. x ≢ byte) cut.0.now) }
{
    let place = place_of(byte, text)?;
    Some((&text[..place], &text[place + 1..]))
}

/// The first line of a text that has one, and the text after it.
pub fn next_line(text: &[u8]) -> (&[u8], &[u8])
    requires { 0 < length text.now }
    ensures lines { lines_of text.now ≡ result.0.now ∷ lines_of result.1.now }
    ensures one_line { AllByRecursion (λ b. b ≢ 10) result.0.now }
    ensures shorter { length result.1.now < length text.now }
{
    match cut_at(b'\n', text) {
        Some((line, rest)) => (line, rest),
        None => (text, &text[text.len()..]),
    }
}
