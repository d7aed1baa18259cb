// Names of a schedule's clients.
ghost use Rattle.std.specs.Prelude.{◌≡◌, ◌≤◌, ◌⊎◌, IsTrue, ◌↔◌};
ghost use Rattle.step_text.specs.Words.{IsLetter, IsName};

/// A name has at most this many letters.
pub const MAX_NAME: usize = 8;

fn is_letter(byte: u8) -> bool
    ensures { IsTrue result ↔ IsLetter byte }
{
    (b'A' <= byte && byte <= b'Z') || (b'a' <= byte && byte <= b'z')
}

/// Whether a word is a name: 1 to 8 ASCII letters.
pub fn is_name(word: &[u8]) -> bool
    ensures { IsTrue result ↔ IsName word.now }
{
    if word.is_empty() {
        return false;
    }
    if word.len() > MAX_NAME {
        return false;
    }
    for byte in word {
        if !is_letter(*byte) {
            return false;
        }
    }
    true
}
