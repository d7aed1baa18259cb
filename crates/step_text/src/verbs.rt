// The first words of a schedule's lines.
ghost use Rattle.std.specs.Prelude.{◌≡◌, MatchOption};
ghost use Rattle.step_text.specs.declared.verbs.Verb.{Verb};
ghost use Rattle.step_text.specs.Schedules.{verb_word};

/// The first word of a line, behind which something stands.
#[derive(Clone, Copy, Debug)]
pub enum Verb {
    Writer,
    Reader,
    Compactor,
    Collector,
    Expirer,
    Moment,
    Begin,
    Step,
    Stop,
}

/// The verb that a word is.
pub fn verb_of(word: &[u8]) -> Option<Verb>
    ensures { MatchOption result ((v : Verb) → word.now ≡ verb_word v → ⊥) (λ v. word.now ≡ verb_word v) }
{
    if word == b"writer".as_slice() {
        return Some(Verb::Writer);
    }
    if word == b"reader".as_slice() {
        return Some(Verb::Reader);
    }
    if word == b"compactor".as_slice() {
        return Some(Verb::Compactor);
    }
    if word == b"collector".as_slice() {
        return Some(Verb::Collector);
    }
    if word == b"expirer".as_slice() {
        return Some(Verb::Expirer);
    }
    if word == b"moment".as_slice() {
        return Some(Verb::Moment);
    }
    if word == b"begin".as_slice() {
        return Some(Verb::Begin);
    }
    if word == b"step".as_slice() {
        return Some(Verb::Step);
    }
    if word == b"stop".as_slice() {
        return Some(Verb::Stop);
    }
    None
}
