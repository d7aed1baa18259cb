// What some bytes are.
use std::fmt;

/// What some bytes are: a version, or the first fault and its place.
#[derive(Clone, Copy, PartialEq, Eq)]
pub enum Answer {
    /// A version, which is spelled by these bytes.
    Ok,
    /// A version, which is spelled by other bytes: none is.
    Respelled,
    Short(u64),
    Magic(u64),
    Form(u64),
    Tag(u64),
    Rule(u64),
    Trailing(u64),
}

impl fmt::Display for Answer {
    fn fmt<W: fmt::Write>(&self, f: &mut fmt::Formatter<W>) -> fmt::Result {
        match self {
            Answer::Ok => write!(f, "ok"),
            Answer::Respelled => write!(f, "respelled"),
            Answer::Short(place) => write!(f, "short {place}"),
            Answer::Magic(place) => write!(f, "magic {place}"),
            Answer::Form(place) => write!(f, "form {place}"),
            Answer::Tag(place) => write!(f, "tag {place}"),
            Answer::Rule(place) => write!(f, "rule {place}"),
            Answer::Trailing(place) => write!(f, "trailing {place}"),
        }
    }
}
