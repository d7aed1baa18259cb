// Bytes with one answer.
use crate::answers::Answer;
use std::fmt;

/// Neighbouring bytes, each of which makes the same of a version.
#[derive(Clone, Copy)]
pub struct Run {
    pub first: u8,
    pub last: u8,
    pub answer: Answer,
}

impl fmt::Display for Run {
    fn fmt<W: fmt::Write>(&self, f: &mut fmt::Formatter<W>) -> fmt::Result {
        let Run {
            first,
            last,
            answer,
        } = self;
        if first == last {
            write!(f, "{first:02x} {answer}")
        } else {
            write!(f, "{first:02x}-{last:02x} {answer}")
        }
    }
}
