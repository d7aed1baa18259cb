// What became of a call.

/// Whether a call took effect, and whether its reply was lost.
#[derive(Clone, Copy, Debug, PartialEq, Eq)]
pub enum Outcome {
    Took,
    FailedTook,
    FailedLost,
}
