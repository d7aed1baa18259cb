// A call that fails.

/// The call with this number fails, having taken effect or not.
#[derive(Clone, Copy, Debug, PartialEq, Eq)]
pub struct FaultAt {
    pub number: u64,
    pub took: bool,
}
