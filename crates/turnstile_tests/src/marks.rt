// One entry of a tally.

/// An amount, with the number of the pass that added it.
#[derive(Clone, Copy, Debug)]
pub struct Mark {
    pub client: u64,
    pub amount: u64,
}
