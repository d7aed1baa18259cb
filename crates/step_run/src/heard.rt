// What a line brings to be printed.
use crate::sayings::Saying;
use store_core::Version;

/// What a line of a schedule brings to be printed.
#[derive(Drop)]
pub enum Heard {
    /// So many calls of this client failed, and then it says this, if anything.
    Client {
        number: u64,
        faults: u64,
        said: Option<Saying>,
    },
    /// The last version.
    Head(Option<Version>),
    /// Nothing.
    Nothing,
}
