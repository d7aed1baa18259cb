// Intake: rows of the remap shard that were read, and are still to be bound.
use update_core::{RowList, UpdateList};

/// Rows of the remap shard that were read, and are still to be bound.
#[derive(Drop)]
pub enum Intake {
    /// There are none.
    Nothing,
    /// The content at the reader's since.
    Content { rows: RowList },
    /// A step of the listen, of which the first `done` are bound already.
    Changes { rows: UpdateList, done: usize },
}
