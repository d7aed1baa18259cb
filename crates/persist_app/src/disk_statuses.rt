// The statuses of a call whose disk isn't opened.

/// What a program's call ends with where no store is opened on its disk. See docs/DEFINITIONS.md, "A command over a disk".
#[derive(Clone, Copy, Debug)]
pub enum DiskStatus {
    /// The disk's bytes aren't those of a store.
    NotAStore = 13,
    /// A call on the disk failed.
    DiskFailed = 14,
    /// A record in the disk's journal is damaged.
    Damaged = 15,
}
