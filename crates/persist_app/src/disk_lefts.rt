// What is left of a disk.
use journal_core::Disk;
use store_file::FileStore;

/// What is left of a disk over which a command ran: a store exactly where one was created or opened. See docs/DEFINITIONS.md,
/// "A command over a disk".
#[derive(Drop)]
pub enum DiskLeft<D: Disk> {
    Disk(D),
    Store(FileStore<D>),
}
