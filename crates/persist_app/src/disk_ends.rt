// What a call over a disk gives back.
use crate::disk_lefts::DiskLeft;
use journal_core::Disk;

/// The status that a command ended with, and what is left of the disk that was handed in.
#[derive(Drop)]
pub struct DiskEnded<D: Disk> {
    pub status: u8,
    pub left: DiskLeft<D>,
}
