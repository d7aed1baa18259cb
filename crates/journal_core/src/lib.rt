//! A disk with what a crash may leave of it, and a journal: records of which a crash leaves the first ones, each whole.
#![tactic(auto)]

mod disk_calls;
mod disks;
mod faults;
mod file_disks;
mod images;
mod journals;
pub mod laws;
mod load_faults;
mod mem_disks;
mod opening;
mod partials;
mod reading;
mod records;
mod tallies;

pub use disk_calls::DiskCall;
pub use disks::Disk;
pub use faults::DiskFault;
pub use file_disks::FileDisk;
pub use journals::Journal;
pub use load_faults::LoadFault;
pub use mem_disks::MemDisk;
pub use opening::{begin, load, repair};
pub use reading::{Frame, first_number, next_frame};
pub use records::Record;
