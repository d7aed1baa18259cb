// A disk that is a real file.
ghost use Rattle.std.specs.Prelude.{◌≡◌, ◌≤◌, None, OnOk};
ghost use Rattle.causes.specs.Causes.{HasCause};

use crate::disks::Disk;
use crate::faults::DiskFault;
use causes::one_more;
use std::fs::File;
use std::os::unix::fs::FileExt;
use std::path::Path;
use std::rt::Files;

/// A file, and how often a call on it has failed. It tells no content. Where the file couldn't be opened and locked, each call fails.
#[derive(Drop)]
pub struct FileDisk {
    file: Option<File>,
    failed: u64,
}

fn file_len(file: &Option<File>) -> Option<u64> {
    let Some(file) = file else { return None };
    let Ok(about) = file.metadata() else {
        return None;
    };
    Some(about.len())
}

fn read_file(file: &Option<File>, at: u64, into: &mut [u8]) -> bool {
    let Some(file) = file else { return false };
    file.read_exact_at(into, at).is_ok()
}

fn write_file(file: &Option<File>, at: u64, bytes: &[u8]) -> bool {
    let Some(file) = file else { return false };
    file.write_all_at(bytes, at).is_ok()
}

// A file that is no longer than that stays as it is.
fn cut_file(file: &Option<File>, len: u64) -> bool {
    let Some(file) = file else { return false };
    let Ok(about) = file.metadata() else {
        return false;
    };
    about.len() <= len || file.set_len(len).is_ok()
}

fn sync_file(file: &Option<File>) -> bool {
    let Some(file) = file else { return false };
    file.sync_all().is_ok()
}

// The folder that a path's last name stands in.
fn folder_of(path: &str) -> &str {
    match Path::new(path).parent() {
        Some(folder) if !folder.as_str().is_empty() => folder.as_str(),
        _ => ".",
    }
}

// The file with this path, whose name in its folder is sure. It is locked until it is closed, so that no other program writes in it.
fn open_file(files: &impl Files<File = File>, path: &str) -> Option<File> {
    let file = File::options()
        .read(true)
        .write(true)
        .create(true)
        .open(files, path)
        .ok()?;
    file.try_lock().ok()?;
    let folder = File::open(files, folder_of(path)).ok()?;
    folder.sync_all().ok()?;
    Some(file)
}

impl FileDisk {
    /// The file with this path, which is made where it is absent. It is locked as long as the disk lives, and its folder is synced, so
    /// that no crash takes its name away. Where the file can't be opened, another program has locked it, or its folder can't be
    /// synced, each call of the disk fails.
    pub fn open(files: &impl Files<File = File>, path: &str) -> FileDisk {
        let file = open_file(files, path);
        FileDisk { file, failed: 0 }
    }

    // What a call answers that was done or not.
    fn answer(&mut self, done: bool) -> Result<(), DiskFault>
        ensures ok { OnOk result (self.new.failed ≡ self.old.failed) }
        ensures cause { HasCause self.old.failed self.new.failed result }
    {
        if done {
            return Ok(());
        }
        self.failed = one_more(self.failed);
        Err(DiskFault::Failed)
    }
}

impl Disk for FileDisk {
    ghost history = { λ _. None };

    ghost faults = { λ d. d.failed };

    fn len(&mut self) -> Result<u64, DiskFault> {
        let Some(len) = file_len(&self.file) else {
            self.failed = one_more(self.failed);
            return Err(DiskFault::Failed);
        };
        Ok(len)
    }

    fn read(&mut self, at: u64, into: &mut [u8]) -> Result<(), DiskFault> {
        let done = read_file(&self.file, at, into);
        self.answer(done)
    }

    fn write_at(&mut self, at: u64, bytes: &[u8]) -> Result<(), DiskFault> {
        let done = write_file(&self.file, at, bytes);
        self.answer(done)
    }

    fn cut(&mut self, len: u64) -> Result<(), DiskFault> {
        let done = cut_file(&self.file, len);
        self.answer(done)
    }

    fn sync(&mut self) -> Result<(), DiskFault> {
        let done = sync_file(&self.file);
        self.answer(done)
    }
}
