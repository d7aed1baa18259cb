// A store in a file whose disk is watched from some count of its faults on.
ghost use Rattle.std.specs.Prelude.{◌≡◌, ◌≤◌, ℕ, true};
ghost use Rattle.causes.specs.Causes.{Rose};
ghost use Rattle.store_file.specs.FileStores.{told, is_shut, disk_faults, file_faults};

use journal_core::Disk;
use std::alloc::AllocError;
use std::marker::{Brand, PhantomData};
use store_core::{Call, Reply, Store};
use store_file::FileStore;

/// A count of faults, for the proof alone. A call at `Brand` picks it.
pub trait Watch {
    ghost count: { ℕ };
}

impl Watch for Brand {
    ghost count = { 0 };
}

/// A store that is shut only where its disk's count has risen above the watched one. A call that is generic over the store keeps
/// that.
#[derive(Drop)]
pub struct Watched<D: Disk, W: Watch> {
    pub store: FileStore<D>,
    pub of: PhantomData<W>,
    ghost later: { W.count ≤ disk_faults store },
    ghost rose: { is_shut store ≡ true → Rose W.count (disk_faults store) },
}

impl<D: Disk, W: Watch> Store for Watched<D, W> {
    ghost history = { λ s. told s.store };

    ghost faults = { λ s. file_faults s.store };

    fn call(&mut self, client: u64, call: &Call) -> Result<Reply, AllocError> {
        self.store.call(client, call)
    }
}
