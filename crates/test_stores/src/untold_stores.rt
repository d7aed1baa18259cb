// A store that tells nothing.
ghost use Rattle.std.specs.Prelude.{None};
ghost use Rattle.store_core.specs.Memory.{failed_calls};

use std::alloc::AllocError;
use store_core::{Call, Entry, MemStore, Reply, Store};

/// A store in memory of which contracts see no history, so that any number of clients can be driven at it by hand.
#[derive(Drop)]
pub struct UntoldStore {
    pub store: MemStore,
}

impl UntoldStore {
    /// What the store has been asked.
    pub fn trail(&self) -> &[Entry] {
        self.store.trail()
    }
}

impl Store for UntoldStore {
    ghost history = { λ _. None };

    ghost faults = { λ u. failed_calls u.store };

    fn call(&mut self, client: u64, call: &Call) -> Result<Reply, AllocError> {
        self.store.call(client, call)
    }
}
