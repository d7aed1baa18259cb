// A store that answers each Get as it is told to.
ghost use Rattle.std.specs.Prelude.{None};

use std::alloc::AllocError;
use store_core::{Bytes, Call, MemStore, Reply, Store};

/// A store that answers each Get with the same bytes, or with none, and all else as a store in memory. It tells nothing.
#[derive(Drop)]
pub struct HollowStore {
    pub store: MemStore,
    pub bytes: Option<Bytes>,
}

fn copied(bytes: &Option<Bytes>) -> Result<Option<Bytes>, AllocError> {
    match bytes {
        Some(bytes) => {
            let copy = bytes.copy()?;
            Ok(Some(copy))
        }
        None => Ok(None),
    }
}

impl Store for HollowStore {
    ghost history = { λ _. None };

    ghost faults = { λ s. ⟦<MemStore as Store>⟧.faults s.store };

    fn call(&mut self, client: u64, call: &Call) -> Result<Reply, AllocError> {
        match call {
            Call::Get { .. } => {
                let bytes = copied(&self.bytes)?;
                Ok(Reply::Bytes(bytes))
            }
            _ => self.store.call(client, call),
        }
    }
}
