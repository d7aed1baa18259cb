// Schedules and feeds over a store in memory.
use causes::NumberList;
use driving::SolePort;
use feed_text::{MemSink, MemSource};
use plain_run::{Place, run};
use std::alloc::{AllocError, Global};
use std::test::Fail;
use step_run::steps;
use store_core::{FaultAt, FaultList, MemStore, ShardId};

/// The one shard of these tests.
pub const SHARD: ShardId = ShardId(1);

/// What was written, and the store that is given back.
#[derive(Drop)]
pub struct Executed {
    pub complete: bool,
    pub text: Vec<u8>,
    pub store: MemStore,
}

/// An empty store.
pub fn fresh(alloc: Global) -> MemStore {
    MemStore::new(alloc, FaultList::new(alloc))
}

/// An empty store of which the call with this number, from 0, fails, and takes effect or doesn't.
pub fn failing(alloc: Global, number: u64, took: bool) -> Result<MemStore, AllocError> {
    let mut faults = FaultList::new(alloc);
    faults.push(FaultAt { number, took })?;
    Ok(MemStore::new(alloc, faults))
}

/// Executes a schedule.
pub fn execute(alloc: Global, schedule: &str, store: MemStore) -> Result<Executed, Fail> {
    let text = schedule.as_bytes().to_vec(alloc)?;
    let mut source = MemSource::new(text, NumberList::new(alloc));
    let mut sink = MemSink::new(alloc, NumberList::new(alloc));
    let mut port = SolePort { store, client: 0 };
    let complete = match steps(alloc, &mut source, &mut sink, &mut port, SHARD) {
        step_run::Ending::Complete => true,
        _ => false,
    };
    Ok(Executed {
        complete,
        text: sink.taken().to_vec(alloc)?,
        store: port.store,
    })
}

/// Runs a feed. Its writer is client 0, its reader client 1, and compactors and collectors are the clients from 2 on.
pub fn run_feed(alloc: Global, feed: &[u8], store: MemStore) -> Result<Executed, Fail> {
    let mut source = MemSource::new(feed.to_vec(alloc)?, NumberList::new(alloc));
    let mut sink = MemSink::new(alloc, NumberList::new(alloc));
    let mut port = SolePort { store, client: 0 };
    let place = Place {
        shard: SHARD,
        writer: 0,
        reader: 1,
        others: 2,
    };
    let complete = match run(alloc, &mut source, &mut sink, &mut port, place, 7) {
        plain_run::Ending::Complete => true,
        _ => false,
    };
    Ok(Executed {
        complete,
        text: sink.taken().to_vec(alloc)?,
        store: port.store,
    })
}
