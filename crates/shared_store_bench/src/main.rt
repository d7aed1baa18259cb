//! Makes Set calls, for a clock outside to time: `direct COUNT` through a direct port, and `one COUNT`, `two COUNT` or
//! `four COUNT` by so many threads that share the store. Prints how many calls the store answered.
#![tactic(auto)]

use anyhow::{Context, Result, bail};
use crews::{Crew, set_by_crew};
use std::alloc::{AllocError, Global};
use std::env;
use std::rt::Env;
use std::thread::Threads;
use store_core::{Bytes, Call, DirectPort, FaultList, MemStore, PartKey, Port, ShardId};

mod crews;

// Sets so many keys through a direct port.
fn set_directly(alloc: Global, count: u64) -> Result<MemStore, AllocError> {
    let mut store = MemStore::new(alloc, FaultList::new(alloc));
    let mut port = DirectPort::new(&mut store, 0);
    for index in 0..count {
        let key = PartKey {
            shard: ShardId(1),
            member: 0,
            token: 0,
            index,
        };
        let bytes = Bytes::of(alloc, Vec::new(alloc))?;
        let _ = port.try_call(&Call::Set { key, bytes })?;
    }
    Ok(store)
}

fn set_by(rt: &(impl Threads + Sync), alloc: Global, crew: &Crew, count: u64) -> Result<MemStore> {
    let store = MemStore::new(alloc, FaultList::new(alloc));
    match set_by_crew(rt, alloc, store, crew, count) {
        Ok(store) => Ok(store),
        Err(_) => bail!("out of memory"),
    }
}

fn run(rt: &(impl Threads + Sync), alloc: Global, who: &str, count: u64) -> Result<MemStore> {
    match who {
        "direct" => Ok(set_directly(alloc, count)?),
        "one" => set_by(rt, alloc, &Crew::One, count),
        "two" => set_by(rt, alloc, &Crew::Two, count),
        "four" => set_by(rt, alloc, &Crew::Four, count),
        _ => bail!("direct, one, two or four"),
    }
}

// The two words: who makes the calls, and how many.
fn words(rt: &(impl Env + AllocGlobal)) -> Result<(String, u64)> {
    let mut words = env::args(rt)?.skip(1);
    let who = words.next().context("who makes the calls")?;
    let count = words.next().context("how many calls")?;
    let count = count.as_str().parse::<u64>().context("a number of calls")?;
    Ok((who, count))
}

fn main(rt: HostRuntime) -> Result<()> {
    let (who, count) = words(&rt)?;
    let store = run(&rt, rt.alloc(), who.as_str(), count)?;
    println!(rt; "{}", store.trail().len())?;
    Ok(())
}
