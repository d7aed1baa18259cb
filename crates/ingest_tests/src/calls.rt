// A call of the program over a store.
use causes::NumberList;
use crew::Gate;
use feed_text::{MemSink, MemSource};
use persist_app::{Ended, FixedClock, persist_top};
use std::alloc::{AllocError, Global};
use std::sync::Wait;
use std::test::Fail;
use std::thread::Threads;
use store_core::{FaultAt, FaultList, MemStore, Store};

fn numbers(alloc: Global, items: &[u64]) -> Result<NumberList, AllocError> {
    let mut numbers = NumberList::new(alloc);
    for item in items {
        numbers.push(*item)?;
    }
    Ok(numbers)
}

fn words_of(alloc: Global, text: &str) -> Result<Vec<String>, AllocError> {
    let mut words = Vec::new(alloc);
    for word in text.split_whitespace() {
        words.push(String::from_str(alloc, word)?)?;
    }
    Ok(words)
}

/// What a call reads, and where its reads and puts fail.
#[derive(Drop)]
pub struct Case<'a> {
    pub words: &'a str,
    pub feed: &'a [u8],
    pub reads: &'a [u64],
    pub puts: &'a [u64],
}

/// The words over a feed, without faults.
pub fn case_of<'a>(words: &'a str, feed: &'a [u8]) -> Case<'a> {
    Case {
        words,
        feed,
        reads: &[],
        puts: &[],
    }
}

/// What a call over a store gives back, and what was written.
pub fn ended<S: Store + Send + Drop, G: Gate + Sync, R: Threads + Wait + Sync>(
    rt: &R,
    alloc: Global,
    case: &Case<'_>,
    store: S,
    gate: &G,
) -> Result<(Ended<S>, Vec<u8>), Fail> {
    let words = words_of(alloc, case.words)?;
    let feed = case.feed.to_vec(alloc)?;
    let mut source = MemSource::new(feed, numbers(alloc, case.reads)?);
    let mut sink = MemSink::new(alloc, numbers(alloc, case.puts)?);
    let mut clock = FixedClock(7);
    let ended = persist_top(
        rt,
        alloc,
        &words,
        &mut source,
        &mut sink,
        store,
        &mut clock,
        gate,
    );
    Ok((ended, sink.taken().to_vec(alloc)?))
}

/// An empty store.
pub fn empty(alloc: Global) -> MemStore {
    MemStore::new(alloc, FaultList::new(alloc))
}

/// An empty store whose call of this number fails, with effect or without.
pub fn failing(alloc: Global, number: u64, took: bool) -> Result<MemStore, AllocError> {
    let mut faults = FaultList::new(alloc);
    faults.push(FaultAt { number, took })?;
    Ok(MemStore::new(alloc, faults))
}
