use crate::{open_at, set_by_two};
use shared_store::{SharedPort, SharedStore};
use std::test::Fail;
use store_core::{Call, Entry, FaultList, MemStore, Port, Reply, ShardId, Turn};
use write_client::WriteAnswer;

// The place of a Set among the keys of its member.
fn index_of(entry: &Entry) -> Option<(u64, u64)> {
    match &entry.call {
        Call::Set { key, .. } => Some((key.member, key.index)),
        _ => None,
    }
}

fn is_no_version(turn: Turn) -> bool {
    match turn {
        Turn::Reply(Reply::Version(None)) => true,
        _ => false,
    }
}

// The member that was opened, and the version.
fn opened(answer: Option<WriteAnswer>) -> Option<(u64, u64)> {
    match answer {
        Some(WriteAnswer::Opened { member, version }) => Some((member, version)),
        _ => None,
    }
}

// Two threads that set a thousand keys each leave two thousand entries, and each client's keys stand in its own order.
#[test]
fn two_threads_set_keys(rt: HostRuntime) -> Result<(), Fail> {
    let store = MemStore::new(rt.alloc(), FaultList::new(rt.alloc()));
    let Ok(store) = set_by_two(&rt, rt.alloc(), store, 1_000) else {
        panic!(rt; "no memory")
    };
    assert_eq!(rt; store.trail().len(), 2_000);
    let mut next = [0u64, 0u64];
    for entry in store.trail() {
        let Some((member, index)) = index_of(entry) else {
            panic!(rt; "another call")
        };
        assert!(rt; member < 2);
        assert_eq!(rt; entry.client, member);
        assert_eq!(rt; index, next[member as usize]);
        next[member as usize] = index.wrapping_add(1);
    }
    assert_eq!(rt; next, [1_000, 1_000]);
    Ok(())
}

// While no turn is held a port's call is answered by the store.
#[test]
fn a_port_asks_the_store(rt: HostRuntime) -> Result<(), Fail> {
    let store = MemStore::new(rt.alloc(), FaultList::new(rt.alloc()));
    let Ok((shared, mut pass)) = SharedStore::new(rt.alloc(), store) else {
        panic!(rt; "no memory")
    };
    let Ok(other) = shared.split(&mut pass) else {
        panic!(rt; "no number")
    };
    let mut port = shared.port(other);
    let call = Call::Head { shard: ShardId(5) };
    let answered = is_no_version(port.try_call(&call)?);
    assert!(rt; answered);
    Ok(())
}

// A writer that is polled through a shared port to its end gives the pass back, and the store is closed: the open's first version is
// that of the shard, and it joins as member 0 by the next one.
#[test]
fn a_writer_opens_at_a_shared_store(rt: HostRuntime) -> Result<(), Fail> {
    let store = MemStore::new(rt.alloc(), FaultList::new(rt.alloc()));
    let Ok((store, answer)) = open_at(rt.alloc(), store, ShardId(5)) else {
        panic!(rt; "no memory")
    };
    assert!(rt; opened(answer) == Some((0, 1)));
    assert_eq!(rt; store.trail().len(), 3);
    for entry in store.trail() {
        assert_eq!(rt; entry.client, 1);
    }
    Ok(())
}
