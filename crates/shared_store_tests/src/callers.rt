// Calls through ports of one store.
ghost use Rattle.std.specs.Prelude.{◌≡◌, Option, ◌++◌, List, IfErr};
ghost use Rattle.turnstile.specs.Passes.{IsPassOf};
ghost use Rattle.shared_store.specs.Trails.{entry_client};
ghost use Rattle.shared_store.specs.Passes.{told_of};
ghost use Rattle.shared_store_tests.specs.Ports.{KeepsPass, GoesOn};

use shared_store::{CountedStore, SharedPort, SharedStore};
use std::alloc::Global;
use std::thread::{Threads, join};
use store_core::{Bytes, Call, PartKey, Port, ShardId, Store, Turn};
use turnstile::{Pass, Turnstile};

/// Asks the store once: false where the turn was found held.
pub fn call_once<S: Store>(port: &mut SharedPort<'_, S>, call: &Call) -> bool
    ensures { KeepsPass port.old port.new }
{
    match port.try_call(call) {
        Ok(Turn::Busy) => false,
        Ok(Turn::Reply(_)) => true,
        Err(_) => true,
    }
}

// Sets a key as soon as the turn is found free.
fn set_one<S: Store>(port: &mut SharedPort<'_, S>, alloc: Global, member: u64, index: u64)
    ensures { KeepsPass port.old port.new }
{
    let Ok(bytes) = Bytes::of(alloc, Vec::new(alloc)) else {
        return;
    };
    let key = PartKey {
        shard: ShardId(1),
        member,
        token: 0,
        index,
    };
    let call = Call::Set { key, bytes };
    for _ in 0..u64::MAX {
        if call_once(port, &call) {
            break;
        }
    }
}

/// Sets so many keys of a member in order, through a port of its own.
pub fn set_many<S: Store>(
    turnstile: &Turnstile<CountedStore<S>>,
    pass: Pass<CountedStore<S>>,
    alloc: Global,
    member: u64,
    count: u64,
) -> Pass<CountedStore<S>>
    requires { IsPassOf told_of entry_client turnstile.now pass }
    ensures { GoesOn turnstile.now pass result }
{
    let mut port = SharedPort::at(turnstile, pass);
    for index in 0..count {
        set_one(&mut port, alloc, member, index);
    }
    port.back()
}

/// Two threads set so many keys each, at one store. It comes back as it was for want of memory.
pub fn set_by_two<S: Store + Send, R: Threads + Sync>(
    rt: &R,
    alloc: Global,
    store: S,
    count: u64,
) -> Result<S, S>
    ensures memory { IfErr result (λ back. back ≡ store) }
{
    let (shared, mut pass) = SharedStore::new(alloc, store)?;
    let Ok(other) = shared.split(&mut pass) else {
        unreachable!()
    };
    let turnstile = &shared.turnstile;
    let (mut pass, other) = join(
        rt,
        || -> Pass<CountedStore<S>>
            requires { IsPassOf told_of entry_client turnstile.now pass }
            ensures { GoesOn turnstile.entry.now pass result }
        { set_many(turnstile, pass, alloc, 0, count) },
        || -> Pass<CountedStore<S>>
            requires { IsPassOf told_of entry_client turnstile.now other }
            ensures { GoesOn turnstile.entry.now other result }
        { set_many(turnstile, other, alloc, 1, count) },
    );
    shared.join(&mut pass, other);
    Ok(shared.close(pass))
}
