// Threads that set keys at one store.
ghost use Rattle.std.specs.Prelude.{◌≡◌, IfErr};
ghost use Rattle.turnstile.specs.Passes.{IsPassOf};
ghost use Rattle.shared_store.specs.Trails.{entry_client};
ghost use Rattle.shared_store.specs.Passes.{told_of};
ghost use Rattle.shared_store_tests.specs.Ports.{GoesOn};

use shared_store::{CountedStore, SharedStore};
use shared_store_tests::set_many;
use std::alloc::Global;
use std::thread::{Threads, join};
use store_core::Store;
use turnstile::{Pass, Turnstile};

// Two threads set so many keys each, the first under this member and the second under the next.
fn set_by_two<S: Store + Send, R: Threads + Sync>(
    rt: &R,
    turnstile: &Turnstile<CountedStore<S>>,
    mut pass: Pass<CountedStore<S>>,
    alloc: Global,
    member: u64,
    count: u64,
) -> Pass<CountedStore<S>>
    requires { IsPassOf told_of entry_client turnstile.now pass }
    ensures { GoesOn turnstile.now pass result }
{
    let Ok(other) = turnstile.split(&mut pass) else {
        return pass;
    };
    let (mut pass, other) = join(
        rt,
        || -> Pass<CountedStore<S>>
            requires { IsPassOf told_of entry_client turnstile.now pass }
            ensures { GoesOn turnstile.entry.now pass result }
        { set_many(turnstile, pass, alloc, member, count) },
        || -> Pass<CountedStore<S>>
            requires { IsPassOf told_of entry_client turnstile.now other }
            ensures { GoesOn turnstile.entry.now other result }
        { set_many(turnstile, other, alloc, member.wrapping_add(1), count) },
    );
    turnstile.join(&mut pass, other);
    pass
}

// Four threads set so many keys each.
fn set_by_four<S: Store + Send, R: Threads + Sync>(
    rt: &R,
    turnstile: &Turnstile<CountedStore<S>>,
    mut pass: Pass<CountedStore<S>>,
    alloc: Global,
    count: u64,
) -> Pass<CountedStore<S>>
    requires { IsPassOf told_of entry_client turnstile.now pass }
    ensures { GoesOn turnstile.now pass result }
{
    let Ok(other) = turnstile.split(&mut pass) else {
        return pass;
    };
    let (mut pass, other) = join(
        rt,
        || -> Pass<CountedStore<S>>
            requires { IsPassOf told_of entry_client turnstile.now pass }
            ensures { GoesOn turnstile.entry.now pass result }
        { set_by_two(rt, turnstile, pass, alloc, 0, count) },
        || -> Pass<CountedStore<S>>
            requires { IsPassOf told_of entry_client turnstile.now other }
            ensures { GoesOn turnstile.entry.now other result }
        { set_by_two(rt, turnstile, other, alloc, 2, count) },
    );
    turnstile.join(&mut pass, other);
    pass
}

/// How many threads make the calls.
pub enum Crew {
    One,
    Two,
    Four,
}

/// Sets so many keys in all, by one, two or four threads that share the store. It comes back as it was for want of memory.
pub fn set_by_crew<S: Store + Send, R: Threads + Sync>(
    rt: &R,
    alloc: Global,
    store: S,
    crew: &Crew,
    count: u64,
) -> Result<S, S>
    ensures memory { IfErr result (λ back. back ≡ store) }
{
    let (shared, pass) = SharedStore::new(alloc, store)?;
    let turnstile = &shared.turnstile;
    let pass = match crew {
        Crew::One => set_many(turnstile, pass, alloc, 0, count),
        Crew::Two => set_by_two(rt, turnstile, pass, alloc, 0, count / 2),
        Crew::Four => set_by_four(rt, turnstile, pass, alloc, count / 4),
    };
    Ok(shared.close(pass))
}
