// A writer that is polled through ports of one store.
ghost use Rattle.std.specs.Prelude.{◌≡◌, IfErr};
ghost use Rattle.turnstile.specs.Passes.{IsPassOf};
ghost use Rattle.machine_core.specs.Polling.{FollowsWhere};
ghost use Rattle.write_client.specs.Machining.{machine};
ghost use Rattle.write_client.specs.Writing.{IsSound};
ghost use Rattle.shared_store.specs.Trails.{entry_client};
ghost use Rattle.shared_store.specs.Passes.{told_of};
ghost use Rattle.shared_store_tests.specs.Ports.{GoesOn};

use shared_store::{CountedStore, SharedPort, SharedStore};
use std::alloc::Global;
use store_core::{Port, ShardId, Store};
use turnstile::{Pass, Turnstile};
use write_client::{Poll, WriteAnswer, Writer};

// So many polls of one command are made at most.
const MAX_POLLS: u64 = 1_000_000;

// Polls the open command once, at any port: its answer, where it has one.
fn poll_once<P: Port>(writer: &mut Writer, alloc: Global, port: &mut P) -> Option<WriteAnswer>
    requires sound { IsSound writer.old }
    requires follows { FollowsWhere machine (P.client port.old) (P.front port.old) writer.old }
    ensures sound { IsSound writer.new }
    ensures follows { FollowsWhere machine (P.client port.new) (P.front port.new) writer.new }
    ensures kept { P.kept port.new ≡ P.kept port.old }
{
    if !writer.busy() {
        return None;
    }
    match writer.poll(alloc, port) {
        Ok(Poll::Done(answer)) => Some(answer),
        _ => None,
    }
}

/// Polls a writer's open command to its end, at any port. It gives the answer, or nothing where it has none.
pub fn poll_to_end<P: Port>(writer: &mut Writer, alloc: Global, port: &mut P) -> Option<WriteAnswer>
    requires sound { IsSound writer.old }
    requires follows { FollowsWhere machine (P.client port.old) (P.front port.old) writer.old }
    ensures { P.kept port.new ≡ P.kept port.old }
{
    for _ in 0..MAX_POLLS {
        let answer = poll_once(writer, alloc, port);
        if answer.is_some() {
            return answer;
        }
        if !writer.busy() {
            break;
        }
    }
    None
}

/// Opens a writer at a shared store, through a port of its own. The pass comes back with what the open was answered.
pub fn open_through<S: Store>(
    turnstile: &Turnstile<CountedStore<S>>,
    pass: Pass<CountedStore<S>>,
    alloc: Global,
    shard: ShardId,
) -> (Pass<CountedStore<S>>, Option<WriteAnswer>)
    requires { IsPassOf told_of entry_client turnstile.now pass }
    ensures { GoesOn turnstile.now pass result.0 }
{
    let mut port = SharedPort::at(turnstile, pass);
    let mut writer = Writer::open(alloc, shard);
    let answer = poll_to_end(&mut writer, alloc, &mut port);
    (port.back(), answer)
}

/// Opens a writer at a store that is shared meanwhile. The store comes back with what the open was answered, or as it was for want of
/// memory.
pub fn open_at<S: Store>(
    alloc: Global,
    store: S,
    shard: ShardId,
) -> Result<(S, Option<WriteAnswer>), S>
    ensures { IfErr result (λ back. back ≡ store) }
{
    let (shared, mut pass) = SharedStore::new(alloc, store)?;
    let Ok(other) = shared.split(&mut pass) else {
        unreachable!()
    };
    let (other, answer) = open_through(&shared.turnstile, other, alloc, shard);
    shared.join(&mut pass, other);
    Ok((shared.close(pass), answer))
}
