// A client of two calls over any port, and a store that tells nothing.
ghost use Rattle.std.specs.Prelude.{◌≡◌, ◌≤◌, None, true, false, if◌then◌else◌, IfOk, OnOk, OnErr};
ghost use Rattle.causes.specs.Causes.{Rose};
ghost use Rattle.store_core.specs.Ports.{Sees, GrowsByOthers, IsTurnFor, IsFailure};

use causes::one_more;
use std::alloc::AllocError;
use store_core::{Call, DirectPort, PartKey, Port, Reply, ShardId, Store, Turn};

/// Asks for the last version of a shard, and then for the bytes of a key.
#[derive(Drop)]
pub struct Fetch {
    pub shard: ShardId,
    pub key: PartKey,
    pub asked: bool,
}

fn is_reply(turn: &Turn) -> bool {
    matches!(turn, Turn::Reply(_))
}

impl Fetch {
    fn next_call(&self) -> Call
        ensures { result ≡ (if self.now.asked then Call.Get self.now.key else Call.Head self.now.shard) }
    {
        if self.asked {
            Call::Get { key: self.key }
        } else {
            Call::Head { shard: self.shard }
        }
    }

    pub fn poll<P: Port>(&mut self, port: &mut P) -> Result<Turn, AllocError>
        ensures seen { IfOk result (λ turn. Sees (P.client port.old) (P.front port.old) (P.front port.new) (if self.old.asked then Call.Get self.old.key else Call.Head self.old.shard) turn) }
        ensures memory { OnErr result (GrowsByOthers (P.client port.old) (P.front port.old) (P.front port.new)) }
        ensures kind { IfOk result (λ turn. IsTurnFor (if self.old.asked then Call.Get self.old.key else Call.Head self.old.shard) turn) }
        ensures cause { IfOk result (λ turn. IsFailure turn → Rose (P.faults port.old) (P.faults port.new)) }
        ensures later { P.faults port.old ≤ P.faults port.new }
        ensures client { P.client port.new ≡ P.client port.old }
        ensures kept { P.kept port.new ≡ P.kept port.old }
    {
        let call = self.next_call();
        let turn = port.try_call(&call)?;
        self.asked = is_reply(&turn);
        Ok(turn)
    }
}

/// Two polls at the port of a store.
pub fn ask_twice<S: Store>(
    store: &mut S,
    client: u64,
    shard: ShardId,
    key: PartKey,
) -> Result<Turn, AllocError>
    ensures untold { S.history store.old ≡ None → S.history store.new ≡ None }
    ensures later { S.faults store.old ≤ S.faults store.new }
{
    let mut port = DirectPort::new(store, client);
    let mut machine = Fetch {
        shard,
        key,
        asked: false,
    };
    let _ = machine.poll(&mut port)?;
    machine.poll(&mut port)
}

/// A store that fails always and tells nothing.
#[derive(Drop)]
pub struct Broken {
    pub failed: u64,
}

impl Store for Broken {
    ghost history = { λ _. None };

    ghost faults = { λ s. s.failed };

    fn call(&mut self, _client: u64, _call: &Call) -> Result<Reply, AllocError> {
        self.failed = one_more(self.failed);
        Ok(Reply::Failed)
    }
}
