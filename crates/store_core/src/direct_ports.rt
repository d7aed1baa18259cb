// The port of a store's one client.
ghost use Rattle.std.specs.Prelude.{◌≡◌, ◌≢◌, ◌<◌, ◌≤◌, Ok, IfOk, OnErr};
ghost use Rattle.std.specs.Borrow.{GName};
ghost use Rattle.causes.specs.Causes.{Rose};
ghost use Rattle.store_core.specs.Ports.{AddsTurn, Sees, GrowsByOthers, IsTurnFor, IsFailure};

use crate::calls::Call;
use crate::ports::Port;
use crate::stores::Store;
use crate::turns::Turn;
use std::alloc::AllocError;

/// The way of the one client of a store: the store, and the number that the client's entries carry.
#[derive(Drop)]
pub struct DirectPort<'a, S: Store> {
    pub(crate) store: &'a mut S,
    pub(crate) client: u64,
}

impl<'a, S: Store> DirectPort<'a, S> {
    /// A port that calls this store, which takes no memory.
    pub fn new(store: &'a mut S, client: u64) -> DirectPort<'a, S>
        ensures client { ⟦<DirectPort<'a, S> as Port>⟧.client result ≡ client }
        ensures front { ⟦<DirectPort<'a, S> as Port>⟧.front result ≡ S.history store.old }
        ensures faults { ⟦<DirectPort<'a, S> as Port>⟧.faults result ≡ S.faults store.old }
        ensures misses { ⟦<DirectPort<'a, S> as Port>⟧.misses result ≡ 0 }
        ensures store { result.store ≡ store.entry }
    {
        DirectPort { store, client }
    }
}

impl<'a, S: Store> Port for DirectPort<'a, S> {
    ghost client = { λ p. p.client };

    ghost front = { λ p. S.history p.store.now };

    ghost faults = { λ p. S.faults p.store.now };

    ghost misses = { λ _. 0 };

    // The name of the loan that it holds, so that the lender learns what became of its store.
    ghost Kept = { GName };

    ghost kept = { λ p. p.store.ghost_name };

    /// The store's reply: one entry and no other. It is never `Busy`, and fails only for want of memory.
    #[tactic(auto, using(crate::proofs::PortLaws::gains_where_added))]
    fn try_call(&mut self, call: &Call) -> Result<Turn, AllocError>
        ensures seen { IfOk result (λ turn. Sees self.old.client (S.history self.old.store.now) (S.history self.new.store.now) call.now turn) }
        // One entry and no other, and never Busy.
        ensures adds { IfOk result (λ turn. AddsTurn (S.history self.old.store.now) (S.history self.new.store.now) self.old.client call.now turn) }
        ensures memory { OnErr result (S.history self.new.store.now ≡ S.history self.old.store.now) }
        ensures grown { OnErr result (GrowsByOthers self.old.client (S.history self.old.store.now) (S.history self.new.store.now)) }
        ensures client { self.new.client ≡ self.old.client }
        ensures shape { IfOk result (λ turn. IsTurnFor call.now turn) }
        ensures never_busy { result ≢ Ok Turn.Busy }
        ensures busy { result ≡ Ok Turn.Busy → 0 < 0 }
        ensures misses { 0 ≤ 0 }
        ensures cause { IfOk result (λ turn. IsFailure turn → Rose (S.faults self.old.store.now) (S.faults self.new.store.now)) }
        ensures faults { S.faults self.old.store.now ≤ S.faults self.new.store.now }
        ensures kept { self.new.store.ghost_name ≡ self.old.store.ghost_name }
    {
        let reply = self.store.call(self.client, call)?;
        Ok(Turn::Reply(reply))
    }
}
