// A store that threads call by turns.
ghost use Rattle.std.specs.Prelude.{◌≡◌, ◌^◌, ◌<◌, ℕ, IfOk, IfErr, IfSome};
ghost use mathlib.Core.List.{IsPrefix};
ghost use Rattle.turnstile.specs.Passes.{view, table_of};
ghost use Rattle.turnstile.specs.Plays.{left_of, right_of, both_of, EachIn};
ghost use Rattle.turnstile.specs.Rule.{first_view, times, entries_by};
ghost use Rattle.shared_store.specs.Trails.{RoseBy, begun, entry_client, failed_in};
ghost use Rattle.shared_store.specs.Fronts.{front_of};

use crate::counted_stores::CountedStore;
use crate::shared_ports::SharedPort;
use std::alloc::Global;
use store_core::Store;
use turnstile::{Pass, SplitFault, Turnstile};

/// A store that threads call in turns. They share its turnstile, and each makes a port of its own at it.
#[derive(Drop)]
pub struct SharedStore<S: Store> {
    pub turnstile: Turnstile<CountedStore<S>>,
}

impl<S: Store> SharedStore<S> {
    ghost use Rattle.shared_store.specs.Owners.{IsPassOfStore};

    /// A shared store, and its first pass, which goes on as client 0 of the store's trail. The store comes back for want of memory.
    pub fn new(alloc: Global, store: S) -> Result<(SharedStore<S>, Pass<CountedStore<S>>), S>
        ensures pass { IfOk result (λ made. IsPassOfStore made.0 made.1) }
        ensures first { IfOk result (λ made. view made.1 ≡ first_view (view made.1).start) }
        ensures front { IfOk result (λ made. front_of S.history (view made.1) ≡ S.history store) }
        ensures start { IfOk result (λ made. (view made.1).start ≡ begun store (S.history store)) }
        ensures memory { IfErr result (λ back. back ≡ store) }
    {
        match Turnstile::new(alloc, CountedStore::new(store)) {
            Ok((turnstile, pass)) => Ok((SharedStore { turnstile }, pass)),
            Err(counted) => Err(counted.into_store()),
        }
    }

    /// A port with this pass. It takes no memory.
    pub fn port(&self, pass: Pass<CountedStore<S>>) -> SharedPort<'_, S>
        requires { IsPassOfStore self.now pass }
        ensures table { result.table ≡ table_of self.now.turnstile }
        ensures known { result.known ≡ view pass }
        ensures faults { result.faults ≡ 0 }
    {
        SharedPort::at(&self.turnstile, pass)
    }

    /// A new pass, which has seen what the old one has. `NumbersSpent` exactly where the old one has no number left to hand out;
    /// nothing changes then.
    pub fn split(
        &self,
        pass: &mut Pass<CountedStore<S>>,
    ) -> Result<Pass<CountedStore<S>>, SplitFault>
        requires { IsPassOfStore self.now pass.old }
        ensures pass { IsPassOfStore self.now pass.new }
        ensures made { IfOk result (λ made. IsPassOfStore self.now made) }
        ensures ok { IfOk result (λ made. (0 < (view pass.old).stock) × (view pass.new ≡ left_of (view pass.old))
            × (view made ≡ right_of (view pass.old))) }
        ensures spent { IfErr result (λ _. ((view pass.old).stock ≡ 0) × (pass.new ≡ pass.old)) }
    {
        self.turnstile.split(pass)
    }

    /// The pass takes in another, and has then seen what both had.
    pub fn join(&self, pass: &mut Pass<CountedStore<S>>, other: Pass<CountedStore<S>>)
        requires pass { IsPassOfStore self.now pass.old }
        requires other { IsPassOfStore self.now other }
        ensures pass { IsPassOfStore self.now pass.new }
        ensures views { view pass.new ≡ both_of (view pass.old) (view other) }
        ensures begins { IsPrefix (view pass.old).gain (view pass.new).gain × IsPrefix (view other).gain (view pass.new).gain }
        ensures own { (n : ℕ) → 0 < times n (view pass.old).kin
            → entries_by entry_client n (view pass.new).gain ≡ entries_by entry_client n (view pass.old).gain }
        ensures others { (n : ℕ) → 0 < times n (view other).kin
            → entries_by entry_client n (view pass.new).gain ≡ entries_by entry_client n (view other).gain }
    {
        self.turnstile.join(pass, other);
    }

    /// The store, where the pass has every share. Its history is all that the pass has seen, and each entry since `new` is of a number
    /// that the pass answers for.
    pub fn close(self, pass: Pass<CountedStore<S>>) -> S
        requires pass { IsPassOfStore self pass }
        requires whole { (view pass).share ≡ 2 ^ 64 }
        ensures history { S.history result ≡ front_of S.history (view pass) }
        ensures own { EachIn entry_client (view pass).kin (view pass).gain }
        // Its count of faults hasn't fallen since then, and rose by each entry that failed, where it tells its history.
        ensures failed { IfSome (view pass).start (λ opened. RoseBy (failed_in (view pass).gain) (S.faults opened.0) (S.faults result)) }
    {
        let SharedStore { turnstile } = self;
        turnstile.close(pass).into_store()
    }
}

fn is_sync<T: Sync>(_x: &T) {}

/// Threads may share its turnstile where the store may be sent.
pub fn shares_turnstile<S: Store + Send>(turnstile: &Turnstile<CountedStore<S>>) {
    is_sync(turnstile);
}

/// Threads may share it where the store may be sent.
pub fn shares_store<S: Store + Send>(store: &SharedStore<S>) {
    is_sync(store);
}
