// Expirer: a client that removes the members whose lease has run out.
ghost use Rattle.std.specs.Prelude.{◌≡◌, ◌≢◌, ◌<◌, ◌≤◌, ℕ, Option, Ok, Err, None, Some, IsSome, IfOk, OnErr, OnOk, is_some, option_copied};
ghost use Rattle.causes.specs.Causes.{Rose};
ghost use Rattle.store_core.specs.Histories.{History};
ghost use Rattle.load_core.specs.declared.polls.Poll.TheVariants as polls;
ghost use Rattle.load_core.specs.Fronts.{Backwards, WhereLawful};
ghost use Rattle.machine_core.specs.Polling.{CostGoesOn, FollowsWhere, LegalWhere, Polled, Unpolled};
ghost use Rattle.try_machine.specs.Tryers.{IsSound};
ghost use Rattle.maint_client.specs.Expiring.{Begins, asked_of, expiring, machine};

use crate::expiries::Expiry;
use causes::NumberList;
use history_core::{Asked, ExpireAnswer};
use load_core::{BeginFault, Poll};
use state_core::Transition;
use std::alloc::{AllocError, Global};
use store_core::{Port, ShardId};
use try_machine::Tryer;

/// An expirer of one shard. It has no member. An expiry is begun and then polled until it ends; each poll makes at most one call of
/// the store. See docs/EXTENDING.md, "A client of one transition".
#[derive(Drop)]
pub struct Expirer {
    /// The open or the last expiry, as a machine.
    pub tryer: Tryer<Expiry>,
}

impl Expirer {
    /// An expirer of the shard, which knows nothing of it yet. It takes no memory.
    pub fn new(shard: ShardId) -> Expirer
        ensures idle { result.tryer.asked ≡ None }
        ensures shard { result.tryer.trying.loader.shard ≡ shard }
        ensures sound { IsSound expiring result.tryer }
        ensures follows { (client : ℕ) (front : Option History) → FollowsWhere machine client front result.tryer }
    {
        Expirer {
            tryer: Tryer::new(shard),
        }
    }

    /// Whether an expiry is open.
    pub fn busy(&self) -> bool
        ensures { result ≡ is_some self.now.tryer.asked }
    {
        self.tryer.asked.is_some()
    }

    /// What is asked, where an expiry is open.
    pub fn asked(&self) -> Option<&Asked>
        ensures { option_copied result ≡ asked_of self.now.tryer }
    {
        match &self.tryer.asked {
            Some(expiry) => Some(&expiry.asked),
            None => None,
        }
    }

    /// How many calls of the store the polls of the open expiry have made, or else those of the last one. It stands still at
    /// 2^64 - 1.
    pub fn calls(&self) -> u64
        ensures { result ≡ self.now.tryer.trying.calls }
    {
        self.tryer.trying.calls
    }

    /// Begins to remove the members whose lease has run out at the moment `now`, in the unit of their leases. The fault is Open (an
    /// expiry is open); the expirer is then as it was. It takes no memory.
    pub fn begin_expire(&mut self, alloc: Global, now: u64) -> Result<(), BeginFault>
        requires { IsSound expiring self.old.tryer }
        ensures begins { Begins self.old.tryer now self.new.tryer result }
        ensures sound { IsSound expiring self.new.tryer }
        ensures follows { (client : ℕ) (front : Option History) → FollowsWhere machine client front self.old.tryer
            → FollowsWhere machine client front self.new.tryer }
        ensures cost { OnOk result ((base client : ℕ) (front : Option History) → 3 ≤ base
            → WhereLawful self.new.tryer.trying.loader.shard front (Backwards (machine.CostAt base client self.new.tryer))) }
    {
        if self.tryer.asked.is_some() {
            return Err(BeginFault::Open);
        }
        let asked = Expiry {
            asked: Asked::Expire { now },
            out: NumberList::new(alloc),
        };
        self.tryer.begin(asked, Transition::Expire { now });
        Ok(())
    }

    /// Goes on with the open expiry by one call of the store, through this port, unless the port finds the store taken.
    /// See docs/DEFINITIONS.md, "Polls". It fails only for want of memory: the expiry stays open, nothing was changed in the
    /// store, and the next poll makes the same call again.
    pub fn poll<P: Port>(
        &mut self,
        alloc: Global,
        port: &mut P,
    ) -> Result<Poll<ExpireAnswer>, AllocError>
        requires open { IsSome self.old.tryer.asked }
        requires sound { IsSound expiring self.old.tryer }
        // Over each told front that is lawful and starts as a collection, the expirer follows from the client's own entries.
        requires follows { FollowsWhere machine (P.client port.old) (P.front port.old) self.old.tryer }
        // At most one call is made, one that the client may make, and its reply comes to this.
        ensures polled { IfOk result (λ poll. Polled machine (P.client port.old) (P.front port.old) (P.front port.new)
            self.old.tryer self.new.tryer poll) }
        ensures memory { OnErr result (Unpolled machine (P.client port.old) (P.front port.old) (P.front port.new) self.old.tryer self.new.tryer) }
        ensures sound { IsSound expiring self.new.tryer }
        ensures follows { FollowsWhere machine (P.client port.old) (P.front port.new) self.new.tryer }
        // Each answer is legal at the end of the front, and nothing is damaged there.
        ensures legal { IfOk result (λ poll. LegalWhere machine (P.client port.old) (P.front port.new) self.old.tryer self.new.tryer poll) }
        // The bound on the calls is kept.
        ensures cost { IfOk result (λ poll. CostGoesOn machine (P.client port.old) (P.front port.old) (P.front port.new)
            self.old.tryer self.new.tryer poll) }
        ensures busy { result ≡ Ok polls.Busy → P.misses port.old < P.misses port.new }
        ensures fault { result ≡ Ok polls.Fault → Rose (P.faults port.old) (P.faults port.new) }
        ensures faults { P.faults port.old ≤ P.faults port.new }
        ensures misses { P.misses port.old ≤ P.misses port.new }
        ensures client { P.client port.new ≡ P.client port.old }
        ensures kept { P.kept port.new ≡ P.kept port.old }
    {
        machine_core::poll(&mut self.tryer, alloc, port)
    }
}
