// Collector: a client that removes the versions below the floor, and the parts that merges up to it took.
ghost use Rattle.std.specs.Prelude.{◌≡◌, ◌<◌, ◌≤◌, ◌^◌, ℕ, Option, Ok, Err, None, Some, IsSome, IfOk, IfSome, OnErr, OnOk};
ghost use Rattle.std.specs.Prelude.{is_some, length, option_copied};
ghost use Rattle.causes.specs.Causes.{Rose};
ghost use Rattle.store_core.specs.Histories.{History, IsReplyTo};
ghost use Rattle.load_core.specs.declared.polls.Poll.TheVariants as polls;
ghost use Rattle.load_core.specs.Fronts.{Backwards, WhereLawful};
ghost use Rattle.machine_core.specs.Polling.{CostGoesOn, FollowsWhere, LegalWhere, Polled, Unpolled};
ghost use Rattle.maint_client.specs.Sweeping.{IsSweep, sweep_call};
ghost use Rattle.maint_client.specs.Collecting.{Begins, GoesTo, IsOpen, IsSound, Moves, MovesBy, Wants};
ghost use Rattle.maint_client.specs.Collecting.{call_after, collecting, counted};

use crate::sweeps::Sweep;
use history_core::{Asked, CollectAnswer};
use load_core::{BeginFault, Poll, Unread};
use machine_core::Machine;
use std::alloc::{AllocError, Global};
use store_core::{Call, Port, Reply, ShardId, Version};

/// A collector of one shard. It has no member. A collection is begun and then polled until it ends; each poll makes at most one
/// call of the store.
#[derive(Drop)]
pub struct Collector {
    /// The shard's name.
    pub shard: ShardId,
    /// What is asked, where a collection is open.
    pub asked: Option<Asked>,
    /// What is left of it, once its Scan is answered.
    pub sweep: Option<Sweep>,
    /// How many calls it has made, or else the last one.
    pub calls: u64,
}

impl Collector {
    /// A collector of the shard. It takes no memory.
    pub fn new(shard: ShardId) -> Collector
        ensures idle { result.asked ≡ None }
        ensures shard { result.shard ≡ shard }
        ensures sound { IsSound result }
        ensures follows { (client : ℕ) (front : Option History) → FollowsWhere collecting client front result }
    {
        Collector {
            shard,
            asked: None,
            sweep: None,
            calls: 0,
        }
    }

    /// Whether a collection is open.
    pub fn busy(&self) -> bool
        ensures { result ≡ is_some self.now.asked }
    {
        self.asked.is_some()
    }

    /// What is asked, where a collection is open.
    pub fn asked(&self) -> Option<&Asked>
        ensures { option_copied result ≡ self.now.asked }
    {
        self.asked.as_ref()
    }

    /// How many calls of the store the polls of the open collection have made, or else those of the last one. It stands still at
    /// 2^64 - 1.
    pub fn calls(&self) -> u64
        ensures { result ≡ self.now.calls }
    {
        self.calls
    }

    /// Begins to remove what lies below the floor. The fault is Open (a collection is open); the collector is then as it was. It
    /// takes no memory.
    pub fn begin_collect(&mut self) -> Result<(), BeginFault>
        requires { IsSound self.old }
        ensures begins { Begins self.old self.new result }
        ensures sound { IsSound self.new }
        ensures follows { (client : ℕ) (front : Option History) → FollowsWhere collecting client front self.old
            → FollowsWhere collecting client front self.new }
        ensures cost { OnOk result ((base client : ℕ) (front : Option History) → 2 ≤ base
            → WhereLawful self.new.shard front (Backwards (collecting.CostAt base client self.new))) }
    {
        if self.asked.is_some() {
            return Err(BeginFault::Open);
        }
        self.asked = Some(Asked::Collect);
        self.sweep = None;
        self.calls = 0;
        Ok(())
    }

    /// Goes on with the open collection by one call of the store, through this port, unless the port finds the store taken.
    /// See docs/DEFINITIONS.md, "Polls". It fails only for want of memory: the collection stays open, nothing was changed in the
    /// store, and the next poll makes the same call again.
    pub fn poll<P: Port>(
        &mut self,
        alloc: Global,
        port: &mut P,
    ) -> Result<Poll<CollectAnswer>, AllocError>
        requires open { IsOpen self.old }
        requires sound { IsSound self.old }
        // Over each told front that is lawful and starts as a collection, the collector follows from the client's own entries.
        requires follows { FollowsWhere collecting (P.client port.old) (P.front port.old) self.old }
        // At most one call is made, one that the client may make, and its reply comes to this.
        ensures polled { IfOk result (λ poll. Polled collecting (P.client port.old) (P.front port.old) (P.front port.new)
            self.old self.new poll) }
        ensures memory { OnErr result (Unpolled collecting (P.client port.old) (P.front port.old) (P.front port.new)
            self.old self.new) }
        ensures sound { IsSound self.new }
        ensures follows { FollowsWhere collecting (P.client port.old) (P.front port.new) self.new }
        // Each answer is legal at the end of the front, and nothing is damaged there.
        ensures legal { IfOk result (λ poll. LegalWhere collecting (P.client port.old) (P.front port.new)
            self.old self.new poll) }
        // The bound on the calls is kept.
        ensures cost { IfOk result (λ poll. CostGoesOn collecting (P.client port.old) (P.front port.old) (P.front port.new)
            self.old self.new poll) }
        ensures busy { result ≡ Ok polls.Busy → P.misses port.old < P.misses port.new }
        ensures fault { result ≡ Ok polls.Fault → Rose (P.faults port.old) (P.faults port.new) }
        ensures faults { P.faults port.old ≤ P.faults port.new }
        ensures misses { P.misses port.old ≤ P.misses port.new }
        ensures client { P.client port.new ≡ P.client port.old }
        ensures kept { P.kept port.new ≡ P.kept port.old }
    {
        machine_core::poll(self, alloc, port)
    }

    // One call more was made.
    fn count(&mut self)
        ensures { self.new ≡ counted self.old }
    {
        self.calls = self.calls.saturating_add(1);
    }

    // Goes on with what is left, or ends where nothing is.
    fn go_on(&mut self, sweep: Sweep) -> Poll<CollectAnswer>
        requires within { sweep.place ≤ length sweep.keys }
        requires few { length sweep.keys ≤ 2 ^ 62 }
        requires sound { IsSound self.old }
        ensures goes { GoesTo self.old sweep self.new result }
        ensures sound { IsSound self.new }
    {
        self.count();
        if sweep.goes_on() {
            self.sweep = Some(sweep);
            return Poll::More;
        }
        self.asked = None;
        self.sweep = None;
        Poll::Done(CollectAnswer::Collected {
            floor: sweep.floor,
            deleted: sweep.place as u64,
        })
    }

    // What a reply to the Scan comes to.
    fn after_scan(&mut self, alloc: Global, reply: Reply) -> Result<Poll<CollectAnswer>, AllocError>
        requires scans { self.old.sweep ≡ None }
        requires row { IsReplyTo (Call.Scan self.old.shard 0) reply }
        requires sound { IsSound self.old }
        ensures moves { IfOk result (λ poll. MovesBy self.old None reply self.new poll) }
        ensures sound { IsSound self.new }
        ensures memory { OnErr result (Wants self.old self.new) }
    {
        match reply {
            Reply::Versions(versions) => self.after_versions(alloc, versions.as_slice()),
            _ => {
                self.count();
                Ok(Poll::Fault)
            }
        }
    }

    // What the versions that the Scan shows come to.
    fn after_versions(
        &mut self,
        alloc: Global,
        versions: &[Version],
    ) -> Result<Poll<CollectAnswer>, AllocError>
        requires scans { self.old.sweep ≡ None }
        requires sound { IsSound self.old }
        ensures sound { IsSound self.new }
        ensures moves { IfOk result (λ poll. MovesBy self.old None (Reply.Versions versions.now) self.new poll) }
        ensures memory { OnErr result (Wants self.old self.new) }
    {
        match Sweep::of(alloc, self.shard, versions) {
            Ok(sweep) => Ok(self.go_on(sweep)),
            Err(Unread::Damaged(damage)) => {
                self.count();
                self.asked = None;
                Ok(Poll::Damaged(damage))
            }
            Err(Unread::Memory) => {
                self.count();
                Err(AllocError)
            }
        }
    }

    // What a reply to a Delete or a Truncate comes to.
    fn after_change(&mut self, sweep: Sweep, reply: Reply) -> Poll<CollectAnswer>
        requires scans { self.old.sweep ≡ None }
        requires row { IsReplyTo (sweep_call self.old.shard sweep) reply }
        requires sound { IsSound (record self.old { sweep = Some sweep }) }
        ensures moves { MovesBy (record self.old { sweep = Some sweep }) (Some sweep) reply self.new result }
        ensures sound { IsSound self.new }
    {
        let mut sweep = sweep;
        match reply {
            Reply::Deleted | Reply::Truncated => {
                sweep.pass();
                self.go_on(sweep)
            }
            _ => {
                self.count();
                self.sweep = Some(sweep);
                Poll::Fault
            }
        }
    }
}

impl Machine for Collector {
    type Answer = CollectAnswer;

    ghost words = { collecting };

    fn prepare(&mut self, _alloc: Global) -> Result<(), AllocError> {
        Ok(())
    }

    fn next_call(&self) -> Result<Call, AllocError> {
        match &self.sweep {
            Some(sweep) => Ok(sweep.next_call(self.shard)),
            None => Ok(Call::Scan {
                shard: self.shard,
                from: 0,
            }),
        }
    }

    fn react(&mut self, alloc: Global, reply: Reply) -> Result<Poll<CollectAnswer>, AllocError> {
        match self.sweep.take() {
            Some(sweep) => Ok(self.after_change(sweep, reply)),
            None => self.after_scan(alloc, reply),
        }
    }
}
