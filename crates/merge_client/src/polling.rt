// A poll of a compactor.
ghost use Rattle.std.specs.Prelude.{◌≡◌, ◌<◌, ◌≤◌, Ok, IfOk, OnErr};
ghost use Rattle.causes.specs.Causes.{Rose};
ghost use Rattle.load_core.specs.declared.polls.Poll.TheVariants as polls;
ghost use Rattle.machine_core.specs.Polling as machines;
ghost use Rattle.machine_core.specs.Polling.{CostGoesOn, LegalWhere, Polled, Unpolled};
ghost use Rattle.merge_client.specs.Machining.{machine};
ghost use Rattle.merge_client.specs.Merging.{IsOpen, IsSound};

use crate::compactors::Compactor;
use history_core::MergeAnswer;
use load_core::Poll;
use std::alloc::{AllocError, Global};
use store_core::Port;

impl Compactor {
    /// Goes on with the open command by one call of the store, through this port, unless the port finds the store taken.
    /// See docs/DEFINITIONS.md, "Polls". It fails only for want of memory: the command stays open, nothing was changed in the
    /// store, and the next poll makes the same call again.
    pub fn poll<P: Port>(
        &mut self,
        alloc: Global,
        port: &mut P,
    ) -> Result<Poll<MergeAnswer>, AllocError>
        requires open { IsOpen self.old }
        requires sound { IsSound self.old }
        // Over each told front that is lawful and starts as a collection, the compactor follows from the client's own entries.
        requires follows { machines.FollowsWhere machine (P.client port.old) (P.front port.old) self.old }
        // At most one call is made, one that the client may make, and its reply comes to this.
        ensures polled { IfOk result (λ poll. Polled machine (P.client port.old) (P.front port.old) (P.front port.new) self.old self.new poll) }
        ensures memory { OnErr result (Unpolled machine (P.client port.old) (P.front port.old) (P.front port.new) self.old self.new) }
        ensures sound { IsSound self.new }
        ensures follows { machines.FollowsWhere machine (P.client port.old) (P.front port.new) self.new }
        // Each answer is legal at the end of the front, and nothing is damaged there.
        ensures legal { IfOk result (λ poll. LegalWhere machine (P.client port.old) (P.front port.new) self.old self.new poll) }
        // The bound on the calls is kept.
        ensures cost { IfOk result (λ poll. CostGoesOn machine (P.client port.old) (P.front port.old) (P.front port.new) self.old self.new poll) }
        ensures busy { result ≡ Ok polls.Busy → P.misses port.old < P.misses port.new }
        ensures fault { result ≡ Ok polls.Fault → Rose (P.faults port.old) (P.faults port.new) }
        ensures faults { P.faults port.old ≤ P.faults port.new }
        ensures misses { P.misses port.old ≤ P.misses port.new }
        ensures client { P.client port.new ≡ P.client port.old }
        ensures kept { P.kept port.new ≡ P.kept port.old }
    {
        machine_core::poll(self, alloc, port)
    }
}
