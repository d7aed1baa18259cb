// The trait of a port.
ghost use Rattle.std.specs.Prelude.{◌≡◌, ◌<◌, ◌≤◌, ℕ, Option, Ok, IfOk, OnErr};
ghost use Rattle.causes.specs.Causes.{Rose};
ghost use Rattle.store_core.specs.Histories.{History};
ghost use Rattle.store_core.specs.Ports.{Sees, GrowsByOthers, IsTurnFor, IsFailure};

use crate::calls::Call;
use crate::turns::Turn;
use std::alloc::AllocError;

/// One client's way to a store.
pub trait Port {
    /// The number that its entries carry.
    ghost client: { Self → ℕ };

    /// The history that it has seen, where that is told.
    ghost front: { Self → Option History };

    /// How often a call has failed.
    ghost faults: { Self → ℕ };

    /// How often a call found the store taken.
    ghost misses: { Self → ℕ };

    /// What no call changes, which its owner needs to have back what the port was made of.
    ghost Kept: { Type 0 };

    /// That of a port.
    ghost kept: { Self → Kept };

    /// Asks the store once, or finds it taken. It fails only for want of memory.
    fn try_call(&mut self, call: &Call) -> Result<Turn, AllocError>
        // A reply is one entry of this client, after entries of others; Busy is none.
        ensures seen { IfOk result (λ turn. Sees (client self.old) (front self.old) (front self.new) call.now turn) }
        // Want of memory adds none of this client.
        ensures memory { OnErr result (GrowsByOthers (client self.old) (front self.old) (front self.new)) }
        ensures client { client self.new ≡ client self.old }
        ensures shape { IfOk result (λ turn. IsTurnFor call.now turn) }
        ensures busy { result ≡ Ok Turn.Busy → misses self.old < misses self.new }
        ensures cause { IfOk result (λ turn. IsFailure turn → Rose (faults self.old) (faults self.new)) }
        ensures faults { faults self.old ≤ faults self.new }
        ensures misses { misses self.old ≤ misses self.new }
        // Its owner knows again what it was made of.
        ensures kept { kept self.new ≡ kept self.old };
}
