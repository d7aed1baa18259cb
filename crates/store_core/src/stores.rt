// The trait of a store.
ghost use Rattle.std.specs.Prelude.{◌≡◌, ◌≤◌, ℕ, Option, IfOk, OnErr};
ghost use Rattle.causes.specs.Causes.{Rose};
ghost use Rattle.store_core.specs.Histories.{History, Adds, IsReplyTo};

use crate::calls::Call;
use crate::replies::Reply;
use std::alloc::AllocError;

/// A store of blobs and versions.
pub trait Store {
    /// The store at its start and the entries since then, where it tells them.
    ghost history: { Self → Option History };

    /// How often a call has failed.
    ghost faults: { Self → ℕ };

    /// Answers a call of a client. It fails only for want of memory.
    fn call(&mut self, client: u64, call: &Call) -> Result<Reply, AllocError>
        // One more entry, with the reply of the table for the history so far.
        ensures entry { IfOk result (λ reply. Adds (history self.old) (history self.new) client call.now reply) }
        // Want of memory changes nothing.
        ensures memory { OnErr result (history self.new ≡ history self.old) }
        // Over every store: the reply is of the call's row, or Failed.
        ensures shape { IfOk result (λ reply. IsReplyTo call.now reply) }
        // Failed only where the count rose, which never falls.
        ensures cause { IfOk result (λ reply. reply ≡ Reply.Failed → Rose (faults self.old) (faults self.new)) }
        ensures later { faults self.old ≤ faults self.new };
}
