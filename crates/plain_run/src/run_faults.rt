// Why a run ended early.
ghost use Rattle.std.specs.Prelude.{◌≡◌};
ghost use Rattle.plain_run.specs.declared.run_faults.RunFault.TheVariants.{Memory, Sink as Failed};
ghost use Rattle.plain_run.specs.RunFaults.{fault_of};

use crate::session_faults::SessionFault;
use feed_text::SinkFault;
use std::alloc::AllocError;
use thiserror::Error;

/// Why a run ended before its last reply was written.
#[derive(Debug, Drop, Error)]
pub enum RunFault {
    /// Memory was refused.
    #[error("out of memory")]
    Memory,
    /// A put failed.
    #[error("a put failed")]
    Sink,
    /// A store call failed.
    #[error("a store call failed")]
    Store,
    /// The shard in the store is damaged.
    #[error("the shard is damaged")]
    Damaged,
    /// As many members stand in the shard as can.
    #[error("the members are full")]
    MembersFull,
    /// The shard has its last version.
    #[error("no version is left")]
    Spent,
}

impl From<AllocError> for RunFault {
    ghost from_gives = { λ _ e. e ≡ Memory };

    fn from(_: AllocError) -> Self {
        RunFault::Memory
    }
}

impl From<SinkFault> for RunFault {
    ghost from_gives = { λ _ e. e ≡ Failed };

    fn from(_: SinkFault) -> Self {
        RunFault::Sink
    }
}

impl From<SessionFault> for RunFault {
    ghost from_gives = { λ fault e. e ≡ fault_of fault };

    fn from(fault: SessionFault) -> Self {
        match fault {
            SessionFault::Memory => RunFault::Memory,
            SessionFault::Store => RunFault::Store,
            SessionFault::Damaged => RunFault::Damaged,
            SessionFault::MembersFull => RunFault::MembersFull,
            SessionFault::Spent => RunFault::Spent,
        }
    }
}
