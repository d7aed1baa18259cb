// Why an ingest gives no text.
ghost use Rattle.std.specs.Prelude.{◌≡◌};
ghost use Rattle.ingest_run.specs.declared.faults.IngestFault.TheVariants.{Outside};

use plain_run::SessionFault;
use thiserror::Error;
use update_core::Frontier;

/// Why an ingest gives no text.
#[derive(Debug, Drop, Error)]
pub enum IngestFault {
    /// A command outside of the crew has no answer.
    #[error("a command outside of the crew has no answer")]
    Outside(SessionFault),
    /// Memory was refused to the crew, or to a worker of it.
    #[error("out of memory")]
    Memory,
    /// A worker found the shard damaged, or the store contradicts what its workers were told.
    #[error("the shard is damaged")]
    Damaged,
    /// A worker found that the shard has its last version.
    #[error("no version is left")]
    Spent,
    /// A worker found that as many members stand as can.
    #[error("the members are full")]
    MembersFull,
    /// Every writer was stopped, or ended by a call that failed, and the upper isn't the feed's end.
    #[error("the feed isn't in")]
    Upper { upper: Frontier },
    /// No append of the feed begins at the upper, and the feed doesn't end there.
    #[error("the upper doesn't suit the feed")]
    Misfit { upper: Frontier },
    /// With the feed's appends from its upper on the shard would weigh too much.
    #[error("the feed is too heavy")]
    Heavy { weight: u64 },
}

impl From<SessionFault> for IngestFault {
    ghost from_gives = { λ fault e. e ≡ Outside fault };

    fn from(fault: SessionFault) -> Self {
        IngestFault::Outside(fault)
    }
}
