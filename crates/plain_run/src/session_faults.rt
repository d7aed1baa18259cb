// Why a session gives no reply.
ghost use Rattle.std.specs.Prelude.{◌≡◌};
ghost use Rattle.plain_run.specs.declared.session_faults.SessionFault.TheVariants.{Memory};
ghost use Rattle.plain_run.specs.RunFaults.{begin_fault, drive_fault};

use driving::DriveFault;
use load_core::BeginFault;
use std::alloc::AllocError;
use thiserror::Error;

/// Why a session gives no reply.
#[derive(Debug, Drop, Error)]
pub enum SessionFault {
    /// Memory was refused, or a command needs more calls than can be counted.
    #[error("out of memory")]
    Memory,
    /// A store call failed.
    #[error("a store call failed")]
    Store,
    /// The shard in the store is damaged.
    #[error("the shard is damaged")]
    Damaged,
    /// As many members stand as can.
    #[error("the members are full")]
    MembersFull,
    /// The shard has its last version.
    #[error("no version is left")]
    Spent,
}

impl From<AllocError> for SessionFault {
    ghost from_gives = { λ _ e. e ≡ Memory };

    fn from(_: AllocError) -> Self {
        SessionFault::Memory
    }
}

impl From<BeginFault> for SessionFault {
    ghost from_gives = { λ fault e. e ≡ begin_fault fault };

    fn from(fault: BeginFault) -> Self {
        match fault {
            BeginFault::Memory => SessionFault::Memory,
            _ => SessionFault::Damaged,
        }
    }
}

impl From<DriveFault> for SessionFault {
    ghost from_gives = { λ fault e. e ≡ drive_fault fault };

    fn from(fault: DriveFault) -> Self {
        match fault {
            DriveFault::Memory => SessionFault::Memory,
            DriveFault::Store => SessionFault::Store,
            DriveFault::Damaged => SessionFault::Damaged,
            DriveFault::Spent => SessionFault::Spent,
        }
    }
}
