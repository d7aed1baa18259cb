// Why a spine refuses a change.
ghost use Rattle.std.specs.Prelude.{◌≡◌};
ghost use Rattle.spine_core.specs.declared.spine_faults.SpineFault.TheVariants.{Memory};

use std::alloc::AllocError;
use thiserror::Error;
use update_core::Frontier;

/// Why a spine refuses a change. It is then as it was.
#[derive(Debug, Drop, Error)]
pub enum SpineFault {
    /// Memory was refused.
    #[error("out of memory")]
    Memory,
    /// The batch doesn't begin where the spine ends, which is at `upper`.
    #[error("the batch isn't the next one")]
    NotNext { upper: Frontier },
    /// The first of two batches isn't there with the other directly after it.
    #[error("the two batches aren't there")]
    Gone,
}

impl From<AllocError> for SpineFault {
    ghost from_gives = { λ _ e. e ≡ Memory };

    fn from(_: AllocError) -> Self {
        SpineFault::Memory
    }
}
