// Why a text was not read.
ghost use Rattle.std.specs.Prelude.{◌≡◌};
ghost use Rattle.feed_text.specs.declared.read_faults.ReadFault.TheVariants.{Memory, Source as Failed};

use crate::sources::SourceFault;
use std::alloc::{AllocError, AllocFailed};
use thiserror::Error;

/// Why a text was not read.
#[derive(Debug, Drop, Error)]
pub enum ReadFault {
    /// Memory was refused.
    #[error("out of memory")]
    Memory,
    /// A read failed.
    #[error("a read failed")]
    Source,
}

impl From<AllocError> for ReadFault {
    ghost from_gives = { λ _ e. e ≡ Memory };

    fn from(_: AllocError) -> Self {
        ReadFault::Memory
    }
}

impl From<SourceFault> for ReadFault {
    ghost from_gives = { λ _ e. e ≡ Failed };

    fn from(_: SourceFault) -> Self {
        ReadFault::Source
    }
}
