// Where a text stops being a feed.
ghost use Rattle.std.specs.Prelude.{◌≡◌};
ghost use Rattle.feed_text.specs.declared.line_faults.LineFault.TheVariants.{Memory};

use std::alloc::AllocError;
use thiserror::Error;

/// Why a text gives no feed.
#[derive(Debug, Drop, Error)]
pub enum LineFault {
    /// Memory was refused.
    #[error("out of memory")]
    Memory,
    /// The first line at fault, counted from 1.
    #[error("line {number}")]
    Line { number: u64 },
}

impl From<AllocError> for LineFault {
    ghost from_gives = { λ _ e. e ≡ Memory };

    fn from(_: AllocError) -> Self {
        LineFault::Memory
    }
}
