// Why bytes are no part.
ghost use Rattle.std.specs.Prelude.{◌≡◌};
ghost use Rattle.part_codec.specs.declared.part_faults.PartFault.TheVariants.{Memory};

use byte_core::Short;
use std::alloc::AllocError;
use thiserror::Error;

/// Why bytes are no part: the first fault from the left, and the place of a byte, counted from 0.
#[derive(Debug, Drop, Error)]
pub enum PartFault {
    /// The bytes end before a field is whole. The place is the field's first byte.
    #[error("the bytes end within the field at {place}")]
    Short { place: u64 },
    /// The first four bytes aren't `PART`.
    #[error("no part begins so: see the byte at {place}")]
    Magic { place: u64 },
    /// The form isn't 1.
    #[error("the byte at {place} is no known form")]
    Form { place: u64 },
    /// A count is above 4,096, or the length of a datum is 0. The place is that field's first byte.
    #[error("the size at {place} is out of its bounds")]
    Size { place: u64 },
    /// A row isn't above the one before it. The place is the row's first byte.
    #[error("the row at {place} isn't above the one before it")]
    Order { place: u64 },
    /// A difference is 0. The place is the difference's first byte.
    #[error("the difference at {place} is 0")]
    Zero { place: u64 },
    /// Bytes follow the last row. The place is the first of them.
    #[error("bytes follow the last row from {place} on")]
    Trailing { place: u64 },
    /// Memory was refused.
    #[error("out of memory")]
    Memory,
}

impl From<AllocError> for PartFault {
    ghost from_gives = { λ _ e. e ≡ Memory };

    fn from(_: AllocError) -> Self {
        PartFault::Memory
    }
}

impl From<Short> for PartFault {
    ghost use Rattle.part_codec.specs.declared.part_faults.PartFault.TheVariants as faults;

    ghost from_gives = { λ short e. e ≡ faults.Short short.place };

    fn from(short: Short) -> Self {
        PartFault::Short { place: short.place }
    }
}
