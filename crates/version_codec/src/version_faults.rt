// Why bytes are no version.
ghost use Rattle.std.specs.Prelude.{◌≡◌};
ghost use Rattle.version_codec.specs.declared.version_faults.VersionFault.TheVariants.{Memory};

use byte_core::Short;
use std::alloc::AllocError;
use thiserror::Error;

/// Why bytes are no version: the first fault from the left, and the place of a byte, counted from 0.
#[derive(Debug, Drop, Error)]
pub enum VersionFault {
    /// The bytes end before a field is whole. The place is the field's first byte.
    #[error("the bytes end within the field at {place}")]
    Short { place: u64 },
    /// The first four bytes aren't `PVER`.
    #[error("no version begins so: see the byte at {place}")]
    Magic { place: u64 },
    /// The form isn't 1.
    #[error("the byte at {place} is no known form")]
    Form { place: u64 },
    /// A byte names no kind of member, frontier or transition. The place is that byte's.
    #[error("the byte at {place} names nothing")]
    Tag { place: u64 },
    /// A field can't be as it is beside those before it. The place is the field's first byte.
    #[error("the field at {place} breaks a rule")]
    Rule { place: u64 },
    /// Bytes follow the transition. The place is the first of them.
    #[error("bytes follow the transition from {place} on")]
    Trailing { place: u64 },
    /// Memory was refused.
    #[error("out of memory")]
    Memory,
}

impl From<AllocError> for VersionFault {
    ghost from_gives = { λ _ e. e ≡ Memory };

    fn from(_: AllocError) -> Self {
        VersionFault::Memory
    }
}

impl From<Short> for VersionFault {
    ghost use Rattle.version_codec.specs.declared.version_faults.VersionFault.TheVariants as faults;

    ghost from_gives = { λ short e. e ≡ faults.Short short.place };

    fn from(short: Short) -> Self {
        VersionFault::Short { place: short.place }
    }
}
