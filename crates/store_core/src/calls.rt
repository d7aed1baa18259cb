// Calls of a store.
ghost use Rattle.std.specs.Prelude.{◌≡◌, IfOk};

use crate::byte_strings::Bytes;
use crate::part_keys::PartKey;
use crate::shards::ShardId;
use std::alloc::AllocError;

/// What a client asks of a store.
#[derive(Drop)]
pub enum Call {
    /// The last version of a shard.
    Head {
        shard: ShardId,
    },
    /// The live versions of a shard from a number on.
    Scan {
        shard: ShardId,
        from: u64,
    },
    /// One more version, if the last number is the expected one.
    Cas {
        shard: ShardId,
        expected: Option<u64>,
        bytes: Bytes,
    },
    /// The versions below a number go, but for the last.
    Truncate {
        shard: ShardId,
        below: u64,
    },
    /// The bytes of a key.
    Get {
        key: PartKey,
    },
    /// The key holds the bytes.
    Set {
        key: PartKey,
        bytes: Bytes,
    },
    /// The key holds nothing.
    Delete {
        key: PartKey,
    },
}

impl Call {
    /// An equal call. It takes no memory, and fails only where its bytes have 2^63 - 1 owners.
    pub fn copy(&self) -> Result<Call, AllocError>
        ensures { IfOk result (λ c. c ≡ self.now) }
    {
        match self {
            Call::Head { shard } => Ok(Call::Head { shard: *shard }),
            Call::Scan { shard, from } => Ok(Call::Scan {
                shard: *shard,
                from: *from,
            }),
            Call::Cas {
                shard,
                expected,
                bytes,
            } => {
                let bytes = bytes.copy()?;
                Ok(Call::Cas {
                    shard: *shard,
                    expected: *expected,
                    bytes,
                })
            }
            Call::Truncate { shard, below } => Ok(Call::Truncate {
                shard: *shard,
                below: *below,
            }),
            Call::Get { key } => Ok(Call::Get { key: *key }),
            Call::Set { key, bytes } => {
                let bytes = bytes.copy()?;
                Ok(Call::Set { key: *key, bytes })
            }
            Call::Delete { key } => Ok(Call::Delete { key: *key }),
        }
    }
}
