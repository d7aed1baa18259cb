// Records as they are written.
ghost use Rattle.std.specs.Prelude.{◌≡◌, ◌++◌, [], ◌∷◌, length, IfOk};
ghost use Rattle.journal_core.specs.Records.{number_bytes};

use std::alloc::{AllocError, Global};
use std::marker::Model;

/// A payload as it is written behind the last gate: its length, the payload, and a closed gate.
#[derive(Drop)]
pub struct Record {
    bytes: Vec<u8>,
    len: u64,
}

impl Model for Record {
    ghost use Rattle.std.specs.Prelude.{List, ℕ, take, drop, ◌≡◌, ◌++◌, [], ◌∷◌, length};
    ghost use Rattle.journal_core.specs.Records.{number_bytes, staged_payload, staged_bytes};

    ghost Value = { List ℕ };

    ghost view = { λ r. staged_payload r.len r.bytes.items };

    ghost invariant = { λ r. (r.bytes.items ≡ staged_bytes (staged_payload r.len r.bytes.items))
        × (r.len ≡ length (staged_payload r.len r.bytes.items)) };
}

impl Record {
    ghost use Rattle.journal_core.specs.Records.{staged_bytes};

    /// The record of a payload. It fails only for want of memory.
    pub fn of(alloc: Global, payload: &[u8]) -> Result<Record, AllocError>
        ensures { IfOk result (λ r. r ≡ payload.now) }
    {
        let len = payload.len() as u64;
        let bytes = staged(alloc, len, payload)?;
        Ok(Record { bytes, len })
    }

    /// What is written.
    pub fn bytes(&self) -> &[u8]
        ensures { result.now ≡ staged_bytes self.now }
    {
        &self.bytes
    }

    /// The length of the payload.
    pub fn len(&self) -> u64
        ensures { result ≡ length self.now }
    {
        self.len
    }
}

#[tactic(auto, unfolding(crate::specs::Records::number_bytes))]
fn staged(alloc: Global, len: u64, payload: &[u8]) -> Result<Vec<u8>, AllocError>
    ensures { IfOk result (λ bytes. bytes.items ≡ number_bytes len ++ (payload.now ++ 0 ∷ [])) }
{
    let mut bytes = Vec::new(alloc);
    bytes.extend_from_slice(&len.to_be_bytes())?;
    bytes.extend_from_slice(payload)?;
    bytes.push(0)?;
    Ok(bytes)
}
