// Byte strings of 1 to 255 bytes.
ghost use Rattle.std.specs.Prelude.{◌≡◌, ◌⊎◌, ◌<◌, ◌≤◌, ◌↔◌, length, IfOk, OnOk, IsErrOf, IfErr};
ghost use Rattle.std.specs.Cmp.Lexicographic.{slice_cmp};
ghost use Rattle.std.specs.Cmp.Lexicographic.{pointwise};
ghost use Rattle.std.specs.Cmp.{partial_equiv_from_equiv};
ghost use Rattle.std.specs.Cmp.Lexicographic.{texts_ties, texts_po};
ghost use Rattle.std.proofs.Common.{refl};
ghost use Rattle.std.proofs.lemmas.Cmp.{nat_list_cmp_total, nat_list_eq_equiv};
ghost use Rattle.std.specs.Ordering.{nat_cmp};
ghost use Rattle.std.specs.Prelude.{nat_eq, Some};
ghost use Rattle.update_core.specs.declared.data.DatumFault.TheVariants.{Memory};

use std::alloc::{AllocError, Global};
use std::cmp::Ordering;
use std::marker::Model;
use thiserror::Error;

/// What a collection counts: 1 to 255 bytes. See docs/DEFINITIONS.md, "Updates".
#[derive(Drop)]
pub struct Datum {
    bytes: Vec<u8>,
}

impl Model for Datum {
    ghost use Rattle.std.specs.Prelude.{List, ℕ, ◌≤◌, length};

    ghost Value = { List ℕ };

    ghost view = { λ d. d.bytes.items };

    ghost invariant = { λ d. (1 ≤ length d.bytes.items) × (length d.bytes.items ≤ 255) };
}

/// Why bytes are no datum.
#[derive(Debug, Drop, Error)]
pub enum DatumFault {
    /// Memory was refused.
    #[error("out of memory")]
    Memory,
    /// There are 0 bytes, or more than 255.
    #[error("a datum has 1 to 255 bytes, and not {len}")]
    DatumSize { len: usize },
}

impl From<AllocError> for DatumFault {
    ghost from_gives = { λ _ e. e ≡ Memory };

    fn from(_: AllocError) -> Self {
        DatumFault::Memory
    }
}

impl Datum {
    /// The datum of these bytes. `DatumSize` exactly where there are 0 or more than 255, whatever memory there is; for 1 to 255
    /// `Memory` where memory is refused.
    pub fn of(alloc: Global, bytes: &[u8]) -> Result<Datum, DatumFault>
        ensures ok { IfOk result (λ d. (d ≡ bytes.now) × (1 ≤ length bytes.now) × (length bytes.now ≤ 255)) }
        ensures size { IfErr result (λ e. ((e ≡ DatumFault.Memory) × (1 ≤ length bytes.now) × (length bytes.now ≤ 255))
            ⊎ ((e ≡ DatumFault.DatumSize (length bytes.now)) × ((length bytes.now ≡ 0) ⊎ (255 < length bytes.now)))) }
    {
        let len = bytes.len();
        if len == 0 || len > 255 {
            return Err(DatumFault::DatumSize { len });
        }
        let bytes = bytes.to_vec(alloc)?;
        Ok(Datum { bytes })
    }

    /// The bytes.
    pub fn bytes(&self) -> &[u8]
        ensures bytes { result.now ≡ self.now }
        ensures some { 1 ≤ length self.now }
        ensures few { length self.now ≤ 255 }
    {
        &self.bytes
    }

    /// An equal datum. It fails only for want of memory.
    pub fn copy(&self, alloc: Global) -> Result<Datum, AllocError>
        ensures { IfOk result (λ d. d ≡ self.now) }
    {
        let bytes = self.bytes.to_vec(alloc)?;
        Ok(Datum { bytes })
    }
}

impl PartialEq for Datum {
    ghost eq = { pointwise nat_eq };

    ghost laws = { partial_equiv_from_equiv nat_list_eq_equiv };

    fn eq(&self, other: &Datum) -> bool {
        self.bytes.as_slice() == other.bytes.as_slice()
    }
}

impl Eq for Datum {
    ghost laws = { nat_list_eq_equiv };
}

// By the bytes.
impl Ord for Datum {
    ghost cmp = { slice_cmp nat_cmp };

    ghost total = { nat_list_cmp_total };

    ghost matches_partial_cmp = { λ x y. refl };

    ghost matches_eq = { λ x y. texts_ties x y };

    fn cmp(&self, other: &Datum) -> Ordering {
        self.bytes.as_slice().cmp(other.bytes.as_slice())
    }
}

impl PartialOrd for Datum {
    ghost partial_cmp = { λ x y. Some (slice_cmp nat_cmp x y) };

    ghost laws = { texts_po };

    fn partial_cmp(&self, other: &Datum) -> Option<Ordering> {
        Some(self.cmp(other))
    }
}
