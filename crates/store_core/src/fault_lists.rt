// Faults in order.
ghost use Rattle.std.specs.Prelude.{◌≡◌, [], ◌∷◌, ◌++◌, IfOk, OnOk, OnErr};
ghost use Rattle.store_core.specs.Faults.{outcome_at};

use crate::faults::FaultAt;
use crate::outcomes::Outcome;
use std::alloc::{AllocError, Global};
use std::marker::Model;

/// Faults in order.
#[derive(Drop)]
pub struct FaultList {
    items: Vec<FaultAt>,
}

impl Model for FaultList {
    ghost use Rattle.std.specs.Prelude.{List};
    ghost use Rattle.store_core.specs.declared.faults.FaultAt.{FaultAt};

    ghost Value = { List FaultAt };

    ghost view = { λ l. l.items.items };
}

fn outcome_in(faults: &[FaultAt], number: u64) -> Outcome
    ensures { result ≡ outcome_at faults.now number }
{
    for fault in faults {
        if fault.number == number {
            return if fault.took {
                Outcome::FailedTook
            } else {
                Outcome::FailedLost
            };
        }
    }
    Outcome::Took
}

impl FaultList {
    /// The empty list, which takes no memory.
    pub fn new(alloc: Global) -> FaultList
        ensures { result ≡ [] }
    {
        FaultList {
            items: Vec::new(alloc),
        }
    }

    /// One more at the end. Where memory is refused the list is as it was.
    pub fn push(&mut self, item: FaultAt) -> Result<(), AllocError>
        ensures ok { OnOk result (self.new ≡ self.old ++ item ∷ []) }
        ensures err { OnErr result (self.new ≡ self.old) }
    {
        self.items.push(item)?;
        Ok(())
    }

    /// An equal list. It fails only for want of memory.
    pub fn copy(&self, alloc: Global) -> Result<FaultList, AllocError>
        ensures { IfOk result (λ copy. copy ≡ self.now) }
    {
        let items = self.items.to_vec(alloc)?;
        Ok(FaultList { items })
    }

    /// The items in order.
    pub fn as_slice(&self) -> &[FaultAt]
        ensures { result.now ≡ self.now }
    {
        &self.items
    }

    /// What becomes of the call with this number: what the first fault of that number says.
    pub fn outcome_of(&self, number: u64) -> Outcome
        ensures { result ≡ outcome_at self.now number }
    {
        outcome_in(&self.items, number)
    }
}
