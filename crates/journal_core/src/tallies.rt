// Which calls of a disk in memory fail, and how many did.
ghost use Rattle.std.specs.Prelude.{◌≡◌, ◌+◌, ◌-◌, ◌^◌, ◌≤◌, min, true, false, Contains};
ghost use Rattle.causes.specs.Causes.{Rose};

use crate::faults::DiskFault;
use causes::{NumberList, one_more};
use std::alloc::Global;

/// The places of the calls that fail, from 0, and how many calls were made, failed, and failed for want of memory alone. A count stands
/// still at 2^64 - 1.
#[derive(Drop)]
pub struct Tally {
    pub fails: NumberList,
    pub made: u64,
    pub failed: u64,
    pub refused: u64,
}

impl Tally {
    /// Before any call.
    pub(crate) fn new(fails: NumberList) -> Tally
        ensures { result ≡ record { fails = fails; made = 0; failed = 0; refused = 0 } }
    {
        Tally {
            fails,
            made: 0,
            failed: 0,
            refused: 0,
        }
    }

    /// Counts the call that comes, and whether it is one that fails.
    pub(crate) fn next_fails(&mut self) -> bool
        ensures listed { result ≡ true → Contains self.old.fails self.old.made }
        ensures others { result ≡ false → Contains self.old.fails self.old.made → ⊥ }
        ensures made { self.new ≡ record self.old { made = min (self.old.made + 1) (2 ^ 64 - 1) } }
    {
        let listed = self.fails.contains(self.made);
        self.made = one_more(self.made);
        listed
    }

    /// A listed call failed.
    pub(crate) fn fault(&mut self) -> DiskFault
        ensures failed { self.new ≡ record self.old { failed = min (self.old.failed + 1) (2 ^ 64 - 1) } }
        ensures rose { Rose self.old.failed self.new.failed }
        ensures later { self.old.failed ≤ self.new.failed }
    {
        self.failed = one_more(self.failed);
        DiskFault::Failed
    }

    /// A call was refused memory.
    pub(crate) fn refusal(&mut self) -> DiskFault
        ensures failed { self.new ≡ record self.old {
          failed = min (self.old.failed + 1) (2 ^ 64 - 1);
          refused = min (self.old.refused + 1) (2 ^ 64 - 1);
        } }
        ensures rose { Rose self.old.failed self.new.failed }
        ensures later { self.old.failed ≤ self.new.failed }
    {
        self.refused = one_more(self.refused);
        self.fault()
    }
}
