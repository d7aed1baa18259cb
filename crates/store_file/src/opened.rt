// A disk is read and repaired.
ghost use Rattle.std.specs.Prelude.{◌≡◌, ◌≤◌, ◌<◌, length, IfOk, IfErr, MatchResult};
ghost use Rattle.std.specs.Option.{ForSome};
ghost use Rattle.store_core.specs.Contents.{stored_of};
ghost use Rattle.store_core.specs.Stores.{Stored};
ghost use Rattle.store_file.specs.Replays.{Stands};
ghost use Rattle.store_file.specs.Causes.{IsCauseOf, IsOpened, IsFromOutside};

use crate::found::Found;
use crate::open_faults::OpenFault;
use crate::opening::found_in;
use journal_core::{Disk, load, repair};
use std::alloc::Global;

/// The store that is found on a disk, which is at rest then.
pub(crate) fn opened<D: Disk>(alloc: Global, disk: &mut D) -> Result<Found, OpenFault>
    ensures ok { IfOk result (λ found. IsOpened (D.history disk.old) (D.history disk.new) found) }
    ensures err { IfErr result (λ why. IsCauseOf (D.history disk.old) (D.faults disk.old) (D.faults disk.new) why) }
    // Where the bytes stand for a store, that is the one that is found, unless the disk fails or memory is refused.
    ensures whole { (s : Stored) → ForSome (D.history disk.old) (λ h. Stands s h.now.bytes
        → MatchResult result (λ found. stored_of found.contents ≡ s) IsFromOutside) }
    ensures later { D.faults disk.old ≤ D.faults disk.new }
{
    let bytes = load(alloc, disk)?;
    let found = match found_in(alloc, &bytes) {
        Ok(found) => found,
        Err(why) => return Err(why),
    };
    let len = bytes.len() as u64;
    repair(disk, found.end, found.gate, len)?;
    Ok(found)
}
