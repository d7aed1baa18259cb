// The trait of a disk.
ghost use Rattle.std.specs.Prelude.{◌≡◌, ◌+◌, ◌≤◌, ℕ, Option, length, IfOk, OnOk, OnErr};
ghost use Rattle.causes.specs.Causes.{HasCause};
ghost use Rattle.journal_core.specs.Disks.{DiskHistory};
ghost use Rattle.journal_core.specs.Calls.{Same, Wrote, MayHaveWritten, WasCut, MayHaveBeenCut, WasSynced, Steps, MayStep, HasLength};
ghost use Rattle.journal_core.specs.Calls.{Reaches, HasBytes};

use crate::faults::DiskFault;

/// One file as a store sees it.
pub trait Disk: Drop {
    /// The disk after each call, where it tells that.
    ghost history: { Self → Option DiskHistory };

    /// How often a call has failed.
    ghost faults: { Self → ℕ };

    /// How many bytes there are.
    fn len(&mut self) -> Result<u64, DiskFault>
        ensures length { IfOk result (λ n. HasLength (history self.old) n) }
        ensures ok { OnOk result (Steps Same (history self.old) (history self.new)) }
        ensures err { OnErr result (MayStep Same (history self.old) (history self.new)) }
        ensures cause { HasCause (faults self.old) (faults self.new) result };

    /// Bytes from a place on, as many as there is room for.
    fn read(&mut self, at: u64, into: &mut [u8]) -> Result<(), DiskFault>
        requires { Reaches (history self.old) (at + length into.old) }
        ensures bytes { OnOk result (HasBytes (history self.old) at into.new) }
        ensures ok { OnOk result (Steps Same (history self.old) (history self.new)) }
        ensures err { OnErr result (MayStep Same (history self.old) (history self.new)) }
        ensures cause { HasCause (faults self.old) (faults self.new) result };

    /// Writes over what is there, and past the end.
    fn write_at(&mut self, at: u64, bytes: &[u8]) -> Result<(), DiskFault>
        requires { Reaches (history self.old) at }
        ensures ok { OnOk result (Steps (Wrote at bytes.now) (history self.old) (history self.new)) }
        ensures err { OnErr result (MayStep (MayHaveWritten at bytes.now) (history self.old) (history self.new)) }
        ensures cause { HasCause (faults self.old) (faults self.new) result };

    /// Takes away what lies past an end.
    fn cut(&mut self, len: u64) -> Result<(), DiskFault>
        ensures ok { OnOk result (Steps (WasCut len) (history self.old) (history self.new)) }
        ensures err { OnErr result (MayStep (MayHaveBeenCut len) (history self.old) (history self.new)) }
        ensures cause { HasCause (faults self.old) (faults self.new) result };

    /// After it, a crash leaves what a read gives. One that fails settles nothing.
    fn sync(&mut self) -> Result<(), DiskFault>
        ensures ok { OnOk result (Steps WasSynced (history self.old) (history self.new)) }
        ensures err { OnErr result (MayStep Same (history self.old) (history self.new)) }
        ensures cause { HasCause (faults self.old) (faults self.new) result };
}
