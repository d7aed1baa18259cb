// Laws of crashes, each the contract of a function that does nothing.
ghost use Rattle.crash_laws.specs.Accepted.{CrashKeepsAccepted, CrashInACall, FaultInACall};

/// Where a crash at some moment left what stands for the store after the first calls of a lawful history, or with the next one too, the
/// store that is opened stands for the updates that those calls make accepted.
pub fn crash_keeps_accepted()
    ensures { CrashKeepsAccepted }
{}

/// Where a crash came within a call, the store that is opened stands for the updates that were accepted before the call, so for the
/// rows of every append that was answered Ok, or for those with the call's.
pub fn crash_in_a_call()
    ensures { CrashInACall }
{}

/// Where the disk failed in a call, after which each call failed, the store that is opened stands for what is accepted where that
/// call counts as lost, or where it counts as one that took effect.
pub fn fault_in_a_call()
    ensures { FaultInACall }
{}
