// How the command `ingest` ends.
ghost use Rattle.std.specs.Prelude.{◌≡◌};
ghost use Rattle.ingest_command.specs.Faults.{ending_of, run_ending};

use ingest_run::IngestFault;
use plain_run::{Ending, SessionFault};
use update_core::Frontier;

/// How the command `ingest` ends, before its last line is written.
#[derive(Debug, Drop)]
pub enum IngestEnding {
    /// As a run may end too.
    AsRun(Ending),
    /// Every writer was stopped, or ended by a call that failed, and the upper isn't the feed's end.
    Upper { upper: Frontier },
    /// No append of the feed begins at the upper, and the feed doesn't end there.
    Misfit { upper: Frontier },
    /// With the feed's appends from its upper on the shard would weigh too much.
    Heavy { weight: u64 },
}

// How a run ends where a command has no answer.
fn run_ending(fault: SessionFault) -> Ending
    ensures { result ≡ run_ending fault }
{
    match fault {
        SessionFault::Memory => Ending::Memory,
        SessionFault::Store => Ending::StoreFailed,
        SessionFault::Damaged => Ending::Damaged,
        SessionFault::MembersFull => Ending::MembersFull,
        SessionFault::Spent => Ending::Spent,
    }
}

/// How the command ends where an ingest gives no text.
pub(crate) fn ending_of(fault: IngestFault) -> IngestEnding
    ensures { result ≡ ending_of fault }
{
    match fault {
        IngestFault::Outside(fault) => IngestEnding::AsRun(run_ending(fault)),
        IngestFault::Memory => IngestEnding::AsRun(Ending::Memory),
        IngestFault::Damaged => IngestEnding::AsRun(Ending::Damaged),
        IngestFault::Spent => IngestEnding::AsRun(Ending::Spent),
        IngestFault::MembersFull => IngestEnding::AsRun(Ending::MembersFull),
        IngestFault::Upper { upper } => IngestEnding::Upper { upper },
        IngestFault::Misfit { upper } => IngestEnding::Misfit { upper },
        IngestFault::Heavy { weight } => IngestEnding::Heavy { weight },
    }
}
