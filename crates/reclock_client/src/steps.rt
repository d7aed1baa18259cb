// Step: which command of which inner machine is next or open.
ghost use Rattle.std.specs.Prelude.{◌≡◌};
ghost use Rattle.reclock_client.specs.Parts.{part_of};

/// Which command of which of an operator's inner machines is next or open.
#[derive(Clone, Copy)]
pub enum Step {
    /// The remap shard's writer joins.
    JoinRemap,
    /// The remap shard's reader joins.
    JoinReader,
    /// The data shard's writer joins.
    JoinData,
    /// The reader takes the content at its own since.
    Snapshot,
    /// The reader begins its listen from there.
    Listen,
    /// The reader takes the next step of its listen.
    Next,
    /// The remap shard's writer appends a mint from this upper on.
    AppendRemap { from: u64 },
    /// The data shard's upper is looked at.
    Look,
    /// The data shard's writer appends the rows from this upper on.
    AppendData { from: u64 },
    /// The remap shard's writer leaves.
    LeaveRemap,
    /// The remap shard's reader leaves.
    LeaveReader,
    /// The data shard's writer leaves.
    LeaveData,
}

/// Which inner machine a step is of.
#[derive(Clone, Copy)]
pub enum Part {
    RemapWriter,
    Reader,
    DataWriter,
    Looker,
}

impl Step {
    /// Which inner machine it is of.
    pub fn part(self) -> Part
        ensures { result ≡ part_of self }
    {
        match self {
            Step::JoinRemap | Step::AppendRemap { .. } | Step::LeaveRemap => Part::RemapWriter,
            Step::JoinReader | Step::Snapshot | Step::Listen | Step::Next | Step::LeaveReader => {
                Part::Reader
            }
            Step::JoinData | Step::AppendData { .. } | Step::LeaveData => Part::DataWriter,
            Step::Look => Part::Looker,
        }
    }
}
