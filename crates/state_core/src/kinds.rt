// What a member does.
ghost use Rattle.std.specs.Prelude.{◌≡◌};
ghost use Rattle.state_core.specs.Refusals.{is_keeper};
ghost use Rattle.state_core.specs.States.{is_reader, is_writer};

/// What a member does with a shard: it writes, reads, or keeps it small by merging batches.
#[derive(Clone, Copy, Debug, PartialEq, Eq)]
pub enum Kind {
    Writer,
    Reader,
    Keeper,
}

impl Kind {
    /// Whether a member of this kind writes.
    pub fn is_writer(self) -> bool
        ensures { result ≡ is_writer self }
    {
        match self {
            Kind::Writer => true,
            _ => false,
        }
    }

    /// Whether a member of this kind reads.
    pub fn is_reader(self) -> bool
        ensures { result ≡ is_reader self }
    {
        match self {
            Kind::Reader => true,
            _ => false,
        }
    }

    /// Whether a member of this kind merges batches.
    pub fn is_keeper(self) -> bool
        ensures { result ≡ is_keeper self }
    {
        match self {
            Kind::Keeper => true,
            _ => false,
        }
    }
}
