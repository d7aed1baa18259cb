// Laws of what an operator knows, each the contract of a function that does nothing. See docs/DEFINITIONS.md, "Operators".
ghost use Rattle.machine_core.specs.Machines.{Keeps};
ghost use Rattle.reclock_client.specs.Looking.{machine};
ghost use Rattle.reclock_client.specs.Known.{CollectionsAgree, ContentIsKnown, KnownStays, MintFits, MintRaises, MintRaisesSums, StepIsKnown};
ghost use Rattle.reclock_client.specs.Damages.{ForeignCauses, NeverDamaged};
ghost use Rattle.reclock_client.specs.Knowing.{KnowsOn, OperatorsAgree};
ghost use Rattle.reclock_client.specs.Proposals.{DataAppends, DataCalls, RemapAppends, RemapCalls};

/// After a content of the remap shard of which no row is foreign, the bindings are those of its updates.
pub fn content_is_known()
    ensures { ContentIsKnown }
{}

/// And after each step of the listen.
pub fn step_is_known()
    ensures { StepIsKnown }
{}

/// And while more is accepted past the synced frontier.
pub fn known_stays()
    ensures { KnownStays }
{}

/// What an operator knows over a history it knows over the history with more entries, whoever makes them.
pub fn knowing_goes_on()
    ensures { KnowsOn }
{}

/// Two operators of one remap shard: over a lawful history of a collection, the collections of equal rows have equal sums at each time
/// from both sinces on that both synced frontiers cover.
pub fn operators_agree()
    ensures { OperatorsAgree }
{}

/// Over a lawful history of a collection for both shards no poll of an operator is Damaged.
pub fn never_damaged()
    ensures { NeverDamaged }
{}

/// Over a lawful history of a collection for the remap shard a Foreign answer has its cause among the updates that the shard has accepted.
pub fn foreign_causes()
    ensures { ForeignCauses }
{}

/// Where two operators know one list of updates, it is the same: their collections of equal rows have equal sums at each time that both know.
pub fn collections_agree()
    ensures { CollectionsAgree }
{}

/// The rows of a mint raise each partition to the greater of what was reached and what was seen.
pub fn mint_raises()
    ensures { MintRaises }
{}

/// So where all that the remap shard has accepted comes before the synced upper, a mint from there on makes each partition's sum the greater
/// of the sum before and the offset seen.
pub fn mint_raises_sums()
    ensures { MintRaisesSums }
{}

/// Where a token is left, the append of a mint from an upper at or below its time is refused for no other reason of its own: its range
/// isn't empty, its rows are few enough, and each is in the range.
pub fn mint_fits()
    ensures { MintFits }
{}

/// Whatever an operator's writer of the remap shard tries to append is a mint's: it runs from an upper that isn't above the mint's time
/// up to just after that time, and its rows are those that raise each partition to the greater of what is known and what was seen.
pub fn remap_appends()
    ensures { RemapAppends }
{}

/// Whatever its writer of the data shard tries to append is a publish's: it runs from an upper below the synced frontier up to that one,
/// and its rows are those between them that the known bindings give.
pub fn data_appends()
    ensures { DataAppends }
{}

/// So each append that a poll of the remap shard's writer commits is a mint's.
pub fn remap_calls()
    ensures { RemapCalls }
{}

/// And each that a poll of the data shard's writer commits is a publish's.
pub fn data_calls()
    ensures { DataCalls }
{}

/// A look at a shard's upper is a machine of which all holds that a poll asks for: it may make its calls, and its answer is the upper
/// that its last Scan shows.
pub fn a_look_keeps()
    ensures { Keeps machine }
{}
