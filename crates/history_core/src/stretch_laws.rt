// Laws of a stretch of later entries and of what is there after a lawful history, each the contract of a function that does nothing.
ghost use Rattle.history_core.specs.StretchLaws.{EmptyOrLast, HoldStays, LastIsOne, MissingIsGone, OneMoreBack, OneMoreLawful, QuietStays, StepRowsStand};

/// While its owner makes no Cas, a member's hold doesn't rise above the number that was the last one at the beginning.
pub fn hold_stays()
    ensures { HoldStays }
{}

/// Where meanwhile a key that the state at the beginning names was absent, the member stands no more as a reader or keeper.
pub fn missing_is_gone()
    ensures { MissingIsGone }
{}

/// Entries that commit no version of a shard leave its last version and the accepted list as they were.
pub fn quiet_stays()
    ensures { QuietStays }
{}

/// One more call that its client's own entries allow keeps a history lawful.
pub fn one_more_lawful()
    ensures oldest_first { OneMoreLawful }
    ensures newest_first { OneMoreBack }
{}

/// The number and the state of a shard's last version are one.
pub fn last_is_one()
    ensures { LastIsOne }
{}

/// After a lawful history a shard has no version and nothing is accepted, or it has a last version with a state of its own.
pub fn empty_or_last()
    ensures { EmptyOrLast }
{}

/// Each row of a step that the collection gives a listen stands among the updates that were got of its parts.
pub fn step_rows_stand()
    ensures { StepRowsStand }
{}
