// Laws of a call of which it isn't known whether it took effect, each the contract of a function that does nothing.
ghost use Rattle.history_core.specs.TakenAfterAll.{AnyLastOutcome, StandsEitherWay, StandsInProgress, TakenAfterAll};

/// Whatever the outcome of its last call, a history is as lawful.
pub fn any_last_outcome()
    ensures { AnyLastOutcome }
{}

/// A call that failed and was lost may be one that took effect after all, where after it only such calls come.
pub fn taken_after_all()
    ensures { TakenAfterAll }
{}

/// The store before such a call stands for what is accepted without it, and the store after it for what is accepted with it.
pub fn stands_either_way()
    ensures in_progress { StandsInProgress }
    ensures failed { StandsEitherWay }
{}
