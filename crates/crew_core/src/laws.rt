// Laws of what workers do together, each the contract of a function that does nothing. docs/DEFINITIONS.md, "Crews".
ghost use Rattle.crew_core.specs.Competing.{CompetingAppends, MergesLeave, ReadersStay, StorersCommitAccepted, WorkersLawful};
ghost use Rattle.crew_core.specs.Completing.{BoundStays, CompleteFromEmpty, CompleteIsPlain};
ghost use Rattle.crew_core.specs.Hearing.{HeardStays, HearsOn};
ghost use Rattle.crew_core.specs.KeepingOn.{KeptPastACall, KeptPastOthers, KeptTwice};
ghost use Rattle.crew_core.specs.Working.{JoinsSince};

/// What a client keeps as a worker it goes on keeping: past entries of others; over two stretches of its front, one after the other;
/// and past a call of its own. Supposes of that call that its entry is a worker's where what came before it is lawful and the start
/// stands for a list; nothing of what others call. (docs/DEFINITIONS.md, "Crews".)
pub fn keeping_goes_on()
    ensures others { KeptPastOthers }
    ensures twice { KeptTwice }
    ensures call { KeptPastACall }
{}

/// What workers have added to a lawful history leaves it lawful. Supposes that the start stands for a list, that the history was
/// lawful, and that each entry since is of a client that kept what a worker in its role keeps; nothing of the appends, of an order among
/// the clients, or of which of their calls failed. (docs/DEFINITIONS.md, "Crews".)
pub fn workers_lawful()
    ensures { WorkersLawful }
{}

/// And the collection afterwards is the one before, followed by the rows of the first few of the feed's appends from its upper on; its
/// upper and weight are theirs, its since stays. Supposes what `workers_lawful` does, so that nothing but joins and leaves of writers and
/// keepers, joins and leaves of readers that joined since, renewals, merges and these appends was committed; that a writer's appends are
/// these; that there was a collection before; and that the appends follow on from 0, each ending later than it begins. Nothing of their
/// rows or weights. (docs/DEFINITIONS.md, "Crews".)
pub fn competing_appends()
    ensures { CompetingAppends }
{}

/// And a reader that stood before stands afterwards, with the same since. Supposes what `workers_lawful` does, and so of a follower that it
/// leaves no member but one that it joined since; nothing of whose member the reader is. (docs/DEFINITIONS.md, "Crews".)
pub fn readers_stay()
    ensures { ReadersStay }
{}

/// A commit of one of these appends by the client that stored its parts is accepted with the append's rows, also where its answer was
/// lost. Supposes that the start stands for a list and that the history is lawful up to and with this entry; nothing of the appends,
/// and of other clients' entries no more than that they are lawful. (docs/DEFINITIONS.md, "Crews".)
pub fn storers_commit_accepted()
    ensures { StorersCommitAccepted }
{}

/// An entry that commits a merge leaves the accepted updates and the collection as they are, also where its answer was lost. Supposes that
/// the start stands for a list and that the history is lawful up to and with this entry. (docs/DEFINITIONS.md, "Crews".)
pub fn merges_leave()
    ensures { MergesLeave }
{}

/// Where the upper has come to the feed's end, the collection is the one that one writer alone makes, append by append. Supposes that
/// the appends follow on from 0, that the collection grew by the first few of them from its upper on, and that the weights fit: the
/// first collection's and those of the appends from its upper on sum to no more than 2^62. From the empty collection they do where
/// the appends make a feed. (docs/DEFINITIONS.md, "Crews".)
pub fn complete_is_plain()
    ensures any { CompleteIsPlain }
    ensures empty { CompleteFromEmpty }
{}

/// An upper at which an append begins, or at which all end, stays one. Supposes that the appends follow on from 0 and that the
/// collection grew by the first few of them from its upper on. (docs/DEFINITIONS.md, "Crews".)
pub fn bound_stays()
    ensures { BoundStays }
{}

/// What a listen has heard, the slice of the accepted updates from its start to its frontier at some place, it has heard also later; and a
/// step from that frontier, answered at the end of a longer history, makes it the slice up to the upper there. Supposes of the second that
/// the start stands for a list and that the history is lawful; nothing of who listens or appends. (docs/DEFINITIONS.md, "Crews".)
pub fn hearing_goes_on()
    ensures stays { HeardStays }
    ensures on { HearsOn }
{}

/// The member that an open of a reader is answered is one that its client joined since the crew began, so that it may leave it. Supposes that
/// the answer is legal and that the open's calls were made since. (docs/DEFINITIONS.md, "Crews".)
pub fn readers_join_since()
    ensures { JoinsSince }
{}
