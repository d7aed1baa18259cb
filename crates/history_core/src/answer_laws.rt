// Laws of what replies tell, each the contract of a function that does nothing.
ghost use Rattle.history_core.specs.Answers.{ContentGot, LaterGets, NewestShown, SliceGot, TokenSpentOnce};

/// A Scan that began at most one past the greatest number shown shows the last version.
pub fn newest_shown()
    ensures { NewestShown }
{}

/// What a client gets later from the parts of a state is what was there: with the content and the slices of the accepted list.
pub fn parts_got_later()
    ensures there { LaterGets }
    ensures content { ContentGot }
    ensures slice { SliceGot }
{}

/// Of an owned member that stands, its token was spent by exactly one entry, its owner's, and no later token by any.
pub fn token_spent_once()
    ensures { TokenSpentOnce }
{}
