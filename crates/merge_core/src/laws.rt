// Laws of drafts, each the contract of a function that does nothing.
ghost use Rattle.merge_core.specs.Drafting.{DraftHolds, DraftIsShaped};

/// Once the parts of a draft are stored by the client that got its rows, they hold what a merge's parts must.
pub fn draft_holds()
    ensures { DraftHolds }
{}

/// No state from the one on that named the pair, whose since was the draft's, refuses the draft for its shape.
pub fn draft_is_shaped()
    ensures { DraftIsShaped }
{}
