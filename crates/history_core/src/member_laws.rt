// Laws of a client's own members, each the contract of a function that does nothing.
ghost use Rattle.history_core.specs.Members.{OwnKindStays, OwnMemberStands, OwnStateThere};

/// A member that a client joined as a writer and never asked to leave stands in the last state, as a writer.
pub fn own_member_stands()
    ensures { OwnMemberStands }
{}

/// Where a member that a client joined stands in the last state, it has the kind of its Join.
pub fn own_kind_stays()
    ensures { OwnKindStays }
{}

/// Where a client joined a member there is a last state.
pub fn own_state_there()
    ensures { OwnStateThere }
{}
