// Laws of what a reader follows by, each the contract of a function that does nothing.
ghost use Rattle.std.specs.Prelude.{◌≡◌, None, Option, ℕ};
ghost use Rattle.store_core.specs.declared.calls.Call.{Call};
ghost use Rattle.store_core.specs.declared.replies.Reply.{Reply};
ghost use Rattle.store_core.specs.Histories.{History};
ghost use Rattle.store_core.specs.Ports.{GainsWhereTold, GrowsByOthers};
ghost use Rattle.read_client.specs.declared.readers.Reader.{Reader};
ghost use Rattle.read_client.specs.Following.{FollowsWhere};

/// A reader follows also past calls of other clients.
pub fn follows_past_others()
    ensures { (client : ℕ) (front now : Option History) (r : Reader) → FollowsWhere client front r → GrowsByOthers client front now
        → FollowsWhere client now r }
{}

/// A reader with no open command follows also past any call of another machine of the same client.
pub fn follows_past_others_machines()
    ensures { (client : ℕ) (front now : Option History) (call : Call) (reply : Reply) (r : Reader) → r.asked ≡ None
        → FollowsWhere client front r → GainsWhereTold client front now call reply → FollowsWhere client now r }
{}
