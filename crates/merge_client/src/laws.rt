// Laws of what a compactor follows by, each the contract of a function that does nothing.
ghost use Rattle.std.specs.Prelude.{◌≡◌, None, Option, ℕ};
ghost use Rattle.store_core.specs.declared.shards.ShardId.{ShardId};
ghost use Rattle.store_core.specs.Histories.{History};
ghost use Rattle.store_core.specs.Ports.{GrowsByOthers};
ghost use Rattle.state_core.specs.declared.transitions.Transition.TheVariants.{Leave, Renew};
ghost use Rattle.history_core.specs.declared.asked.Asked.TheVariants as asks;
ghost use Rattle.merge_client.specs.declared.compactors.Compactor.{Compactor};
ghost use Rattle.merge_client.specs.Beginning.{Changing, Merging};
ghost use Rattle.merge_client.specs.Following.{FollowsWhere};
ghost use Rattle.merge_client.specs.Merging.{opened};

/// A compactor follows where its open begins, over every front; and where it followed, once it has begun another command.
pub fn beginnings_follow()
    ensures opened { (client : ℕ) (front : Option History) (shard : ShardId) (now lease : ℕ) → FollowsWhere client front (opened shard now lease) }
    ensures merges { (client : ℕ) (front : Option History) (old new : Compactor) → Merging old new → FollowsWhere client front old
        → FollowsWhere client front new }
    ensures renews { (client now : ℕ) (front : Option History) (old new : Compactor) → old.asked ≡ None
        → Changing old (asks.RenewCompactor now) (λ member. Renew member now) new → FollowsWhere client front old → FollowsWhere client front new }
    ensures closes { (client : ℕ) (front : Option History) (old new : Compactor) → old.asked ≡ None
        → Changing old asks.CloseCompactor (λ member. Leave member) new → FollowsWhere client front old → FollowsWhere client front new }
{}

/// A compactor follows also past calls of other clients.
pub fn follows_past_others()
    ensures { (client : ℕ) (front now : Option History) (c : Compactor) → FollowsWhere client front c → GrowsByOthers client front now
        → FollowsWhere client now c }
{}
