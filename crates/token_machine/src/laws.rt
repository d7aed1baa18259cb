// Laws of parts that are stored under a token, each the contract of a function that does nothing.
ghost use Rattle.std.specs.Prelude.{◌≡◌, ◌∷◌, ◌++◌, ◌+◌, ◌<◌, ◌≤◌, IsSome, List, Some, ℕ};
ghost use Rattle.std.specs.List.{AllByRecursion};
ghost use Rattle.update_core.specs.declared.updates.Update.{Update};
ghost use Rattle.store_core.specs.declared.calls.Call.{Call};
ghost use Rattle.store_core.specs.declared.entries.Entry.{Entry};
ghost use Rattle.store_core.specs.declared.replies.Reply.{Reply};
ghost use Rattle.store_core.specs.Newest.{mine_back};
ghost use Rattle.store_core.specs.Ports.{Answered, OfOthers};
ghost use Rattle.store_core.specs.Stores.{Stored};
ghost use Rattle.spine_core.specs.declared.batches.Batch.{Batch};
ghost use Rattle.state_core.specs.declared.kinds.Kind.{Kind};
ghost use Rattle.state_core.specs.declared.transitions.Transition.{Transition};
ghost use Rattle.state_core.specs.declared.transitions.Transition.TheVariants.{Merge};
ghost use Rattle.state_core.specs.Lists.{Among};
ghost use Rattle.state_core.specs.Steps.{AreKeys};
ghost use Rattle.update_core.specs.Limits.{most};
ghost use Rattle.history_core.specs.Discipline.{Allows, Holds, Owns};
ghost use Rattle.history_core.specs.Placing.{places};
ghost use Rattle.history_core.specs.Upkeep.{MergedAs};
ghost use Rattle.load_core.specs.declared.settings.Setting.{Setting};
ghost use Rattle.load_core.specs.declared.tries.Tried.{Tried};
ghost use Rattle.load_core.specs.Costing.{CostAfter, CostEnded, CostKept, IsPrepared};
ghost use Rattle.load_core.specs.Following.{FollowsTrying};
ghost use Rattle.load_core.specs.PartsFollowing.{IsSettable};
ghost use Rattle.load_core.specs.Runs.{AllCarry, IsNotIn};
ghost use Rattle.load_core.specs.Setting as setting;
ghost use Rattle.token_machine.specs.declared.storings.Storing.{Storing};
ghost use Rattle.token_machine.specs.Following.{CommitsLast, FollowsStoring, IsAfter, UsesToken};
ghost use Rattle.token_machine.specs.Legality.{LegalStored, StoredEffect, StoresAt, StoringMoves, command_entries};
ghost use Rattle.token_machine.specs.Outcomes.{IsInAs, stored};
ghost use Rattle.token_machine.specs.Storings.{IsSound, Moves, call_of, resumed};

/// Over a lawful history each outcome means what it says, for a member of every kind and each transition that spends its token: where
/// it is in, by this call or an earlier one that failed, exactly one entry of the command has committed, by it, as the version that is
/// told; where it is refused, and not for its token, none has; and it is never strange.
pub fn storings_are_legal()
    ensures { (kind : Kind) (member token : ℕ) (s new : Storing) (client : ℕ) (list : List Update) (start : Stored) (e : Entry) (others es : List Entry)
        → StoresAt kind member token s client list start e others es → (tried : Tried) → StoringMoves s start e (others ++ es) new tried
        → LegalStored client member token s new start e (others ++ es) (stored new.trying token tried) }
{}

/// So a merge that is in, now or before, may be answered as merged with the version that is told.
pub fn merges_are_in()
    ensures { (kind : Kind) (member token : ℕ) (s new : Storing) (client : ℕ) (list : List Update) (start : Stored) (e : Entry) (others es : List Entry)
        → StoresAt kind member token s client list start e others es → (left right merged : Batch) → s.trying.step ≡ Merge member token left right merged
        → (tried : Tried) → StoringMoves s start e (others ++ es) new tried → s.trying.calls < most → (version : ℕ)
        → IsInAs (stored new.trying token tried) version
        → Among (MergedAs start s.trying.loader.shard member token version) (command_entries client s e (others ++ es)) }
{}

/// The next call is one that the client may make, where a part that is left may be set, and where once all are set what the
/// transition asks of them holds.
pub fn storing_calls_are_allowed()
    ensures { (s : Storing) (call : Call) (own : List Answered) (member token : ℕ) → IsSound s → call_of s ≡ Some call → FollowsTrying s.trying own
        → (setting.IsOpen s.setting → IsSettable own s.trying.loader.shard member token s.setting) → (setting.IsDone s.setting → Holds own s.trying.step)
        → Allows own call }
{}

/// Parts and a transition under a token that wasn't used follow where they begin, also in the middle of a command whose calls before
/// were no Cas; after each reply but that of the commit; and past entries of others.
pub fn storings_follow()
    ensures begun { (client member token : ℕ) (s : Storing) (start : Stored) (es : List Entry) → Owns (mine_back start es client) s.trying.loader.shard member
        → AreKeys s.trying.loader.shard member token 0 s.setting.keys → s.setting.place ≡ 0
        → (¬ Among (λ o. UsesToken s.trying.loader.shard member token o.entry.call) (mine_back start es client))
        → (s.trying.calls < most → AllCarry s.trying client es)
        → (s.trying.calls < most → AllByRecursion (λ p. IsAfter p.entry.call) (places client s.trying.calls es))
        → (s.trying.calls < most → AllByRecursion (CommitsLast start s.trying.loader.shard s.trying.next s.trying.tried) (places client s.trying.calls es))
        → FollowsStoring client member token s start es }
    ensures moved { (kind : Kind) (member token : ℕ) (s new : Storing) (client : ℕ) (list : List Update) (start : Stored) (e : Entry) (others es : List Entry)
        → StoresAt kind member token s client list start e others es → (tried : Tried) → IsNotIn tried → StoringMoves s start e (others ++ es) new tried
        → FollowsStoring client member token new start (e ∷ (others ++ es)) }
    ensures others { (client member token : ℕ) (s : Storing) (start : Stored) (others es : List Entry) → OfOthers client others
        → FollowsStoring client member token s start es → FollowsStoring client member token s start (others ++ es) }
{}

/// Each reply keeps the bound: a base, one for each part that is set, and two for each failed call and each commit of others. A
/// transition that takes another's place in the same command adds three to the base.
pub fn storing_costs_are_kept()
    ensures moved { (kind : Kind) (member token : ℕ) (s new : Storing) (client : ℕ) (list : List Update) (start : Stored) (e : Entry) (others es : List Entry)
        → StoresAt kind member token s client list start e others es → (base : ℕ) → (s.trying.calls ≡ 0 → 3 ≤ base) → IsPrepared s.trying.next
        → (s.trying.calls < most → CostKept (base + s.setting.place) client s.trying start es)
        → (tried : Tried) → StoringMoves s start e (others ++ es) new tried → new.trying.calls < most
        → CostAfter tried (base + new.setting.place) client new.trying start (e ∷ (others ++ es)) }
    ensures resumed { (base client : ℕ) (s : Storing) (x : Transition) (parts : Setting) (start : Stored) (es : List Entry)
        → CostEnded base client s.trying start es → CostKept (base + 3) client (resumed s x parts).trying start es }
{}

/// What a call has committed, by what its reply comes to: the transition, the shard's first version while the command goes on, or
/// nothing, unless it failed; and a command that isn't in now ends by what a Scan has just shown.
pub fn storings_have_effects()
    ensures { (s new : Storing) (token : ℕ) (call : Call) (r : Reply) (tried : Tried) → IsSound s → call_of s ≡ Some call → Moves s r new tried
        → StoredEffect s.trying.loader.shard s.trying.step call r (stored new.trying token tried) }
{}
