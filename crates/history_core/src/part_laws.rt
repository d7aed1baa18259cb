// Laws of what the parts of a version hold, each the contract of a function that does nothing.
ghost use Rattle.std.specs.Prelude.{◌≡◌, ◌≤◌, ◌<◌, ℕ, true, List, Some};
ghost use Rattle.update_core.specs.declared.updates.Update.{Update};
ghost use Rattle.update_core.specs.Frontiers.{covers};
ghost use Rattle.update_core.specs.Updates.{sum_of, slice_of};
ghost use Rattle.store_core.specs.declared.shards.ShardId.{ShardId};
ghost use Rattle.store_core.specs.Stores.{Stored};
ghost use Rattle.state_core.specs.States.{ShardState, floor, keys_of};
ghost use Rattle.history_core.specs.Stands.{Collection, StateAt, PartRows};
ghost use Rattle.history_core.specs.Questions.{begun_by, ending_past};

/// At a time from a version's since on that its upper covers, the parts of its batches that begin there or before have the
/// content of the list.
pub fn content_of_parts()
    ensures { (store : Stored) (shard : ShardId) (list : List Update) (c : Collection store shard list) (n : ℕ) (s : ShardState)
        → floor c.last ≤ n → StateAt store shard n s → (t : ℕ) → s.since ≤ t → covers s.upper t ≡ true
        → (rows : List Update) → PartRows store (keys_of (begun_by t s.batches)) rows → sum_of rows t ≡ sum_of list t }
{}

/// From a time past a version's since on, the parts of its batches that end past it have the slice of the list up to its
/// upper.
pub fn slice_of_parts()
    ensures { (store : Stored) (shard : ShardId) (list : List Update) (c : Collection store shard list) (n : ℕ) (s : ShardState)
        → floor c.last ≤ n → StateAt store shard n s → (f : ℕ) → s.since < f
        → (rows : List Update) → PartRows store (keys_of (ending_past (Some f) s.batches)) rows
        → slice_of rows (Some f) s.upper ≡ slice_of list (Some f) s.upper }
{}
