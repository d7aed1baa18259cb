// Laws of versions, each the contract of a function that does nothing.
ghost use Rattle.std.specs.Prelude.{◌≡◌, ℕ, ◌<◌, List, Some, slice_index_or};
ghost use Rattle.state_core.specs.States.{ShardState, IsState};
ghost use Rattle.version_codec.specs.Versions.{VersionOf};
ghost use Rattle.version_codec.specs.Reading.{version_in};
ghost use Rattle.state_core.specs.declared.transitions.Transition.{Transition};
ghost use Rattle.store_core.specs.declared.shards.ShardId.{ShardId};

/// The same bytes are the version of one state and one transition alone, at a shard and a number.
pub fn one_version()
    ensures { (s t : ShardState) (x y : Transition) (b : List ℕ) → s.shard ≡ t.shard → s.number ≡ t.number → VersionOf s x b → VersionOf t y b → (s ≡ t) × (x ≡ y) }
{}

/// What is read keeps the rules of a state of this shard and number; it is what the bytes spell, and nothing else is.
pub fn version_reading()
    ensures state { (shard : ShardId) (n : ℕ) (b : List ℕ) (s : ShardState) (x : Transition) → version_in shard n b ≡ Some (s, x) → IsState s }
    ensures shard { (shard : ShardId) (n : ℕ) (b : List ℕ) (s : ShardState) (x : Transition) → version_in shard n b ≡ Some (s, x) → s.shard ≡ shard }
    ensures number { (shard : ShardId) (n : ℕ) (b : List ℕ) (s : ShardState) (x : Transition) → version_in shard n b ≡ Some (s, x) → s.number ≡ n }
    ensures read { (s : ShardState) (x : Transition) (b : List ℕ) → VersionOf s x b → version_in s.shard s.number b ≡ Some (s, x) }
    ensures spelled { (shard : ShardId) (n : ℕ) (b : List ℕ) (s : ShardState) (x : Transition) → ((i : ℕ) → slice_index_or b i 0 < 256) → version_in shard n b ≡ Some (s, x) → VersionOf s x b }
{}
