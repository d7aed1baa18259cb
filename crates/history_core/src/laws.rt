// Laws of histories, each the contract of a function that does nothing.
ghost use Rattle.std.specs.Prelude.{◌≡◌, ◌↔◌, ◌+◌, ◌++◌, ◌∷◌, false, true, List, Option, Some, ℕ};
ghost use Rattle.part_codec.specs.Parts.{Part};
ghost use Rattle.history_core.specs.Readings.{rows_in};
ghost use Rattle.byte_core.specs.ByteLists.{are_bytes};
ghost use Rattle.store_core.specs.declared.entries.Entry.{Entry};
ghost use Rattle.store_core.specs.declared.shards.ShardId.{ShardId};
ghost use Rattle.store_core.specs.Stores.{Stored};
ghost use Rattle.store_core.specs.Histories.{faults_of};
ghost use Rattle.store_core.specs.Ports.{OfOthers};
ghost use Rattle.history_core.specs.Costs.{commits_among, failed_calls, foreign_commits};
ghost use Rattle.history_core.specs.Placing.{placed, places};
ghost use Rattle.std.specs.Ordering.{is_gt};
ghost use Rattle.update_core.specs.declared.updates.Update.{Update};
ghost use Rattle.update_core.specs.Frontiers.{frontier_cmp};
ghost use Rattle.update_core.specs.Updates.{OutOf, slice_of};
ghost use Rattle.history_core.specs.AnswerLaws.{AcceptedGrows, AppendsAccepted, CommittedOnce, MemberNew, OneAppendAnswer, OneReadAnswer, RowsGot, StepGot, StepsJoin};
ghost use Rattle.history_core.specs.Answers.{NewestShown};
ghost use Rattle.history_core.specs.Laws.{LawfulStandsFor, LeasedPresent, LeasedUnchanged, LawfulPrefix, FloorNeverFalls};

/// Rows are read from bytes exactly where each number is that of a byte and the bytes are the part with these rows.
pub fn rows_in_part()
    ensures { (rows : List Update) (bytes : List ℕ) → (rows_in bytes ≡ Some rows) ↔ ((are_bytes bytes ≡ true) × Part rows bytes) }
{}

/// From a store that stands for a list, each lawful history leads to a store that stands for the accepted list.
pub fn lawful_stands_for()
    ensures { LawfulStandsFor }
{}

/// No leased part is missing, and none changes.
pub fn leased_present()
    ensures present { LeasedPresent }
    ensures unchanged { LeasedUnchanged }
{}

/// A prefix of a lawful history is lawful.
pub fn lawful_prefix()
    ensures { LawfulPrefix }
{}

/// The floor of a shard's last state never falls along a lawful history.
pub fn floor_never_falls()
    ensures { FloorNeverFalls }
{}

/// What legal answers rest on: a Scan that reaches past what was shown shows the last version; a command's token at its owned
/// member tells that exactly one Cas of the command committed; and what is got later of a version's parts is what the plain
/// collection answers at it.
pub fn answers_legal()
    ensures newest { NewestShown }
    ensures once { CommittedOnce }
    ensures rows { RowsGot }
    ensures step { StepGot }
{}

/// A slice up to g and, when more has come past g, one from g on are one slice: so the steps of a listen are one slice.
pub fn slices_join()
    ensures { (us more : List Update) (f g h : Option ℕ) → is_gt (frontier_cmp f g) ≡ false → is_gt (frontier_cmp g h) ≡ false → OutOf g more
        → slice_of us f g ++ slice_of (us ++ more) g h ≡ slice_of (us ++ more) f h }
{}

/// What is accepted later lies past the upper, and so the steps of one listen, one after the other, are one slice of the
/// accepted list.
pub fn steps_join()
    ensures grows { AcceptedGrows }
    ensures joined { StepsJoin }
{}

/// An append that commits is one that the plain collection accepts at its place, which then has its rows, consolidated.
pub fn appends_accepted()
    ensures { AppendsAccepted }
{}

/// A member that joins was nobody's before.
pub fn member_new()
    ensures { MemberNew }
{}

/// No two answers to an append are legal over one history, and no two to a snapshot or to a step of a listen.
pub fn one_answer()
    ensures append { OneAppendAnswer }
    ensures read { OneReadAnswer }
{}

/// What a client's next call, which entries of others may precede, adds to its command: its own entry, a failure where it
/// failed and, but for the first call, the commits of others since the call before.
pub fn one_more_call()
    ensures entries { (client n : ℕ) (e : Entry) (others es : List Entry) → e.client ≡ client → OfOthers client others
        → places client (n + 1) (e ∷ (others ++ es)) ≡ placed e (others ++ es) ∷ places client n es }
    ensures failed { (client n : ℕ) (e : Entry) (others es : List Entry) → e.client ≡ client → OfOthers client others
        → failed_calls client (n + 1) (e ∷ (others ++ es)) ≡ faults_of e.outcome + failed_calls client n es }
    ensures first { (start : Stored) (shard : ShardId) (client : ℕ) (e : Entry) (others es : List Entry) → e.client ≡ client
        → foreign_commits start shard client 1 (e ∷ (others ++ es)) ≡ 0 }
    ensures foreign { (start : Stored) (shard : ShardId) (client n : ℕ) (e : Entry) (others es : List Entry) → e.client ≡ client → OfOthers client others
        → foreign_commits start shard client (n + 2) (e ∷ (others ++ es)) ≡ commits_among start shard others es + foreign_commits start shard client (n + 1) es }
{}
