// A worked history and what is shown of it, each the contract of a function that does nothing.
ghost use Rattle.std.specs.Prelude.{◌≡◌, ℕ, List, [], ◌∷◌, Some, None};
ghost use Rattle.store_core.specs.declared.calls.Call.TheVariants.{Cas, Get, Set};
ghost use Rattle.store_core.specs.declared.replies.Reply.TheVariants.{Bytes, Committed, Mismatch};
ghost use Rattle.store_core.specs.declared.outcomes.Outcome.{Outcome};
ghost use Rattle.store_core.specs.declared.outcomes.Outcome.TheVariants.{FailedTook, FailedLost};
ghost use Rattle.store_core.specs.Histories.{reply, store_after};
ghost use Rattle.state_core.specs.declared.transitions.Transition.TheVariants.{Init};
ghost use Rattle.version_codec.specs.Reading.{version_in};
ghost use Rattle.history_core.specs.Readings.{rows_in};
ghost use Rattle.history_core.specs.Discipline.{Lawful};
ghost use Rattle.history_core.specs.Stands.{StandsFor, accepted_of};
ghost use Rattle.worked_histories.specs.Worked.{the_shard, key, early_row, late_row, early_part, late_part, merged_part, state0};
ghost use Rattle.worked_histories.specs.Worked.{state1, state2, state3, state4, state5, state6, state7, state8, step1, step2};
ghost use Rattle.worked_histories.specs.Worked.{step3, step4, step5, step6, step7, step8, version0, version1, version2, version3};
ghost use Rattle.worked_histories.specs.Worked.{version4, version5, version6, version7, version8};
ghost use Rattle.worked_histories.specs.WorkedTrail.{did, worked, first_calls, first_calls_and};
ghost use Rattle.worked_histories.specs.WorkedCompacted.{undone_row, compacted};
ghost use Rattle.worked_histories.specs.WorkedFailures.{first_append, append_with, append_again, set_after_failure, too_late};
ghost use Rattle.worked_histories.specs.WorkedBroken.{with_part, with_dropped, set_other_bytes, set_after_cas, first_not_init};
ghost use Rattle.worked_histories.specs.WorkedBroken.{cas_unseen, cas_for_another, cas_misapplied, merge_dropping, append_unstored};
ghost use Rattle.worked_histories.specs.WorkedBroken.{append_out_of_range, append_falling, append_too_many, append_too_heavy};
ghost use Rattle.worked_histories.specs.WorkedBroken.{delete_untaken, delete_above_floor, truncate_past_floor};
ghost use Rattle.worked_histories.specs.WorkedBroken.{truncate_before_deletes};

/// Each worked version holds the state and the transition that it spells, and each worked part its rows.
pub fn worked_bytes()
    ensures version0_is { version_in the_shard 0 version0 ≡ Some (state0, Init) }
    ensures version1_is { version_in the_shard 1 version1 ≡ Some (state1, step1) }
    ensures version2_is { version_in the_shard 2 version2 ≡ Some (state2, step2) }
    ensures version3_is { version_in the_shard 3 version3 ≡ Some (state3, step3) }
    ensures version4_is { version_in the_shard 4 version4 ≡ Some (state4, step4) }
    ensures version5_is { version_in the_shard 5 version5 ≡ Some (state5, step5) }
    ensures version6_is { version_in the_shard 6 version6 ≡ Some (state6, step6) }
    ensures version7_is { version_in the_shard 7 version7 ≡ Some (state7, step7) }
    ensures version8_is { version_in the_shard 8 version8 ≡ Some (state8, step8) }
    ensures early { rows_in early_part ≡ Some (early_row ∷ []) }
    ensures late { rows_in late_part ≡ Some (late_row ∷ []) }
    ensures merged { rows_in merged_part ≡ Some (early_row ∷ late_row ∷ []) }
{}

/// Each call of the worked history, and of each prefix, is allowed to its client.
pub fn worked_is_lawful()
    ensures whole { Lawful worked }
    ensures prefixes { (n : ℕ) → Lawful (first_calls n) }
{}

/// The rows that the worked history appends: none before the first append, then one, then both.
pub fn worked_accepts()
    ensures before { accepted_of the_shard [] (first_calls 8) ≡ [] }
    ensures early { accepted_of the_shard [] (first_calls 9) ≡ early_row ∷ [] }
    ensures both { accepted_of the_shard [] (first_calls 11) ≡ early_row ∷ late_row ∷ [] }
    ensures whole { accepted_of the_shard [] worked ≡ early_row ∷ late_row ∷ [] }
{}

/// While the reader's hold stands the parts that the merge took are there. In the end there is the last version alone, and of the
/// parts the merged one alone.
pub fn worked_collects()
    ensures early_held { reply (store_after (first_calls 17)) (did 2 (Get (key 0 1))) ≡ Bytes (Some early_part) }
    ensures late_held { reply (store_after (first_calls 17)) (did 2 (Get (key 0 2))) ≡ Bytes (Some late_part) }
    ensures version { (store_after worked).logs the_shard ≡ record { first = 8; versions = version8 ∷ [] } }
    ensures early { (store_after worked).blobs (key 0 1) ≡ None }
    ensures late { (store_after worked).blobs (key 0 2) ≡ None }
    ensures merged { (store_after worked).blobs (key 1 1) ≡ Some merged_part }
{}

/// After each call of the worked history the store stands for the rows appended by then: in the end for both, and not for the
/// first alone.
pub fn worked_stands_for()
    ensures after_each { (n : ℕ) → StandsFor (store_after (first_calls n)) the_shard (accepted_of the_shard [] (first_calls n)) }
    ensures both { StandsFor (store_after worked) the_shard (early_row ∷ late_row ∷ []) }
    ensures no_less { StandsFor (store_after worked) the_shard (early_row ∷ []) → ⊥ }
{}

/// An append that fails counts where it took effect, and one that is tried again counts once.
pub fn worked_failures()
    ensures lawful { (outcome : Outcome) → Lawful (append_with outcome) }
    ensures lawful_again { (outcome : Outcome) → Lawful (append_again outcome) }
    ensures took { accepted_of the_shard [] (append_with FailedTook) ≡ early_row ∷ [] }
    ensures lost { accepted_of the_shard [] (append_with FailedLost) ≡ [] }
    ensures took_again { accepted_of the_shard [] (append_again FailedTook) ≡ early_row ∷ [] }
    ensures lost_again { accepted_of the_shard [] (append_again FailedLost) ≡ early_row ∷ [] }
    ensures took_reply { reply (store_after (append_with FailedTook)) (did 0 first_append) ≡ Mismatch }
    ensures lost_reply { reply (store_after (append_with FailedLost)) (did 0 first_append) ≡ Committed 4 }
{}

/// A Cas that comes too late is allowed, is a mismatch, and changes nothing.
pub fn worked_too_late()
    ensures lawful { Lawful too_late }
    ensures reply { reply (store_after (first_calls 9)) (did 1 (Cas the_shard (Some 2) version3)) ≡ Mismatch }
    ensures accepted { accepted_of the_shard [] too_late ≡ early_row ∷ [] }
{}

/// A merge that moves both rows to a later since comes to nothing where one undoes the other, and both stay accepted.
pub fn worked_compaction()
    ensures lawful { Lawful compacted }
    ensures accepted { accepted_of the_shard [] compacted ≡ early_row ∷ undone_row ∷ [] }
    ensures stands { StandsFor (store_after compacted) the_shard (early_row ∷ undone_row ∷ []) }
{}

/// Each broken history is lawful before its last call: it is a prefix of the worked history there, or one with another Set. A key
/// may be set again to the bytes that it has.
pub fn broken_starts()
    ensures with_part { (part : List ℕ) → Lawful (with_part part) }
    ensures with_dropped { Lawful with_dropped }
    ensures same_again { Lawful (first_calls_and 8 0 (Set (key 0 1) early_part)) }
{}

/// Sets that aren't allowed: of other bytes than those that the key has, and after the writer's own append under the key's token,
/// whether it was committed or failed.
pub fn broken_sets()
    ensures other_bytes { Lawful set_other_bytes → ⊥ }
    ensures after_cas { Lawful set_after_cas → ⊥ }
    ensures after_failure { Lawful set_after_failure → ⊥ }
{}

/// A first version isn't allowed that isn't the first state.
pub fn broken_first_version()
    ensures { Lawful first_not_init → ⊥ }
{}

/// Commits that aren't allowed: at a version never seen, for a member of somebody else, of a state that the transition doesn't
/// make, and of a merge that loses a row.
pub fn broken_commits()
    ensures unseen { Lawful cas_unseen → ⊥ }
    ensures another { Lawful cas_for_another → ⊥ }
    ensures misapplied { Lawful cas_misapplied → ⊥ }
    ensures dropping { Lawful merge_dropping → ⊥ }
{}

/// Appends that aren't allowed: of a part never stored, of rows out of the range, of bytes that are no part since their rows
/// fall, of more rows than the append says, and of more weight.
pub fn broken_appends()
    ensures unstored { Lawful append_unstored → ⊥ }
    ensures out_of_range { Lawful append_out_of_range → ⊥ }
    ensures falling { Lawful append_falling → ⊥ }
    ensures too_many { Lawful append_too_many → ⊥ }
    ensures too_heavy { Lawful append_too_heavy → ⊥ }
{}

/// Deletes and Truncates that aren't allowed: of a key that no version took, of a key taken above the floor, past the floor,
/// and before the Deletes.
pub fn broken_collections()
    ensures untaken { Lawful delete_untaken → ⊥ }
    ensures above_floor { Lawful delete_above_floor → ⊥ }
    ensures past_floor { Lawful truncate_past_floor → ⊥ }
    ensures before_deletes { Lawful truncate_before_deletes → ⊥ }
{}
