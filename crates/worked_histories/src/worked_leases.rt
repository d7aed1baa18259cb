// Two worked histories in which a merge takes parts that a reader holds: in one it reads on while collectors work, in the other its
// lease runs out. What is shown of them is the contract of functions that do nothing.
ghost use Rattle.std.specs.Prelude.{◌≡◌, Some, None, [], ◌∷◌};
ghost use Rattle.store_core.specs.declared.calls.Call.TheVariants.{Get};
ghost use Rattle.store_core.specs.declared.replies.Reply.TheVariants.{Bytes};
ghost use Rattle.store_core.specs.Histories.{reply, store_after};
ghost use Rattle.version_codec.specs.Reading.{version_in};
ghost use Rattle.history_core.specs.declared.collect_answers.CollectAnswer.TheVariants.{Collected};
ghost use Rattle.history_core.specs.declared.read_answers.ReadAnswer.TheVariants.{Rows, Expired};
ghost use Rattle.history_core.specs.Discipline.{Lawful};
ghost use Rattle.history_core.specs.Legal.{LegalRead};
ghost use Rattle.history_core.specs.Stands.{StandsFor};
ghost use Rattle.history_core.specs.Upkeep.{LegalCollect};
ghost use Rattle.worked_histories.specs.Worked.{the_shard, key, early_row, late_row, merged_part};
ghost use Rattle.worked_histories.specs.WorkedTrail.{did};
ghost use Rattle.worked_histories.specs.WorkedAnswers.{row_of};
ghost use Rattle.worked_histories.specs.WorkedLeases.{renewed_state, renewing, renewed_version, kept_state, keeping, kept_version};
ghost use Rattle.worked_histories.specs.WorkedLeases.{expired_state, expiring, expired_version, of_entries, read_late, halfway};
ghost use Rattle.worked_histories.specs.WorkedLeases.{collected_after, read_again, expired, told_expired, snapshot_by};
ghost use Rattle.worked_histories.specs.WorkedLeases.{the_other_collection};

/// The further versions hold the states and the transitions that they spell.
pub fn leased_bytes()
    ensures renewed { version_in the_shard 7 renewed_version ≡ Some (renewed_state, renewing) }
    ensures kept { version_in the_shard 7 kept_version ≡ Some (kept_state, keeping) }
    ensures expired { version_in the_shard 8 expired_version ≡ Some (expired_state, expiring) }
{}

/// A reader that scanned before a merge reads the parts that the merge took. It renews its lease, a collector stops after one
/// Delete, and another collects all: the store still stands for both rows, and the reader's next snapshot has them.
pub fn reader_reads_on()
    ensures lawful { Lawful (of_entries read_again) }
    ensures first { LegalRead [] (of_entries read_late) (snapshot_by 3) (Rows (row_of 97 ∷ row_of 98 ∷ [])) }
    ensures halfway { StandsFor (store_after (of_entries halfway)) the_shard (early_row ∷ late_row ∷ []) }
    ensures collected { LegalCollect (of_entries collected_after) the_other_collection (Collected 6 2) }
    ensures gone { (store_after (of_entries collected_after)).blobs (key 0 2) ≡ None }
    ensures there { reply (store_after (of_entries collected_after)) (did 2 (Get (key 1 1))) ≡ Bytes (Some merged_part) }
    ensures again { LegalRead [] (of_entries read_again) (snapshot_by 2) (Rows (row_of 97 ∷ row_of 98 ∷ [])) }
{}

/// A reader whose lease runs out is removed, and the parts that it was to read are deleted. It finds one gone and is told that it
/// has expired; the store still stands for both rows.
pub fn reader_is_told()
    ensures lawful { Lawful (of_entries told_expired) }
    ensures stands { StandsFor (store_after (of_entries expired)) the_shard (early_row ∷ late_row ∷ []) }
    ensures missing { reply (store_after (of_entries expired)) (did 2 (Get (key 0 1))) ≡ Bytes None }
    ensures told { LegalRead [] (of_entries told_expired) (snapshot_by 3) (Expired 8) }
    ensures no_rows { LegalRead [] (of_entries told_expired) (snapshot_by 3) (Rows (row_of 97 ∷ row_of 98 ∷ [])) → ⊥ }
{}
