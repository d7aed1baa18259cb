// Answers of a compactor, a collector and an expirer that are legal in the worked history and answers that aren't, each the
// contract of a function that does nothing.
ghost use Rattle.std.specs.Prelude.{◌≡◌, ℕ, None};
ghost use Rattle.history_core.specs.declared.asked.Asked.TheVariants.{Collect};
ghost use Rattle.history_core.specs.declared.merge_answers.MergeAnswer.TheVariants.{Opened, Merged, NothingDue, Renewed};
ghost use Rattle.history_core.specs.declared.merge_answers.MergeAnswer.TheVariants.{Superseded};
ghost use Rattle.history_core.specs.declared.collect_answers.CollectAnswer.TheVariants.{Collected};
ghost use Rattle.history_core.specs.declared.expire_answers.ExpireAnswer.TheVariants.{NoneDue};
ghost use Rattle.history_core.specs.Costs.{merge_parts};
ghost use Rattle.history_core.specs.Upkeep.{LegalMerge, LegalCollect, LegalExpire};
ghost use Rattle.worked_histories.specs.Worked.{early_batch, late_batch};
ghost use Rattle.worked_histories.specs.WorkedTrail.{worked, first_calls};
ghost use Rattle.worked_histories.specs.WorkedUpkeep.{the_open, the_merge, the_renewal, the_collection, with_failure, the_failed_merge};
ghost use Rattle.worked_histories.specs.WorkedUpkeep.{empty_scan, scan_at_end, the_expiry, command_by, MergeWithin, CollectWithin};

/// The compactor's open, its merge and its renewal are answered with the version that each committed. The merge isn't answered
/// with another version, nor that nothing was due, and makes no more calls than it may.
pub fn compactor_is_answered()
    ensures opened { LegalMerge (first_calls 4) the_open (Opened 1 2) }
    ensures merged { LegalMerge (first_calls 16) the_merge (Merged 6) }
    ensures renewed { LegalMerge (first_calls 20) the_renewal (Renewed 8) }
    ensures no_other { (version : ℕ) → LegalMerge (first_calls 16) the_merge (Merged version) → version ≡ 6 }
    ensures no_nothing { (version : ℕ) → LegalMerge (first_calls 16) the_merge (NothingDue version) → ⊥ }
    ensures cost { MergeWithin (first_calls 16) the_merge (merge_parts early_batch late_batch) 1 }
{}

/// Where its Cas failed and took effect, the merge is answered as that version, and not that it was superseded.
pub fn failed_merge_is_answered()
    ensures merged { LegalMerge with_failure the_failed_merge (Merged 6) }
    ensures no_superseded { (version : ℕ) → LegalMerge with_failure the_failed_merge (Superseded version) → ⊥ }
    ensures cost { MergeWithin with_failure the_failed_merge (merge_parts early_batch late_batch) 1 }
{}

/// The collection is answered with the floor 8 and two Deletes, and with no other answer. It makes no more calls than it may. On
/// an empty store it is answered with the floor 0 and no Delete.
pub fn collection_is_answered()
    ensures collected { LegalCollect worked the_collection (Collected 8 2) }
    ensures no_other { (at deleted : ℕ) → LegalCollect worked the_collection (Collected at deleted) →
        (at ≡ 8) × (deleted ≡ 2) }
    ensures cost { CollectWithin worked the_collection 2 }
    ensures empty { LegalCollect empty_scan (command_by 3 None 0 Collect 1) (Collected 0 0) }
{}

/// At 149 no lease has run out in the last version, at 150 one has. An empty store has none in version 0.
pub fn expiry_is_answered()
    ensures none { LegalExpire scan_at_end (the_expiry 149) (NoneDue 8) }
    ensures due { LegalExpire scan_at_end (the_expiry 150) (NoneDue 8) → ⊥ }
    ensures empty { LegalExpire empty_scan (the_expiry 0) (NoneDue 0) }
{}
