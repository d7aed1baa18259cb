// Answers that are legal in the worked history and answers that aren't, each the contract of a function that does nothing.
ghost use Rattle.std.specs.Prelude.{◌≡◌, [], ◌∷◌, Some};
ghost use Rattle.history_core.specs.declared.asked.Asked.TheVariants.{Snapshot};
ghost use Rattle.history_core.specs.declared.read_answers.ReadAnswer.{ReadAnswer};
ghost use Rattle.history_core.specs.declared.read_answers.ReadAnswer.TheVariants.{Rows, Late, Step};
ghost use Rattle.history_core.specs.declared.write_answers.WriteAnswer.{WriteAnswer};
ghost use Rattle.history_core.specs.declared.write_answers.WriteAnswer.TheVariants.{Ok, Mismatch};
ghost use Rattle.history_core.specs.Costs.{snapshot_parts, step_parts};
ghost use Rattle.history_core.specs.Legal.{LegalRead, LegalWrite, snapshot_keys, step_keys};
ghost use Rattle.worked_histories.specs.Worked.{late_row, state8};
ghost use Rattle.worked_histories.specs.WorkedTrail.{first_calls};
ghost use Rattle.worked_histories.specs.WorkedAnswers.{second_append, with_scan, with_read, asked_by, snapshot_at_9, snapshot_at_10};
ghost use Rattle.worked_histories.specs.WorkedAnswers.{listen_after_4, row_of, GotBy, AppendWithin, ReadWithin};

/// The second append is answered Ok, and nothing else is legal, such as that the upper was another. It makes no more calls than
/// it may.
pub fn append_is_ok()
    ensures legal { LegalWrite [] (first_calls 11) second_append Ok }
    ensures no_other { (a : WriteAnswer) → LegalWrite [] (first_calls 11) second_append a → a ≡ Ok }
    ensures no_mismatch { LegalWrite [] (first_calls 11) second_append (Mismatch (Some 10)) → ⊥ }
    ensures cost { AppendWithin (first_calls 11) second_append 1 }
{}

/// After all calls a snapshot at 9 is answered with both rows, and nothing else is legal, such as one row alone. The one part
/// that it reads was got after its Scan, and it makes no more calls than it may. A Scan alone doesn't get the part.
pub fn snapshot_is_both_rows()
    ensures legal { LegalRead [] with_read snapshot_at_9 (Rows (row_of 97 ∷ row_of 98 ∷ [])) }
    ensures no_other { (a : ReadAnswer) → LegalRead [] with_read snapshot_at_9 a → a ≡ Rows (row_of 97 ∷ row_of 98 ∷ []) }
    ensures no_less { LegalRead [] with_read snapshot_at_9 (Rows (row_of 97 ∷ [])) → ⊥ }
    ensures got { GotBy with_read snapshot_at_9 (snapshot_keys 9) }
    ensures not_got { GotBy with_scan (asked_by 1 (Snapshot 9)) (snapshot_keys 9) → ⊥ }
    ensures cost { ReadWithin with_read snapshot_at_9 (snapshot_parts 9 state8) }
{}

/// A snapshot at the upper is too late, and no rows are legal. Its one Scan is no more than it may make.
pub fn snapshot_is_late()
    ensures legal { LegalRead [] with_scan snapshot_at_10 (Late (Some 10)) }
    ensures no_other { (a : ReadAnswer) → LegalRead [] with_scan snapshot_at_10 a → a ≡ Late (Some 10) }
    ensures no_rows { LegalRead [] with_scan snapshot_at_10 (Rows (row_of 97 ∷ row_of 98 ∷ [])) → ⊥ }
    ensures cost { ReadWithin with_scan snapshot_at_10 0 }
{}

/// A listen from after 4 is answered with a step up to 10 and the later row, and nothing else is legal, such as no row. The one
/// part that it reads was got after its Scan, and it makes no more calls than it may.
pub fn listen_is_later_row()
    ensures legal { LegalRead [] with_read listen_after_4 (Step (Some 5) (Some 10) (late_row ∷ [])) }
    ensures no_other { (a : ReadAnswer) → LegalRead [] with_read listen_after_4 a → a ≡ Step (Some 5) (Some 10) (late_row ∷ []) }
    ensures no_less { LegalRead [] with_read listen_after_4 (Step (Some 5) (Some 10) []) → ⊥ }
    ensures got { GotBy with_read listen_after_4 (step_keys (Some 5)) }
    ensures cost { ReadWithin with_read listen_after_4 (step_parts (Some 5) state8) }
{}
