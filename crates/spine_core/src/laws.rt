// Laws of the definitions, each the contract of a function that does nothing.
ghost use Rattle.std.specs.Prelude.{◌≡◌, ℕ, true, List, [], ◌∷◌, ◌++◌};
ghost use Rattle.update_core.specs.declared.updates.Update.{Update};
ghost use Rattle.update_core.specs.Frontiers.{covers};
ghost use Rattle.update_core.specs.Updates.{cons, moved, sum_of, OutOf};
ghost use Rattle.spine_core.specs.declared.batches.Batch.{Batch};
ghost use Rattle.spine_core.specs.declared.descs.Desc.{Desc};
ghost use Rattle.spine_core.specs.Contents.{IsBatchOf, batch_of, held, IsMovedUpTo, Merges};
ghost use Rattle.spine_core.specs.Spines.{spine_upper, IsSpine, Replaced};

/// `batch_of` gives the rows of a batch, and no others are.
pub fn batch_rows()
    ensures is { (us : List Update) (d : Desc) → IsBatchOf us d (batch_of us d) }
    ensures only { (us : List Update) (d : Desc) (rows : List Update) → IsBatchOf us d rows → rows ≡ batch_of us d }
{}

/// What comes later changes no batch.
pub fn batch_stays()
    ensures { (us more : List Update) (d : Desc) → OutOf d.upper more → batch_of (us ++ more) d ≡ batch_of us d }
{}

/// Two batches of which the second is from the upper of the first on come to the one of both spans.
pub fn batches_merge()
    ensures { (us : List Update) (left right merged : Desc) → Merges left right merged
        → cons (moved (batch_of us left ++ batch_of us right) merged.since) ≡ batch_of us merged }
{}

/// The batches of a spine have the content of the collection at each time from their sinces on that their upper covers.
pub fn spine_content()
    ensures { (us : List Update) (bs : List Batch) (t : ℕ) → IsSpine bs → IsMovedUpTo t bs → covers (spine_upper bs) t ≡ true
        → sum_of (held us bs) t ≡ sum_of us t }
{}

/// A push moves a spine's upper to that of the batch.
pub fn upper_of_push()
    ensures { (bs : List Batch) (b : Batch) → spine_upper (bs ++ b ∷ []) ≡ b.desc.upper }
{}

/// A replacement leaves a spine's upper.
pub fn upper_of_replace()
    ensures { (left right merged : Batch) (old new : List Batch) → merged.desc.upper ≡ right.desc.upper → Replaced left right merged old new
        → spine_upper new ≡ spine_upper old }
{}
