// Laws of the grammar, each the contract of a function that does nothing.
ghost use Rattle.std.specs.Prelude.{◌≡◌, ◌⊎◌, ℕ, List};
ghost use Rattle.byte_core.specs.ByteLists.{IsBytes};
ghost use Rattle.update_core.specs.declared.updates.Update.{Update};
ghost use Rattle.part_codec.specs.Parts.{Part};
ghost use Rattle.part_codec.specs.Refusals.{IsRefused};
ghost use Rattle.part_codec.specs.declared.part_faults.PartFault.{PartFault};

/// The same bytes are the part of one list of rows alone.
pub fn one_reading()
    ensures { (rows others : List Update) (bytes : List ℕ) → Part rows bytes → Part others bytes → rows ≡ others }
{}

/// Bytes are a part, or they have one fault, and never both.
pub fn part_or_fault()
    ensures either { (bytes : List ℕ) → IsBytes bytes → ((rows : List Update) × Part rows bytes) ⊎ ((fault : PartFault) × IsRefused fault bytes) }
    ensures not_both { (bytes : List ℕ) (rows : List Update) (fault : PartFault) → IsBytes bytes → Part rows bytes → IsRefused fault bytes → ⊥ }
    ensures one { (bytes : List ℕ) (fault other : PartFault) → IsBytes bytes → IsRefused fault bytes → IsRefused other bytes → fault ≡ other }
{}
