// Laws of the grammar, each the contract of a function that does nothing.
ghost use Rattle.std.specs.Prelude.{◌≡◌, ℕ, List};
ghost use Rattle.ingest_text.specs.declared.feeds.IngestFeed.{IngestFeed};
ghost use Rattle.ingest_text.specs.Feeds.{IsFirstFault, Spells};

/// A text spells one feed at most.
pub fn one_feed()
    ensures { (f g : IngestFeed) (text : List ℕ) → Spells f text → Spells g text → f ≡ g }
{}

/// One line at most is the first at fault.
pub fn one_fault()
    ensures { (text : List ℕ) (m n : ℕ) → IsFirstFault text m → IsFirstFault text n → m ≡ n }
{}

/// A feed has no line at fault.
pub fn no_fault_in_a_feed()
    ensures { (feed : IngestFeed) (text : List ℕ) (n : ℕ) → Spells feed text → IsFirstFault text n → ⊥ }
{}
