// Laws of the grammar, each the contract of a function that does nothing.
ghost use Rattle.std.specs.Prelude.{◌≡◌, ◌<◌, ◌^◌, ℕ, List};
ghost use Rattle.reclock_text.specs.declared.feeds.ReclockFeed.{ReclockFeed};
ghost use Rattle.reclock_text.specs.Feeds.{IsFirstFault, Spells};

/// A text spells one feed at most.
pub fn one_feed()
    ensures { (operators : ℕ) → operators < 2 ^ 32 → (f g : ReclockFeed) (text : List ℕ) → Spells operators f text → Spells operators g text → f ≡ g }
{}

/// One line at most is the first at fault.
pub fn one_fault()
    ensures { (operators : ℕ) → operators < 2 ^ 32 → (text : List ℕ) (m n : ℕ) → IsFirstFault operators text m → IsFirstFault operators text n → m ≡ n }
{}

/// A feed has no line at fault.
pub fn no_fault_in_a_feed()
    ensures { (operators : ℕ) → operators < 2 ^ 32 → (feed : ReclockFeed) (text : List ℕ) (n : ℕ) → Spells operators feed text → IsFirstFault operators text n → ⊥ }
{}
