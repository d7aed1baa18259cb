// Laws of the definitions, each the contract of a function that does nothing.
ghost use Rattle.std.specs.Prelude.{◌≡◌, ℕ, ◌+◌, ◌≤◌, List, Option, Some, ◌++◌, false, true};
ghost use Rattle.std.specs.Ordering.{is_gt};
ghost use Rattle.update_core.specs.declared.updates.Update.{Update};
ghost use Rattle.update_core.specs.Frontiers.{covers, frontier_cmp};
ghost use Rattle.update_core.specs.Updates.{moved, between, sum_of, slice_of, cons, weight_of, OutOf};

/// A move to a time changes no sum from that time on.
pub fn sum_after_move()
    ensures { (us : List Update) (s t : ℕ) → s ≤ t → sum_of (moved us s) t ≡ sum_of us t }
{}

/// Parts may be consolidated first.
pub fn cons_of_parts()
    ensures { (us vs : List Update) → cons (cons us ++ vs) ≡ cons (us ++ vs) }
{}

/// A slice up to g and, when more has come past g, one from g on are one slice.
pub fn slices_join()
    ensures { (us more : List Update) (f g h : Option ℕ) → is_gt (frontier_cmp f g) ≡ false → is_gt (frontier_cmp g h) ≡ false → OutOf g more
        → slice_of us f g ++ slice_of (us ++ more) g h ≡ slice_of (us ++ more) f h }
{}

/// Consolidation never raises the sum of the absolute differences.
pub fn weight_of_cons()
    ensures { (us : List Update) → weight_of (cons us) ≤ weight_of us }
{}

/// The weight of lists one after the other is the sum of theirs.
pub fn weight_of_append()
    ensures { (us vs : List Update) → weight_of (us ++ vs) ≡ weight_of us + weight_of vs }
{}

/// Lists one after the other move one after the other.
pub fn moved_append()
    ensures { (us vs : List Update) (s : ℕ) → moved (us ++ vs) s ≡ moved us s ++ moved vs s }
{}

/// Of two moves the later is what counts.
pub fn moved_twice()
    ensures { (us : List Update) (s t : ℕ) → s ≤ t → moved (moved us s) t ≡ moved us t }
{}

/// A move leaves the sum of the absolute differences.
pub fn weight_of_moved()
    ensures { (us : List Update) (s : ℕ) → weight_of (moved us s) ≡ weight_of us }
{}

/// A list may be consolidated before it is moved.
pub fn cons_after_move()
    ensures { (us : List Update) (s : ℕ) → cons (moved (cons us) s) ≡ cons (moved us s) }
{}

/// A consolidation has at each time the content of its list.
pub fn sum_of_cons()
    ensures { (us : List Update) (t : ℕ) → sum_of (cons us) t ≡ sum_of us t }
{}

/// A consolidation has the slices of its list.
pub fn slice_of_cons()
    ensures { (us : List Update) (f g : Option ℕ) → slice_of (cons us) f g ≡ slice_of us f g }
{}

/// The updates that a frontier covers have the content of all at each time that it covers.
pub fn sum_of_covered()
    ensures { (us : List Update) (g : Option ℕ) (t : ℕ) → covers g t ≡ true
        → sum_of (between (Some 0) g us) t ≡ sum_of us t }
{}
