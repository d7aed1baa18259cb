// Laws of the definitions, each the contract of a function that does nothing.
ghost use Rattle.std.specs.Prelude.{◌≡◌, ℕ, List, [], ◌∷◌, ◌++◌, reverse};
ghost use Rattle.store_core.specs.declared.calls.Call.{Call};
ghost use Rattle.store_core.specs.declared.replies.Reply.{Reply};
ghost use Rattle.store_core.specs.declared.entries.Entry.{Entry};
ghost use Rattle.store_core.specs.Stores.{Stored};
ghost use Rattle.store_core.specs.Histories.{History, IsReplyTo, entry_of, next, replay, reply};
ghost use Rattle.store_core.specs.Ports.{Gains, OfOthers, answered, mine, with_entries};
ghost use Rattle.store_core.specs.Newest.{mine_back, replay_back};

/// The last entry takes effect last.
pub fn replay_one_more()
    ensures { (s : Stored) (es : List Entry) (e : Entry) → replay s (es ++ e ∷ []) ≡ next (replay s es) e }
{}

/// Two lists of entries are replayed one after the other.
pub fn replay_joined()
    ensures { (s : Stored) (xs ys : List Entry) → replay s (xs ++ ys) ≡ replay (replay s xs) ys }
{}

/// A reply adds one entry to the client's own, the call with that reply.
pub fn own_entry_gained()
    ensures { (client : ℕ) (h k : History) (call : Call) (r : Reply) (g : Gains client h k call r)
        → mine k client ≡ mine h client ++ answered (entry_of client call g.outcome) r ∷ [] }
{}

/// Entries of others are none of the client's own.
pub fn others_gain_nothing()
    ensures { (client : ℕ) (h : History) (others : List Entry) → OfOthers client others → mine (with_entries h others) client ≡ mine h client }
{}

/// Each reply is of its call's kind, or Failed.
pub fn replies_have_kinds()
    ensures { (s : Stored) (e : Entry) → IsReplyTo e.call (reply s e) }
{}

/// A history read with its newest entry first is the same history.
pub fn newest_first()
    ensures replayed { (s : Stored) (es : List Entry) → replay s es ≡ replay_back s (reverse es) }
    ensures own { (h : History) (c : ℕ) → reverse (mine h c) ≡ mine_back h.start (reverse h.trail) c }
{}
