// Laws of changes, each the contract of a function that does nothing.
ghost use Rattle.std.specs.Prelude.{◌≡◌, ◌∷◌, ◌++◌, ◌<◌, ℕ, List};
ghost use Rattle.update_core.specs.declared.updates.Update.{Update};
ghost use Rattle.store_core.specs.declared.entries.Entry.{Entry};
ghost use Rattle.store_core.specs.declared.replies.Reply.{Reply};
ghost use Rattle.store_core.specs.Stores.{Stored};
ghost use Rattle.state_core.specs.declared.kinds.Kind.{Kind};
ghost use Rattle.update_core.specs.Limits.{most};
ghost use Rattle.history_core.specs.Placing.{places};
ghost use Rattle.load_core.specs.declared.tries.Tried.{Tried};
ghost use Rattle.load_core.specs.declared.tryings.Trying.{Trying};
ghost use Rattle.load_core.specs.Outcomes.{MovesAt};
ghost use Rattle.load_core.specs.Trying.{IsSound, Moves, call_of};
ghost use Rattle.change_core.specs.Changes.{IsAnswerTo, outcome};
ghost use Rattle.change_core.specs.Legality.{ChangeEffect, ChangesAt, LegalChange};

/// Over a lawful history each outcome of a change is legal, for a member of every kind. The document is docs/DEFINITIONS.md, "Changes of
/// members".
pub fn changes_are_legal()
    ensures { (kind : Kind) (member : ℕ) (t new : Trying) (client : ℕ) (list : List Update) (start : Stored) (e : Entry) (others es : List Entry)
        → ChangesAt kind member t client list start e others es → (tried : Tried) → MovesAt t start e (others ++ es) new tried → new.calls < most
        → LegalChange start t.loader.shard member t.step (outcome new member tried) (places client new.calls (e ∷ (others ++ es))) }
{}

/// Over a lawful history a change ends with no other outcome than its own, however many calls there were: a join as joined, full or
/// spent, another change as committed, gone or spent, an advance also as back.
pub fn changes_are_answered()
    ensures { (kind : Kind) (member : ℕ) (t new : Trying) (client : ℕ) (list : List Update) (start : Stored) (e : Entry) (others es : List Entry)
        → ChangesAt kind member t client list start e others es → (tried : Tried) → MovesAt t start e (others ++ es) new tried
        → IsAnswerTo t.step (outcome new member tried) }
{}

/// What a change's call commits, by its outcome: the change, the shard's first version while it goes on, or nothing.
pub fn changes_have_effects()
    ensures { (member : ℕ) (t new : Trying) (r : Reply) (tried : Tried) → IsSound t → Moves t r new tried
        → ChangeEffect t.loader.shard t.step (call_of t) r (outcome new member tried) }
{}
