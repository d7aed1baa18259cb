// The turn rule, as a law: the contract of a function that does nothing.
ghost use Rattle.std.specs.Prelude.{◌≡◌, ℕ, ◌+◌, ◌-◌, ◌<◌, ◌^◌, ◌%◌, List, [], ◌∷◌, ◌++◌, length, min, Option, Some, ◌==◌, if◌then◌else◌};
ghost use mathlib.Core.Option.{none};
ghost use Rattle.atomic_table.specs.Table.{Allows, Joins, Me, Splits, opening, step};
ghost use Rattle.turnstile.specs.declared.views.View.{View};
ghost use Rattle.turnstile.specs.History.{CountsTo, IsTold, entries_of};
ghost use Rattle.turnstile.specs.Plays.{Gains, both_of, counted_as, gave, left_of, right_of, settled, taken};
ghost use Rattle.turnstile.specs.Rule.{Turning, first_view, spent_view};

use crate::histories::Growing;

/// The rule holds of a turnstile that is opened, and each atomic step keeps it: a take, whether it finds the turn free or not, a
/// count of entries by the pass that has the turn, a give, a look after a join, a split and a join. So it holds between any two
/// steps of any threads.
pub fn turns_keep_the_rule<V: Growing>()
    ensures opened { (y : V) (n : ℕ) → CountsTo (V.told y) n
        → Turning V.told V.client (V.told y) (opening (0 ∷ n ∷ []) (Some y ∷ []) (first_view (V.told y))) }
    ensures taken { (start : Option (V.Begin × List V.Item)) (slots id : ℕ) (m : Me (Option V) (View V.Begin V.Item)) → 0 < m.0.share → m.0.turn ≡ 0
        → Allows (Turning V.told V.client start) slots id m 0 (λ n. if n == 0 then 1 else n) (taken V.told V.client (step slots 0 0 1 none) m) }
    ensures counted { (start : Option (V.Begin × List V.Item)) (slots id k : ℕ) (m : Me (Option V) (View V.Begin V.Item)) (y : V) (gs : List V.Item)
        → 0 < m.0.share → m.0.turn ≡ 1 → Gains V.told V.client m.0 y gs
        → (IsTold start → m.0.start ≡ start → k + min (length (entries_of start ++ m.0.gain)) (2 ^ 64 - 1)
        ≡ min (length (entries_of start ++ (m.0.gain ++ gs))) (2 ^ 64 - 1))
        → Allows (Turning V.told V.client start) slots id m 1 (λ n. (n + k) % 2 ^ 64) (counted_as V.told V.client gs (step slots 1 k 0 none) m) }
    ensures given { (start : Option (V.Begin × List V.Item)) (slots id : ℕ) (m : Me (Option V) (View V.Begin V.Item)) (y : V) → slots ≡ 1
        → 0 < m.0.share → m.0.turn ≡ 1 → m.1 ≡ (0, Some y) ∷ [] → Gains V.told V.client m.0 y []
        → Allows (Turning V.told V.client start) slots id m 0 (λ _. 0) (λ _. gave V.told V.client (step slots 0 0 0 none) m 0) }
    ensures settled { (start : Option (V.Begin × List V.Item)) (slots id : ℕ) (m : Me (Option V) (View V.Begin V.Item)) → 0 < m.0.share
        → Allows (Turning V.told V.client start) slots id m 0 (λ n. n) (settled V.told V.client (step slots 0 0 0 none) m) }
    ensures split { (start : Option (V.Begin × List V.Item)) (id : ℕ) (v : View V.Begin V.Item) → 0 < v.share → 0 < v.stock
        → Splits (Turning V.told V.client start) id v (left_of v) (right_of v) }
    ensures joined { (start : Option (V.Begin × List V.Item)) (id other : ℕ) (v w : View V.Begin V.Item) → 0 < v.share → 0 < w.share → v.turn ≡ 0
        → w.turn ≡ 0 → Joins (Turning V.told V.client start) id v other w (both_of v w) spent_view }
{}
