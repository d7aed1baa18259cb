// The value of a turn, lent to its holder. The clause names the row of `Held`, which the file of `Held` can't import.
ghost use Rattle.std.specs.Prelude.{◌≡◌, []};
ghost use mir.Syntax.{named};
ghost use Rattle.std.specs.Borrow.{follows, sem};
ghost use Rattle.turnstile.specs.contracts.turns.Held.{the_row};
ghost use Rattle.turnstile.specs.Lent.{with_value};
ghost use Rattle.turnstile.specs.Turns.{held_value};

use crate::histories::Growing;
use crate::turns::Held;

impl<V: Growing> Held<'_, V> {
    /// The value.
    pub fn value(&mut self) -> &mut V
        ensures* writes_back { sem 𝓛 (follows (the_row (record { mir = named 1; lft = [] }) V.row V.Begin.row V.Item.row V.Growing) V.row
            self.entry.ghost_name result.ghost_name (with_value self.old)) }
        ensures value { result.now ≡ held_value self.old }
    {
        &mut self.value
    }
}
