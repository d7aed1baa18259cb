// What each step tells its pass. These types are for the proofs alone.
use crate::histories::Growing;
use crate::views::View;
use atomic_table::{Join, Play, Split};
use std::marker::{Brand, PhantomData};

// The turn is taken, or was held.
pub(crate) struct Take;

impl<V: Growing> Play<Option<V>, View<V::Begin, V::Item>> for Take {
    ghost use Rattle.turnstile.specs.Plays.{taken};

    ghost then = { taken V.told V.client };
}

// What a count adds, for the proof alone. A call at `Brand` picks it.
pub(crate) trait Gained<I> {
    ghost use Rattle.std.specs.Prelude.{List};

    ghost gained: { List I };
}

impl<I> Gained<I> for Brand {
    ghost use Rattle.std.specs.Prelude.{[]};

    ghost gained = { [] };
}

// The entries that the value gained take their places.
pub(crate) struct CountUp<G> {
    gained: PhantomData<G>,
}

impl<V: Growing, G: Gained<V::Item>> Play<Option<V>, View<V::Begin, V::Item>> for CountUp<G> {
    ghost use Rattle.turnstile.specs.Plays.{counted_as};

    ghost then = { counted_as V.told V.client G.gained };
}

// The turn is given back.
pub(crate) struct Give;

impl<V: Growing> Play<Option<V>, View<V::Begin, V::Item>> for Give {
    ghost use Rattle.turnstile.specs.Plays.{gave};

    ghost then = { gave V.told V.client };
}

// What a pass knows after a join.
pub(crate) struct Settle;

impl<V: Growing> Play<Option<V>, View<V::Begin, V::Item>> for Settle {
    ghost use Rattle.turnstile.specs.Plays.{settled};

    ghost then = { settled V.told V.client };
}

// A pass is cut in two.
pub(crate) struct Cut;

impl<B, I> Split<View<B, I>> for Cut {
    ghost use Rattle.turnstile.specs.Plays.{left_of, right_of};

    ghost left = { left_of };

    ghost right = { right_of };
}

// Two passes are made one.
pub(crate) struct Glue;

impl<B, I> Join<View<B, I>> for Glue {
    ghost use Rattle.turnstile.specs.Plays.{both_of};
    ghost use Rattle.turnstile.specs.Rule.{spent_view};

    ghost both = { both_of };

    ghost spent = { spent_view };
}
