// The count of what a turn added.
ghost use Rattle.std.specs.Prelude.{◌≡◌};
ghost use Rattle.turnstile.specs.Plays.{grown, Credited};
ghost use Rattle.turnstile.specs.Counting.{IsCounting};

use crate::histories::Growing;
use crate::plays::{CountUp, Gained};
use crate::rules::Place;
use crate::turnstiles::Turnstile;

// Counts what the value gained. The entries are picked by the caller's proof.
pub(crate) fn count_up<V: Growing, G: Gained<V::Item>>(
    turnstile: &Turnstile<V>,
    place: &mut Place<V>,
    value: &V,
    now: u64,
    count: u64,
)
    requires { IsCounting V.told V.client turnstile.now place.old value.now G.gained now count }
    ensures table { place.new.table_id ≡ place.old.table_id }
    ensures id { place.new.id ≡ place.old.id }
    ensures me { place.new.me ≡ (grown place.old.me.0 G.gained, place.old.me.1) }
    ensures credited { Credited V.client place.new.me.0 }
{
    turnstile
        .board
        .shared
        .fetch_add::<CountUp<G>>(place, 1, now.saturating_sub(count));
}
