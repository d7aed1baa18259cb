// A turn.
ghost use Rattle.std.specs.Prelude.{◌≡◌};

use crate::counts::count_up;
use crate::histories::Growing;
use crate::passes::Pass;
use crate::plays::Give;
use crate::turnstiles::Turnstile;
use std::marker::Brand;

/// The turn, with the value in hand. It has to be given back.
pub struct Held<'a, V: Growing> {
    pub(crate) turnstile: &'a Turnstile<V>,
    pub(crate) pass: Pass<V>,
    pub(crate) value: V,
    // Always empty. The prover lends `value` by a method only where another field owns memory.
    pub(crate) nothing: Vec<u8>,
}

impl<V: Growing> Held<'_, V> {
    ghost use Rattle.turnstile.specs.Plays.{Gains, gave_back};
    ghost use Rattle.turnstile.specs.Passes.{IsPassOf, view};
    ghost use Rattle.turnstile.specs.Turns.{IsHeld, held_view, held_value, held_from};

    /// The client number of the pass that has the turn.
    pub fn number(&self) -> u64
        requires { IsHeld V.told V.client self.now }
        ensures { result ≡ (held_view self.now).number }
    {
        self.pass.number
    }

    /// Gives the value back, with the entries that it gained. They are all of the pass's number, and follow what the value told at the take.
    pub fn give(self) -> Pass<V>
        requires held { IsHeld V.told V.client self }
        requires gains { (es : _) × Gains V.told V.client (held_view self) (held_value self) es }
        ensures pass { IsPassOf V.told V.client (held_from self.entry) result }
        ensures gains { (es : _) × Gains V.told V.client (held_view self.entry) (held_value self.entry) es
            × (view result ≡ gave_back (held_view self.entry) es) }
    {
        let Held {
            turnstile,
            pass,
            value,
            nothing: _,
        } = self;
        let Pass {
            mut place,
            number,
            low,
            stock,
            count,
        } = pass;
        let shared = &turnstile.board.shared;
        let now = value.entries();
        count_up::<V, Brand>(turnstile, &mut place, &value, now, count);
        let empty = shared.exchange(&mut place, 0, Some(value));
        let None = empty else { unreachable!() };
        shared.store::<Give>(&mut place, 0, 0);
        Pass {
            place,
            number,
            low,
            stock,
            count: now,
        }
    }
}
