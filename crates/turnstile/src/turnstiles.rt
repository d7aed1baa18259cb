// The turnstile.
ghost use Rattle.std.specs.Prelude.{◌≡◌};

use crate::histories::Growing;
use crate::passes::Pass;
use crate::plays::Take;
use crate::rules::Board;
use crate::turns::Held;
use atomic_table::{Refused, Table};
use std::alloc::{AllocFailed, Global};
use std::snapshot::Snapshot;

/// A value that threads take in turns, without a lock.
#[derive(Drop)]
pub struct Turnstile<V: Growing> {
    pub(crate) board: Board<V>,
    pub(crate) alloc: Global,
    ghost words: { board.shared.table_id.words ≡ 2 },
    ghost slots: { board.shared.table_id.slots ≡ 1 },
}

impl<V: Growing> Turnstile<V> {
    ghost use Rattle.std.specs.Prelude.{IfOk, IfErr};
    ghost use Rattle.turnstile.specs.Passes.{IsPassOf, view, first_value};
    ghost use Rattle.turnstile.specs.Plays.{missed};
    ghost use Rattle.turnstile.specs.Rule.{first_view};
    ghost use Rattle.turnstile.specs.Turns.{IsTurn};

    /// The turnstile round a value, and its first pass, which has number 0, every other number as its stock, and every share.
    /// The value comes back for want of memory.
    pub fn new(alloc: Global, value: V) -> Result<(Turnstile<V>, Pass<V>), V>
        ensures pass { IfOk result (λ made. IsPassOf V.told V.client made.0 made.1) }
        ensures first { IfOk result (λ made. (first_value made.0 ≡ value) × (view made.1 ≡ first_view (V.told value))) }
        ensures memory { IfErr result (λ back. back ≡ value) }
    {
        let count = value.entries();
        let key = Snapshot::of(&value);
        let mut slots = Vec::new(alloc);
        if let Err(failed) = slots.push(Some(value)) {
            let AllocFailed { value } = failed;
            slots.destroy_empty();
            let Some(value) = value else { unreachable!() };
            return Err(value);
        }
        match Table::new(alloc, &[0, count], slots, &key) {
            Ok((board, place)) => {
                let pass = Pass {
                    place,
                    number: 0,
                    low: 1,
                    stock: u64::MAX,
                    count,
                };
                Ok((Turnstile { board, alloc }, pass))
            }
            Err(Refused { mut slots }) => {
                let Some(Some(value)) = slots.pop() else {
                    unreachable!()
                };
                slots.destroy_empty();
                Err(value)
            }
        }
    }

    /// The turn, where it is free: the pass has then seen all that the value tells. The pass comes back, with one miss more,
    /// only where the take found the turn held. It waits for nobody.
    pub fn try_take(&self, pass: Pass<V>) -> Result<Held<'_, V>, Pass<V>>
        requires { IsPassOf V.told V.client self.now pass }
        ensures held { IfOk result (λ turn. IsTurn V.told V.client self.now (view pass) turn) }
        ensures missed { IfErr result (λ back. IsPassOf V.told V.client self.now back × (view back ≡ missed (view pass))) }
    {
        let Pass {
            mut place,
            number,
            low,
            stock,
            count,
        } = pass;
        let found = self
            .board
            .shared
            .compare_exchange::<Take>(&mut place, 0, 0, 1);
        if found != 0 {
            return Err(Pass {
                place,
                number,
                low,
                stock,
                count,
            });
        }
        let Some(value) = self.board.shared.exchange(&mut place, 0, None) else {
            unreachable!()
        };
        let count = value.entries();
        let pass = Pass {
            place,
            number,
            low,
            stock,
            count,
        };
        Ok(Held {
            turnstile: self,
            pass,
            value,
            nothing: Vec::new(self.alloc),
        })
    }
}
