// How passes are made and put together, and how a turnstile ends.
ghost use Rattle.std.specs.Prelude.{◌≡◌, ◌^◌, ◌<◌, ℕ, IfOk, IfErr};
ghost use mathlib.Core.List.{IsPrefix};
ghost use Rattle.turnstile.specs.History.{with_more};
ghost use Rattle.turnstile.specs.Rule.{times, entries_by};
ghost use Rattle.turnstile.specs.Plays.{left_of, right_of, both_of, EachIn};
ghost use Rattle.turnstile.specs.Passes.{IsPassOf, view, first_value};

use crate::histories::Growing;
use crate::passes::Pass;
use crate::plays::{Cut, Glue, Settle};
use crate::turnstiles::Turnstile;
use thiserror::Error;

/// Why a pass can't be split.
#[derive(Debug, Drop, Error)]
pub enum SplitFault {
    /// The pass's stock is empty.
    #[error("the pass has no number left to hand out")]
    NumbersSpent,
}

impl<V: Growing> Turnstile<V> {
    /// A new pass, which has seen what the old one has. Its number is the least of the old one's stock, and its stock the upper half,
    /// rounded down, of the others. `NumbersSpent` exactly where the stock is empty; nothing changes then. It takes no memory.
    pub fn split(&self, pass: &mut Pass<V>) -> Result<Pass<V>, SplitFault>
        requires { IsPassOf V.told V.client self.now pass.old }
        ensures pass { IsPassOf V.told V.client self.now pass.new }
        ensures made { IfOk result (λ made. IsPassOf V.told V.client self.now made) }
        ensures ok { IfOk result (λ made. (0 < (view pass.old).stock) × (view pass.new ≡ left_of (view pass.old))
            × (view made ≡ right_of (view pass.old))) }
        ensures spent { IfErr result (λ _. ((view pass.old).stock ≡ 0) × (pass.new ≡ pass.old)) }
    {
        if pass.stock == 0 {
            return Err(SplitFault::NumbersSpent);
        }
        let upper = (pass.stock - 1) / 2;
        let lower = pass.stock - 1 - upper;
        let number = pass.low;
        let low = number.wrapping_add(1);
        let mut place = self.board.shared.split_seat::<Cut>(&mut pass.place);
        self.board.shared.load::<Settle>(&mut place, 0);
        pass.low = low;
        pass.stock = lower;
        Ok(Pass {
            place,
            number,
            low: low.wrapping_add(lower),
            stock: upper,
            count: pass.count,
        })
    }

    /// The pass takes in another: it has then seen what both had, has both shares, and answers for the numbers of both.
    /// It keeps its number and stock; the other's stock is given up.
    pub fn join(&self, pass: &mut Pass<V>, other: Pass<V>)
        requires pass { IsPassOf V.told V.client self.now pass.old }
        requires other { IsPassOf V.told V.client self.now other }
        ensures pass { IsPassOf V.told V.client self.now pass.new }
        ensures views { view pass.new ≡ both_of (view pass.old) (view other) }
        ensures begins { IsPrefix (view pass.old).gain (view pass.new).gain × IsPrefix (view other).gain (view pass.new).gain }

        // Of each number that either answers for, it has then seen what that one had.
        ensures own { (n : ℕ) → 0 < times n (view pass.old).kin
            → entries_by V.client n (view pass.new).gain ≡ entries_by V.client n (view pass.old).gain }
        ensures others { (n : ℕ) → 0 < times n (view other).kin
            → entries_by V.client n (view pass.new).gain ≡ entries_by V.client n (view other).gain }
    {
        let Pass {
            place,
            number: _,
            low: _,
            stock: _,
            count,
        } = other;
        self.board.shared.join_seat::<Glue>(&mut pass.place, place);
        self.board.shared.load::<Settle>(&mut pass.place, 0);
        pass.count = pass.count.max(count);
    }

    /// The value, where the pass has every share, which is so once each pass that was split off has been joined. The pass has seen
    /// all that the value tells, and each entry since the turnstile was made is of a number that the pass answers for.
    pub fn close(self, pass: Pass<V>) -> V
        requires pass { IsPassOf V.told V.client self pass }
        requires whole { (view pass).share ≡ 2 ^ 64 }
        ensures tells { V.told result ≡ with_more (V.told (first_value self)) (view pass).gain }
        ensures own { EachIn V.client (view pass).kin (view pass).gain }
    {
        let Turnstile { board, alloc: _ } = self;
        let Pass {
            place,
            number: _,
            low: _,
            stock: _,
            count: _,
        } = pass;
        let mut closed = board.close_with(place);
        let slot = closed.take(0);
        closed.free();
        let Some(value) = slot else { unreachable!() };
        value
    }
}
