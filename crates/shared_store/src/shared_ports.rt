// A port of a shared store.
ghost use Rattle.std.specs.Prelude.{◌≡◌, ◌<◌, ◌≤◌, Ok, IfOk, OnErr};
ghost use Rattle.causes.specs.Causes.{Rose};
ghost use Rattle.store_core.specs.Ports.{Sees, GrowsByOthers, IsTurnFor, IsFailure};
ghost use Rattle.turnstile.specs.Passes.{IsPassOf, IsPassAt, view, table_of};
ghost use Rattle.shared_store.specs.Trails.{entry_client};
ghost use Rattle.shared_store.specs.Fronts.{front_of, HadTurn, HadAnswer, faults_after};
ghost use Rattle.shared_store.specs.Passes.{PortKept, kept_of, told_of};

use crate::counted_stores::CountedStore;
use crate::single_turns::single_turn;
use causes::one_more;
use std::alloc::AllocError;
use std::marker::Model;
use store_core::{Call, Port, Reply, Store, Turn};
use turnstile::{Pass, Turnstile};

/// One client's way to a shared store, by a pass, whose number is the client's. It keeps a count of its own faults.
#[derive(Drop)]
pub struct SharedPort<'a, S: Store> {
    turnstile: &'a Turnstile<CountedStore<S>>,
    pass: Option<Pass<CountedStore<S>>>,
    faults: u64,
}

impl<'a, S: Store> Model for SharedPort<'a, S> {
    ghost use Rattle.turnstile.specs.Passes.{table_of};
    ghost use Rattle.shared_store.specs.Passes.{PortValue, HasPass, view_or};

    ghost Value = { PortValue S };

    ghost view = { λ p. record { table = table_of p.turnstile.now; known = view_or p.pass; faults = p.faults } };

    ghost invariant = { λ p. HasPass p.turnstile.now p.pass };
}

impl<'a, S: Store> SharedPort<'a, S> {
    /// A port with a pass of this turnstile, and no faults. It takes no memory.
    pub fn at(
        turnstile: &'a Turnstile<CountedStore<S>>,
        pass: Pass<CountedStore<S>>,
    ) -> SharedPort<'a, S>
        requires { IsPassOf told_of entry_client turnstile.now pass }
        ensures table { result.table ≡ table_of turnstile.now }
        ensures known { result.known ≡ view pass }
        ensures faults { result.faults ≡ 0 }
    {
        SharedPort {
            turnstile,
            pass: Some(pass),
            faults: 0,
        }
    }

    /// The port's pass. It takes no memory.
    pub fn back(self) -> Pass<CountedStore<S>>
        ensures pass { IsPassAt entry_client self.entry.table self.entry.known.start result }
        ensures known { view result ≡ self.entry.known }
    {
        let SharedPort {
            turnstile: _,
            pass,
            faults: _,
        } = self;
        let Some(pass) = pass else { unreachable!() };
        pass
    }
}

impl<'a, S: Store> Port for SharedPort<'a, S> {
    ghost client = { λ p. p.known.number };

    ghost front = { λ p. front_of S.history p.known };

    ghost faults = { λ p. p.faults };

    ghost misses = { λ p. p.known.misses };

    ghost Kept = { PortKept S };

    ghost kept = { kept_of };

    /// One call of the store, in a turn of the port's pass; `Busy` exactly where the turn was found held.
    /// It waits for nobody, and fails only for want of memory.
    fn try_call(&mut self, call: &Call) -> Result<Turn, AllocError>
        ensures seen { IfOk result (λ turn. Sees self.old.known.number
            (front_of S.history self.old.known) (front_of S.history self.new.known) call.now turn) }
        ensures memory { OnErr result (GrowsByOthers self.old.known.number
            (front_of S.history self.old.known) (front_of S.history self.new.known)) }
        ensures client { self.new.known.number ≡ self.old.known.number }
        ensures shape { IfOk result (λ turn. IsTurnFor call.now turn) }
        ensures busy { result ≡ Ok Turn.Busy → self.old.known.misses < self.new.known.misses }
        ensures cause { IfOk result (λ turn. IsFailure turn → Rose self.old.faults self.new.faults) }
        ensures faults { self.old.faults ≤ self.new.faults }
        ensures misses { self.old.known.misses ≤ self.new.known.misses }
        ensures kept { kept_of self.new ≡ kept_of self.old }

        // What it does to the pass, exactly, and that it counts Failed alone.
        ensures table { self.new.table ≡ self.old.table }
        ensures answer { IfOk result (λ turn. HadAnswer self.old.known self.new.known turn) }
        ensures refused { OnErr result (HadTurn self.old.known self.new.known) }
        ensures counted { IfOk result (λ turn. self.new.faults ≡ faults_after turn self.old.faults) }
        ensures uncounted { OnErr result (self.new.faults ≡ self.old.faults) }
    {
        let Some(pass) = self.pass.take() else {
            unreachable!()
        };
        let (pass, answer) = single_turn(self.turnstile, pass, call);
        self.pass = Some(pass);
        let Some(answer) = answer else {
            return Ok(Turn::Busy);
        };
        let reply = answer?;
        if let Reply::Failed = reply {
            self.faults = one_more(self.faults);
        }
        Ok(Turn::Reply(reply))
    }
}
