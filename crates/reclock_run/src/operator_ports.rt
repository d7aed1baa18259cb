// The port of an operator.
ghost use Rattle.std.specs.Prelude.{◌≡◌, ◌<◌, ◌≤◌, Ok, IfOk, OnErr};
ghost use Rattle.causes.specs.Causes.{Rose};
ghost use Rattle.store_core.specs.Ports.{Sees, GrowsByOthers, IsTurnFor, IsFailure};
ghost use Rattle.turnstile.specs.Passes.{IsPassAt, view};
ghost use Rattle.shared_store.specs.Fronts.{front_of};
ghost use Rattle.shared_store.specs.Passes.{PortKept, kept_of};
ghost use Rattle.shared_store.specs.Trails.{entry_client};

use causes::one_more;
use crew::Gate;
use shared_store::{CountedStore, SharedPort};
use std::alloc::AllocError;
use std::marker::Model;
use std::thread;
use store_core::{Call, Port, Store, Turn};
use turnstile::Pass;

/// An operator's way to the shared store: a port of its own, which asks the gate once before each call. The calls are numbered over both
/// rounds.
#[derive(Drop)]
pub struct OperatorPort<'a, S: Store, G: Gate> {
    port: SharedPort<'a, S>,
    gate: &'a G,
    operator: u32,
    calls: u64,
    // Whether the gate was asked before the next call.
    asked: bool,
}

impl<'a, S: Store, G: Gate> Model for OperatorPort<'a, S, G> {
    ghost use Rattle.shared_store.specs.Passes.{PortValue};

    ghost Value = { PortValue S };

    ghost view = { λ p. p.port };
}

impl<'a, S: Store, G: Gate> OperatorPort<'a, S, G> {
    /// A port of an operator that has made so many calls.
    pub fn at(
        port: SharedPort<'a, S>,
        gate: &'a G,
        operator: u32,
        calls: u64,
    ) -> OperatorPort<'a, S, G>
        ensures { result ≡ port.entry }
    {
        OperatorPort {
            port,
            gate,
            operator,
            calls,
            asked: false,
        }
    }

    /// How many calls the operator has made. It stands still at 2^64 - 1.
    pub fn calls(&self) -> u64 {
        self.calls
    }

    /// The pass of its port.
    pub fn back(self) -> Pass<CountedStore<S>>
        ensures pass { IsPassAt entry_client self.entry.table self.entry.known.start result }
        ensures known { view result ≡ self.entry.known }
    {
        let OperatorPort {
            port,
            gate: _,
            operator: _,
            calls: _,
            asked: _,
        } = self;
        port.back()
    }

    // Asks the gate, once before each call.
    fn pass_gate(&mut self)
        ensures { self.new ≡ self.old }
    {
        if !self.asked {
            self.gate
                .before(self.operator, self.calls.saturating_add(1));
            self.asked = true;
        }
    }

    // One call through its own port, which is counted where it is answered.
    fn call_store(&mut self, call: &Call) -> Result<Turn, AllocError>
        ensures seen { IfOk result (λ turn. Sees self.old.known.number
            (front_of S.history self.old.known) (front_of S.history self.new.known) call.now turn) }
        ensures memory { OnErr result (GrowsByOthers self.old.known.number
            (front_of S.history self.old.known) (front_of S.history self.new.known)) }
        ensures client { self.new.known.number ≡ self.old.known.number }
        ensures shape { IfOk result (λ turn. IsTurnFor call.now turn) }
        ensures busy { result ≡ Ok Turn.Busy → self.old.known.misses < self.new.known.misses }
        ensures cause { IfOk result (λ turn. IsFailure turn → Rose self.old.faults self.new.faults) }
        ensures faults { self.old.faults ≤ self.new.faults }
        ensures misses { self.old.known.misses ≤ self.new.known.misses }
        ensures kept { kept_of self.new ≡ kept_of self.old }
    {
        let turn = self.port.try_call(call)?;
        match &turn {
            Turn::Busy => thread::yield_now(),
            Turn::Reply(_) => {
                self.calls = one_more(self.calls);
                self.asked = false;
            }
        }
        Ok(turn)
    }
}

impl<'a, S: Store, G: Gate> Port for OperatorPort<'a, S, G> {
    ghost client = { λ p. p.known.number };

    ghost front = { λ p. front_of S.history p.known };

    ghost faults = { λ p. p.faults };

    ghost misses = { λ p. p.known.misses };

    ghost Kept = { PortKept S };

    ghost kept = { kept_of };

    /// One call through its own port, after the gate was asked. Where the turn was found held it first yields the processor.
    fn try_call(&mut self, call: &Call) -> Result<Turn, AllocError>
        ensures seen { IfOk result (λ turn. Sees self.old.known.number
            (front_of S.history self.old.known) (front_of S.history self.new.known) call.now turn) }
        ensures memory { OnErr result (GrowsByOthers self.old.known.number
            (front_of S.history self.old.known) (front_of S.history self.new.known)) }
        ensures client { self.new.known.number ≡ self.old.known.number }
        ensures shape { IfOk result (λ turn. IsTurnFor call.now turn) }
        ensures busy { result ≡ Ok Turn.Busy → self.old.known.misses < self.new.known.misses }
        ensures cause { IfOk result (λ turn. IsFailure turn → Rose self.old.faults self.new.faults) }
        ensures faults { self.old.faults ≤ self.new.faults }
        ensures misses { self.old.known.misses ≤ self.new.known.misses }
        ensures kept { kept_of self.new ≡ kept_of self.old }
    {
        self.pass_gate();
        self.call_store(call)
    }
}
