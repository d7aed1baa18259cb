// The port of a worker.
ghost use Rattle.std.specs.Prelude.{◌≡◌, ◌<◌, ◌≤◌, Ok, IfOk, OnErr};
ghost use Rattle.causes.specs.Causes.{Rose};
ghost use Rattle.store_core.specs.Ports.{Sees, GrowsByOthers, IsTurnFor, IsFailure};
ghost use Rattle.turnstile.specs.Passes.{IsPassAt, view};
ghost use Rattle.shared_store.specs.Fronts.{front_of};
ghost use Rattle.shared_store.specs.Passes.{PortKept, kept_of};
ghost use Rattle.shared_store.specs.Trails.{entry_client};
ghost use Rattle.crew.specs.Posts.{IsCounted, own_calls};
ghost use Rattle.stops_core.specs.Stops.{is_stop};

use crate::gates::Gate;
use causes::one_more;
use shared_store::{CountedStore, SharedPort};
use std::alloc::AllocError;
use std::marker::Model;
use std::thread;
use store_core::{Call, Port, Store, Turn};
use turnstile::Pass;

/// A worker's way to the shared store: a port of its own, which asks the gate once before each call and counts the calls.
#[derive(Drop)]
pub struct WorkerPort<'a, S: Store, G: Gate> {
    port: SharedPort<'a, S>,
    gate: &'a G,
    worker: u32,
    calls: u64,
    // Whether the gate was asked before the next call.
    asked: bool,
}

impl<'a, S: Store, G: Gate> Model for WorkerPort<'a, S, G> {
    ghost use Rattle.crew.specs.Posts.{IsCounted, WorkerPortValue};

    ghost Value = { WorkerPortValue S };

    ghost view = { λ p. record { port = p.port; calls = p.calls } };

    ghost invariant = { λ p. IsCounted S.history p.port p.calls };
}

impl<'a, S: Store, G: Gate> WorkerPort<'a, S, G> {
    /// A port at which no call was made yet.
    pub fn new(port: SharedPort<'a, S>, gate: &'a G, worker: u32) -> WorkerPort<'a, S, G>
        requires fresh { own_calls port.known ≡ 0 }
        ensures { result.port ≡ port.entry }
    {
        WorkerPort {
            port,
            gate,
            worker,
            calls: 0,
            asked: false,
        }
    }

    /// Whether as many calls were made as a stop number says, where there is one.
    pub fn is_at(&self, stop: Option<u64>) -> bool
        ensures value { result ≡ is_stop stop self.now.calls }
        ensures counted { IsCounted S.history self.now.port self.now.calls }
    {
        match stop {
            Some(calls) => self.calls == calls,
            None => false,
        }
    }

    /// The pass of its port.
    pub fn back(self) -> Pass<CountedStore<S>>
        ensures pass { IsPassAt entry_client self.entry.port.table self.entry.port.known.start result }
        ensures known { view result ≡ self.entry.port.known }
    {
        let WorkerPort {
            port,
            gate: _,
            worker: _,
            calls: _,
            asked: _,
        } = self;
        port.back()
    }

    // Asks the gate, once before each call.
    fn pass_gate(&mut self)
        ensures port { self.new.port ≡ self.old.port }
        ensures calls { self.new.calls ≡ self.old.calls }
    {
        if !self.asked {
            self.gate.before(self.worker, self.calls.saturating_add(1));
            self.asked = true;
        }
    }
}

impl<'a, S: Store, G: Gate> Port for WorkerPort<'a, S, G> {
    ghost client = { λ p. p.port.known.number };

    ghost front = { λ p. front_of S.history p.port.known };

    ghost faults = { λ p. p.port.faults };

    ghost misses = { λ p. p.port.known.misses };

    ghost Kept = { PortKept S };

    ghost kept = { λ p. kept_of p.port };

    /// One call through its own port, after the gate was asked. Where the turn was found held it first yields the processor.
    fn try_call(&mut self, call: &Call) -> Result<Turn, AllocError>
        ensures seen { IfOk result (λ turn. Sees self.old.port.known.number
            (front_of S.history self.old.port.known) (front_of S.history self.new.port.known) call.now turn) }
        ensures memory { OnErr result (GrowsByOthers self.old.port.known.number
            (front_of S.history self.old.port.known) (front_of S.history self.new.port.known)) }
        ensures client { self.new.port.known.number ≡ self.old.port.known.number }
        ensures shape { IfOk result (λ turn. IsTurnFor call.now turn) }
        ensures busy { result ≡ Ok Turn.Busy → self.old.port.known.misses < self.new.port.known.misses }
        ensures cause { IfOk result (λ turn. IsFailure turn → Rose self.old.port.faults self.new.port.faults) }
        ensures faults { self.old.port.faults ≤ self.new.port.faults }
        ensures misses { self.old.port.known.misses ≤ self.new.port.known.misses }
        ensures kept { kept_of self.new.port ≡ kept_of self.old.port }
    {
        self.pass_gate();
        self.call_store(call)
    }
}

impl<'a, S: Store, G: Gate> WorkerPort<'a, S, G> {
    // One call through its own port, which is counted where it is answered.
    fn call_store(&mut self, call: &Call) -> Result<Turn, AllocError>
        ensures seen { IfOk result (λ turn. Sees self.old.port.known.number
            (front_of S.history self.old.port.known) (front_of S.history self.new.port.known) call.now turn) }
        ensures memory { OnErr result (GrowsByOthers self.old.port.known.number
            (front_of S.history self.old.port.known) (front_of S.history self.new.port.known)) }
        ensures client { self.new.port.known.number ≡ self.old.port.known.number }
        ensures shape { IfOk result (λ turn. IsTurnFor call.now turn) }
        ensures busy { result ≡ Ok Turn.Busy → self.old.port.known.misses < self.new.port.known.misses }
        ensures cause { IfOk result (λ turn. IsFailure turn → Rose self.old.port.faults self.new.port.faults) }
        ensures faults { self.old.port.faults ≤ self.new.port.faults }
        ensures misses { self.old.port.known.misses ≤ self.new.port.known.misses }
        ensures kept { kept_of self.new.port ≡ kept_of self.old.port }
    {
        let turn = self.port.try_call(call)?;
        match &turn {
            Turn::Busy => thread::yield_now(),
            Turn::Reply(_) => {
                self.calls = one_more(self.calls);
                self.asked = false;
            }
        }
        Ok(turn)
    }
}
