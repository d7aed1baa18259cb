// A poll of an operator: the inner command that is next is begun, unless it is open, and its machine is polled once.
ghost use Rattle.std.specs.Prelude.{◌≡◌, ◌<◌, ◌≤◌, Ok, IfOk, IsSome, OnErr};
ghost use Rattle.causes.specs.Causes.{Rose};
ghost use Rattle.load_core.specs.declared.polls.Poll.TheVariants as polls;
ghost use Rattle.reclock_client.specs.Asking.{InTurn};
ghost use Rattle.reclock_client.specs.Knowing.{Counts, Knows};
ghost use Rattle.reclock_client.specs.Operators.{Follows, IsOpen, IsSound};
ghost use Rattle.reclock_client.specs.Parts.{part_of};
ghost use Rattle.reclock_client.specs.Polling as polling;
ghost use Rattle.reclock_client.specs.Polling.{Polled, Unpolled};

use crate::clock_answers::ClockAnswer;
use crate::intakes::Intake;
use crate::operators::Operator;
use crate::steps::Part;
use load_core::Poll;
use std::alloc::{AllocError, Global};
use store_core::Port;

// The calls of the inner commands that have ended, after a poll of one that has made so many.
fn counted<A>(poll: &Poll<A>, ended: u64, calls: u64) -> u64
    ensures { result ≡ polling.counted poll.now ended calls }
{
    match poll {
        Poll::Busy | Poll::More | Poll::Fault => ended,
        _ => ended.saturating_add(calls),
    }
}

impl Operator {
    // The remap shard's writer is polled.
    fn poll_remap_writer<P: Port>(
        &mut self,
        alloc: Global,
        port: &mut P,
    ) -> Result<Poll<ClockAnswer>, AllocError>
        requires open { IsOpen self.old (part_of self.old.course.step) }
        requires part { part_of self.old.course.step ≡ Part.RemapWriter }
        requires taken { self.old.course.intake ≡ Intake.Nothing }
        requires sound { IsSound self.old }
        requires turn { InTurn self.old }
        requires busy { IsSome self.old.course.errand }
        requires follows { Follows (P.client port.old) (P.front port.old) self.old }
        ensures polled { IfOk result (polling.PolledBy (part_of self.old.course.step) (P.client port.old) (P.front port.old) (P.front port.new)
            self.old self.new) }
        ensures memory { OnErr result (polling.UnpolledBy (part_of self.old.course.step) (P.client port.old) (P.front port.old) (P.front port.new)
            self.old self.new) }
        ensures sound { IsSound self.new }
        ensures turn { InTurn self.new }
        ensures follows { Follows (P.client port.old) (P.front port.new) self.new }
        ensures knows { Knows (P.front port.old) self.old → Counts self.new → Knows (P.front port.new) self.new }
        ensures busy { result ≡ Ok polls.Busy → P.misses port.old < P.misses port.new }
        ensures fault { result ≡ Ok polls.Fault → Rose (P.faults port.old) (P.faults port.new) }
        ensures faults { P.faults port.old ≤ P.faults port.new }
        ensures misses { P.misses port.old ≤ P.misses port.new }
        ensures client { P.client port.new ≡ P.client port.old }
        ensures kept { P.kept port.new ≡ P.kept port.old }
    {
        let poll = self.remap_writer.poll(alloc, port)?;
        self.calls = counted(&poll, self.calls, self.remap_writer.calls());
        Ok(self.course.after_remap_poll(poll))
    }

    // The reader is polled.
    fn poll_reader<P: Port>(
        &mut self,
        alloc: Global,
        port: &mut P,
    ) -> Result<Poll<ClockAnswer>, AllocError>
        requires open { IsOpen self.old (part_of self.old.course.step) }
        requires part { part_of self.old.course.step ≡ Part.Reader }
        requires taken { self.old.course.intake ≡ Intake.Nothing }
        requires sound { IsSound self.old }
        requires turn { InTurn self.old }
        requires busy { IsSome self.old.course.errand }
        requires follows { Follows (P.client port.old) (P.front port.old) self.old }
        ensures polled { IfOk result (polling.PolledBy (part_of self.old.course.step) (P.client port.old) (P.front port.old) (P.front port.new)
            self.old self.new) }
        ensures memory { OnErr result (polling.UnpolledBy (part_of self.old.course.step) (P.client port.old) (P.front port.old) (P.front port.new)
            self.old self.new) }
        ensures sound { IsSound self.new }
        ensures turn { InTurn self.new }
        ensures follows { Follows (P.client port.old) (P.front port.new) self.new }
        ensures knows { Knows (P.front port.old) self.old → Counts self.new → Knows (P.front port.new) self.new }
        ensures busy { result ≡ Ok polls.Busy → P.misses port.old < P.misses port.new }
        ensures fault { result ≡ Ok polls.Fault → Rose (P.faults port.old) (P.faults port.new) }
        ensures faults { P.faults port.old ≤ P.faults port.new }
        ensures misses { P.misses port.old ≤ P.misses port.new }
        ensures client { P.client port.new ≡ P.client port.old }
        ensures kept { P.kept port.new ≡ P.kept port.old }
    {
        let poll = self.reader.poll(alloc, port)?;
        self.calls = counted(&poll, self.calls, self.reader.calls());
        Ok(self.course.after_reader_poll(alloc, poll))
    }

    // The data shard's writer is polled.
    fn poll_data_writer<P: Port>(
        &mut self,
        alloc: Global,
        port: &mut P,
    ) -> Result<Poll<ClockAnswer>, AllocError>
        requires open { IsOpen self.old (part_of self.old.course.step) }
        requires part { part_of self.old.course.step ≡ Part.DataWriter }
        requires taken { self.old.course.intake ≡ Intake.Nothing }
        requires sound { IsSound self.old }
        requires turn { InTurn self.old }
        requires busy { IsSome self.old.course.errand }
        requires follows { Follows (P.client port.old) (P.front port.old) self.old }
        ensures polled { IfOk result (polling.PolledBy (part_of self.old.course.step) (P.client port.old) (P.front port.old) (P.front port.new)
            self.old self.new) }
        ensures memory { OnErr result (polling.UnpolledBy (part_of self.old.course.step) (P.client port.old) (P.front port.old) (P.front port.new)
            self.old self.new) }
        ensures sound { IsSound self.new }
        ensures turn { InTurn self.new }
        ensures follows { Follows (P.client port.old) (P.front port.new) self.new }
        ensures knows { Knows (P.front port.old) self.old → Counts self.new → Knows (P.front port.new) self.new }
        ensures busy { result ≡ Ok polls.Busy → P.misses port.old < P.misses port.new }
        ensures fault { result ≡ Ok polls.Fault → Rose (P.faults port.old) (P.faults port.new) }
        ensures faults { P.faults port.old ≤ P.faults port.new }
        ensures misses { P.misses port.old ≤ P.misses port.new }
        ensures client { P.client port.new ≡ P.client port.old }
        ensures kept { P.kept port.new ≡ P.kept port.old }
    {
        let poll = self.data_writer.poll(alloc, port)?;
        self.calls = counted(&poll, self.calls, self.data_writer.calls());
        Ok(self.course.after_data_poll(poll))
    }

    // The data shard's upper is looked at.
    fn poll_looker<P: Port>(
        &mut self,
        alloc: Global,
        port: &mut P,
    ) -> Result<Poll<ClockAnswer>, AllocError>
        requires open { IsOpen self.old (part_of self.old.course.step) }
        requires part { part_of self.old.course.step ≡ Part.Looker }
        requires taken { self.old.course.intake ≡ Intake.Nothing }
        requires sound { IsSound self.old }
        requires turn { InTurn self.old }
        requires busy { IsSome self.old.course.errand }
        requires follows { Follows (P.client port.old) (P.front port.old) self.old }
        ensures polled { IfOk result (polling.PolledBy (part_of self.old.course.step) (P.client port.old) (P.front port.old) (P.front port.new)
            self.old self.new) }
        ensures memory { OnErr result (polling.UnpolledBy (part_of self.old.course.step) (P.client port.old) (P.front port.old) (P.front port.new)
            self.old self.new) }
        ensures sound { IsSound self.new }
        ensures turn { InTurn self.new }
        ensures follows { Follows (P.client port.old) (P.front port.new) self.new }
        ensures knows { Knows (P.front port.old) self.old → Counts self.new → Knows (P.front port.new) self.new }
        ensures busy { result ≡ Ok polls.Busy → P.misses port.old < P.misses port.new }
        ensures fault { result ≡ Ok polls.Fault → Rose (P.faults port.old) (P.faults port.new) }
        ensures faults { P.faults port.old ≤ P.faults port.new }
        ensures misses { P.misses port.old ≤ P.misses port.new }
        ensures client { P.client port.new ≡ P.client port.old }
        ensures kept { P.kept port.new ≡ P.kept port.old }
    {
        let poll = machine_core::poll(&mut self.looker, alloc, port)?;
        self.calls = counted(&poll, self.calls, self.looker.trying.calls);
        Ok(self.course.after_look_poll(poll))
    }

    // The inner machine whose command is open is polled.
    fn poll_ready<P: Port>(
        &mut self,
        alloc: Global,
        port: &mut P,
    ) -> Result<Poll<ClockAnswer>, AllocError>
        requires open { IsOpen self.old (part_of self.old.course.step) }
        requires taken { self.old.course.intake ≡ Intake.Nothing }
        requires sound { IsSound self.old }
        requires turn { InTurn self.old }
        requires busy { IsSome self.old.course.errand }
        requires follows { Follows (P.client port.old) (P.front port.old) self.old }
        ensures polled { IfOk result (polling.PolledBy (part_of self.old.course.step) (P.client port.old) (P.front port.old) (P.front port.new)
            self.old self.new) }
        ensures memory { OnErr result (polling.UnpolledBy (part_of self.old.course.step) (P.client port.old) (P.front port.old) (P.front port.new)
            self.old self.new) }
        ensures sound { IsSound self.new }
        ensures turn { InTurn self.new }
        ensures follows { Follows (P.client port.old) (P.front port.new) self.new }
        ensures knows { Knows (P.front port.old) self.old → Counts self.new → Knows (P.front port.new) self.new }
        ensures busy { result ≡ Ok polls.Busy → P.misses port.old < P.misses port.new }
        ensures fault { result ≡ Ok polls.Fault → Rose (P.faults port.old) (P.faults port.new) }
        ensures faults { P.faults port.old ≤ P.faults port.new }
        ensures misses { P.misses port.old ≤ P.misses port.new }
        ensures client { P.client port.new ≡ P.client port.old }
        ensures kept { P.kept port.new ≡ P.kept port.old }
    {
        match self.course.step.part() {
            Part::RemapWriter => self.poll_remap_writer(alloc, port),
            Part::Reader => self.poll_reader(alloc, port),
            Part::DataWriter => self.poll_data_writer(alloc, port),
            Part::Looker => self.poll_looker(alloc, port),
        }
    }

    /// Goes on with the open command by one call of the store, through this port, unless the port finds the store taken. It fails only
    /// for want of memory: the command stays open, nothing was changed in the store, and the next poll makes the same call again.
    /// See docs/DEFINITIONS.md, "Polls" and "Operators".
    pub fn poll<P: Port>(
        &mut self,
        alloc: Global,
        port: &mut P,
    ) -> Result<Poll<ClockAnswer>, AllocError>
        requires open { IsSome self.old.course.errand }
        requires sound { IsSound self.old }
        requires turn { InTurn self.old }
        // Over each told front that is lawful and starts as a collection, each machine follows from the client's own entries.
        requires follows { Follows (P.client port.old) (P.front port.old) self.old }
        // One inner machine is polled, whose command the step names, and what that comes to is the table's.
        ensures polled { IfOk result (Polled (P.client port.old) (P.front port.old) (P.front port.new) self.old self.new) }
        ensures memory { OnErr result (Unpolled (P.client port.old) (P.front port.old) (P.front port.new) self.old self.new) }
        ensures sound { IsSound self.new }
        ensures turn { InTurn self.new }
        ensures follows { Follows (P.client port.old) (P.front port.new) self.new }
        // What the operator knows stays no more than what its remap shard tells, until a command has made 2^64 - 1 calls.
        ensures knows { Knows (P.front port.old) self.old → Counts self.new → Knows (P.front port.new) self.new }
        ensures busy { result ≡ Ok polls.Busy → P.misses port.old < P.misses port.new }
        ensures fault { result ≡ Ok polls.Fault → Rose (P.faults port.old) (P.faults port.new) }
        ensures faults { P.faults port.old ≤ P.faults port.new }
        ensures misses { P.misses port.old ≤ P.misses port.new }
        ensures client { P.client port.new ≡ P.client port.old }
        ensures kept { P.kept port.new ≡ P.kept port.old }
    {
        self.course.bind(alloc)?;
        self.ready(alloc)?;
        self.poll_ready(alloc, port)
    }
}
