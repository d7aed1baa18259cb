// What follows a poll of an operator's inner machine; and the rows that were read, bound before the next one.
ghost use Rattle.std.specs.Prelude.{◌≡◌, OnErr, OnOk};
ghost use Rattle.reclock_client.specs.Commands as commands;
ghost use Rattle.reclock_client.specs.Commands.{IfDone, IsForth};
ghost use Rattle.reclock_client.specs.Operators.{IsCourse, Settles};
ghost use Rattle.reclock_client.specs.Polling.{Halts, bound};

use crate::clock_answers::ClockAnswer;
use crate::courses::Course;
use crate::intakes::Intake;
use crate::steps::Step;
use crate::taking::bound_on;
use history_core::{ReadAnswer, WriteAnswer};
use load_core::Poll;
use std::alloc::{AllocError, Global};
use std::mem;
use update_core::Frontier;

impl Course {
    /// Binds the rows that were read. It fails only for want of memory, and those that are left then stay.
    pub fn bind(&mut self, alloc: Global) -> Result<(), AllocError>
        requires { IsCourse self.old }
        ensures bound { OnOk result (self.new ≡ bound self.old) }
        ensures memory { OnErr result (Halts self.old self.new) }
        ensures course { IsCourse self.new }
    {
        let since = self.since;
        let intake = mem::replace(&mut self.intake, Intake::Nothing);
        self.intake = bound_on(alloc, &mut self.bindings, since, intake);
        match &self.intake {
            Intake::Nothing => Ok(()),
            _ => Err(AllocError),
        }
    }

    /// The command ends without an answer. A member may then be gone that was to join or to leave.
    pub fn break_off(&mut self)
        ensures after { self.new ≡ commands.broken self.old }
        ensures course { Settles self.old self.new }
    {
        self.errand = None;
        if changes_member(self.step) {
            self.joined = false;
        }
    }

    /// What follows a poll of the remap shard's writer.
    pub fn after_remap_poll(&mut self, poll: Poll<WriteAnswer>) -> Poll<ClockAnswer>
        ensures next { (self.new, result) ≡ commands.after_poll (commands.after_remap_writer self.old self.old.step) self.old poll }
        ensures course { Settles self.old self.new }
        ensures forth { IfDone poll (IsForth result) }
    {
        match poll {
            Poll::Busy => Poll::Busy,
            Poll::More => Poll::More,
            Poll::Fault => Poll::Fault,
            Poll::Spent => {
                self.break_off();
                Poll::Spent
            }
            Poll::Damaged(damage) => {
                self.break_off();
                Poll::Damaged(damage)
            }
            Poll::Done(answer) => self.after_remap_writer(&answer),
        }
    }

    /// The same of the data shard's writer.
    pub fn after_data_poll(&mut self, poll: Poll<WriteAnswer>) -> Poll<ClockAnswer>
        ensures next { (self.new, result) ≡ commands.after_poll (commands.after_data_writer self.old self.old.step) self.old poll }
        ensures course { Settles self.old self.new }
        ensures forth { IfDone poll (IsForth result) }
    {
        match poll {
            Poll::Busy => Poll::Busy,
            Poll::More => Poll::More,
            Poll::Fault => Poll::Fault,
            Poll::Spent => {
                self.break_off();
                Poll::Spent
            }
            Poll::Damaged(damage) => {
                self.break_off();
                Poll::Damaged(damage)
            }
            Poll::Done(answer) => self.after_data_writer(&answer),
        }
    }

    /// The same of the reader.
    pub fn after_reader_poll(&mut self, alloc: Global, poll: Poll<ReadAnswer>) -> Poll<ClockAnswer>
        ensures next { (self.new, result) ≡ commands.after_poll (commands.after_reader self.old self.old.step) self.old poll }
        ensures course { Settles self.old self.new }
        ensures forth { IfDone poll (IsForth result) }
    {
        match poll {
            Poll::Busy => Poll::Busy,
            Poll::More => Poll::More,
            Poll::Fault => Poll::Fault,
            Poll::Spent => {
                self.break_off();
                Poll::Spent
            }
            Poll::Damaged(damage) => {
                self.break_off();
                Poll::Damaged(damage)
            }
            Poll::Done(answer) => self.after_reader(alloc, answer),
        }
    }

    /// The same of a look.
    pub fn after_look_poll(&mut self, poll: Poll<Frontier>) -> Poll<ClockAnswer>
        ensures next { (self.new, result) ≡ commands.after_poll (commands.published_from self.old) self.old poll }
        ensures course { Settles self.old self.new }
        ensures forth { IfDone poll (IsForth result) }
    {
        match poll {
            Poll::Busy => Poll::Busy,
            Poll::More => Poll::More,
            Poll::Fault => Poll::Fault,
            Poll::Spent => {
                self.break_off();
                Poll::Spent
            }
            Poll::Damaged(damage) => {
                self.break_off();
                Poll::Damaged(damage)
            }
            Poll::Done(upper) => self.after_look(upper),
        }
    }
}

fn changes_member(step: Step) -> bool
    ensures { result ≡ commands.changes_member step }
{
    match step {
        Step::JoinRemap
        | Step::JoinReader
        | Step::JoinData
        | Step::LeaveRemap
        | Step::LeaveReader
        | Step::LeaveData => true,
        _ => false,
    }
}
