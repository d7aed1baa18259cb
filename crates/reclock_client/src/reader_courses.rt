// What follows an answer of an operator's reader.
ghost use Rattle.std.specs.Prelude.{◌≡◌};
ghost use Rattle.history_core.specs.declared.read_answers.ReadAnswer.TheVariants as reads;
ghost use Rattle.reclock_client.specs.Commands as commands;
ghost use Rattle.reclock_client.specs.Commands.{IsForth};
ghost use Rattle.reclock_client.specs.Operators.{Settles};

use crate::clock_answers::ClockAnswer;
use crate::courses::Course;
use crate::intakes::Intake;
use crate::sightings::{foreign_change, foreign_row, in_time};
use crate::steps::Step;
use history_core::ReadAnswer;
use load_core::Poll;
use remap_core::{Bindings, SourceFrontier};
use std::alloc::Global;
use update_core::{Frontier, RowList, UpdateList};

impl Course {
    // Nothing is known.
    fn forget(&mut self, alloc: Global)
        ensures forgotten { self.new ≡ commands.forgotten self.old }
        ensures course { Settles self.old self.new }
    {
        self.bindings = Bindings::new(alloc);
        self.intake = Intake::Nothing;
        self.synced = Frontier::at(0);
        self.listens = false;
    }

    fn after_join_reader(&mut self, alloc: Global, answer: &ReadAnswer) -> Poll<ClockAnswer>
        ensures next { (self.new, result) ≡ commands.after_join_reader self.old answer.now }
        ensures course { Settles self.old self.new }
        ensures forth { IsForth result }
    {
        match answer {
            ReadAnswer::Opened { since, .. } => {
                self.since = *since;
                self.forget(alloc);
                self.go(Step::JoinData)
            }
            ReadAnswer::MembersFull { version } => {
                self.end_gone(ClockAnswer::MembersFull { version: *version })
            }
            _ => self.strange(),
        }
    }

    // The content at the reader's since.
    fn with_content(&mut self, alloc: Global, rows: RowList) -> Poll<ClockAnswer>
        ensures next { (self.new, result) ≡ commands.after_snapshot self.old (ReadAnswer.Rows rows) }
        ensures course { Settles self.old self.new }
        ensures forth { IsForth result }
    {
        self.listens = false;
        if let Some(time) = foreign_row(self.since, &SourceFrontier::new(), rows.as_slice()) {
            return self.end(ClockAnswer::Foreign { time });
        }
        self.bindings = Bindings::new(alloc);
        self.intake = Intake::Content { rows };
        self.synced = Frontier::after(self.since);
        self.go(Step::Listen)
    }

    // The upper isn't past the reader's since.
    fn with_late(&mut self, alloc: Global, upper: Frontier) -> Poll<ClockAnswer>
        ensures next { (self.new, result) ≡ commands.with_late self.old upper }
        ensures course { Settles self.old self.new }
        ensures forth { IsForth result }
    {
        let since = self.since;
        if !upper.is_at(0) {
            return self.end(ClockAnswer::Early { since });
        }
        self.forget(alloc);
        self.read_all()
    }

    fn after_snapshot(&mut self, alloc: Global, answer: ReadAnswer) -> Poll<ClockAnswer>
        ensures next { (self.new, result) ≡ commands.after_snapshot self.old answer }
        ensures course { Settles self.old self.new }
        ensures forth { IsForth result }
    {
        match answer {
            ReadAnswer::Rows(rows) => self.with_content(alloc, rows),
            ReadAnswer::Late { upper } => self.with_late(alloc, upper),
            ReadAnswer::Early { since } => self.end(ClockAnswer::Early { since }),
            ReadAnswer::Expired { version } => self.end_gone(ClockAnswer::Expired { version }),
            _ => self.strange(),
        }
    }

    // The rows of a step of the listen, up to a frontier.
    fn with_step(&mut self, rows: UpdateList, to: Frontier) -> Poll<ClockAnswer>
        ensures next { (self.new, result) ≡ commands.with_step self.old rows to }
        ensures course { Settles self.old self.new }
        ensures forth { IsForth result }
    {
        if !in_time(self.bindings.last_time(), rows.as_slice()) {
            return self.strange();
        }
        if let Some(time) = foreign_change(&self.bindings.reached(), rows.as_slice()) {
            self.listens = false;
            return self.end(ClockAnswer::Foreign { time });
        }
        self.intake = Intake::Changes { rows, done: 0 };
        self.synced = to;
        self.listens = true;
        self.go(Step::Next)
    }

    fn after_listen(&mut self, answer: ReadAnswer) -> Poll<ClockAnswer>
        ensures next { (self.new, result) ≡ commands.after_listen self.old answer }
        ensures course { Settles self.old self.new }
        ensures forth { IsForth result }
    {
        match answer {
            ReadAnswer::Step { to, rows, .. } => self.with_step(rows, to),
            ReadAnswer::Quiet { .. } | ReadAnswer::Ended => {
                self.listens = true;
                self.read_all()
            }
            ReadAnswer::Early { since } => {
                self.listens = false;
                self.end(ClockAnswer::Early { since })
            }
            ReadAnswer::Expired { version } => self.end_gone(ClockAnswer::Expired { version }),
            _ => self.strange(),
        }
    }

    fn after_leave_reader(&mut self, answer: &ReadAnswer) -> Poll<ClockAnswer>
        ensures next { (self.new, result) ≡ commands.after_leave_reader self.old answer.now }
        ensures course { Settles self.old self.new }
        ensures forth { IsForth result }
    {
        match answer {
            ReadAnswer::Closed { .. } => self.go(Step::LeaveData),
            _ => self.strange(),
        }
    }

    /// What follows an answer of the reader.
    pub fn after_reader(&mut self, alloc: Global, answer: ReadAnswer) -> Poll<ClockAnswer>
        ensures next { (self.new, result) ≡ commands.after_reader self.old self.old.step answer }
        ensures course { Settles self.old self.new }
        ensures forth { IsForth result }
    {
        match self.step {
            Step::JoinReader => self.after_join_reader(alloc, &answer),
            Step::Snapshot => self.after_snapshot(alloc, answer),
            Step::Listen | Step::Next => self.after_listen(answer),
            Step::LeaveReader => self.after_leave_reader(&answer),
            _ => self.strange(),
        }
    }
}
