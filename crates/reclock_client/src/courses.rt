// Course: where an operator stands, and what follows each answer of its inner machines.
ghost use Rattle.std.specs.Prelude.{◌≡◌};
ghost use Rattle.reclock_client.specs.Commands as commands;
ghost use Rattle.reclock_client.specs.Commands.{IsForth, ends, ends_gone, goes};
ghost use Rattle.reclock_client.specs.Operators.{Settles};

use crate::clock_answers::ClockAnswer;
use crate::errands::Errand;
use crate::intakes::Intake;
use crate::steps::Step;
use history_core::WriteAnswer;
use load_core::{Damage, Poll};
use remap_core::Bindings;
use update_core::Frontier;

/// Where an operator stands: what it knows of the remap shard, what its open command is for, and which inner command is next. See
/// docs/DEFINITIONS.md, "Operators".
#[derive(Drop)]
pub struct Course {
    /// The since at which the reader joined.
    pub since: u64,
    /// The bindings from the rows that were read.
    pub bindings: Bindings,
    /// Rows that were read and are still to be bound.
    pub intake: Intake,
    /// The frontier up to which the remap shard was read.
    pub synced: Frontier,
    /// Whether the reader has a listen from there on.
    pub listens: bool,
    /// What the open command is for.
    pub errand: Option<Errand>,
    /// Which inner command is open or next.
    pub step: Step,
    /// Whether each of the three clients has a member.
    pub joined: bool,
}

impl Course {
    // The command goes on by a step.
    pub(crate) fn go(&mut self, step: Step) -> Poll<ClockAnswer>
        ensures next { (self.new, result) ≡ goes self.old step }
        ensures course { Settles self.old self.new }
        ensures forth { IsForth result }
    {
        self.step = step;
        Poll::More
    }

    // The command is answered.
    pub(crate) fn end(&mut self, answer: ClockAnswer) -> Poll<ClockAnswer>
        ensures next { (self.new, result) ≡ ends self.old answer }
        ensures course { Settles self.old self.new }
        ensures forth { IsForth result }
    {
        self.errand = None;
        Poll::Done(answer)
    }

    // The same, and a member is gone.
    pub(crate) fn end_gone(&mut self, answer: ClockAnswer) -> Poll<ClockAnswer>
        ensures next { (self.new, result) ≡ ends_gone self.old answer }
        ensures course { Settles self.old self.new }
        ensures forth { IsForth result }
    {
        self.errand = None;
        self.joined = false;
        Poll::Done(answer)
    }

    // An inner command has an answer that isn't one of its own.
    pub(crate) fn strange(&mut self) -> Poll<ClockAnswer>
        ensures next { (self.new, result) ≡ commands.strange self.old }
        ensures course { Settles self.old self.new }
        ensures forth { IsForth result }
    {
        self.errand = None;
        self.joined = false;
        Poll::Damaged(Damage::Member {
            member: 0,
            version: 0,
        })
    }

    /// The step with which a reading of the remap shard begins.
    pub fn reading_step(&self) -> Step
        ensures { result ≡ commands.reading_step self.now }
    {
        if self.listens {
            Step::Next
        } else {
            Step::Snapshot
        }
    }

    // A mint appends where the upper is at or below its time.
    fn minted_at(&mut self, time: u64, upper: Frontier) -> Poll<ClockAnswer>
        ensures next { (self.new, result) ≡ commands.minted_at self.old time upper }
        ensures course { Settles self.old self.new }
        ensures forth { IsForth result }
    {
        match upper.time() {
            None => self.end(ClockAnswer::Lost { upper }),
            Some(from) => {
                if from <= time {
                    self.go(Step::AppendRemap { from })
                } else {
                    self.end(ClockAnswer::Lost { upper })
                }
            }
        }
    }

    // The remap shard has been read.
    pub(crate) fn read_all(&mut self) -> Poll<ClockAnswer>
        ensures next { (self.new, result) ≡ commands.read_all self.old self.old.errand }
        ensures course { Settles self.old self.new }
        ensures forth { IsForth result }
    {
        let upper = self.synced;
        match &self.errand {
            Some(Errand::Sync) => self.end(ClockAnswer::Synced { upper }),
            Some(Errand::Mint { time, .. }) => {
                let time = *time;
                self.minted_at(time, upper)
            }
            _ => self.strange(),
        }
    }

    // The rows between the data shard's upper and the synced frontier are to be appended, where there are times between them.
    fn published_from(&mut self, upper: Frontier) -> Poll<ClockAnswer>
        ensures next { (self.new, result) ≡ commands.published_from self.old upper }
        ensures course { Settles self.old self.new }
        ensures forth { IsForth result }
    {
        let synced = self.synced;
        match upper.time() {
            None => self.end(ClockAnswer::Published { upper: synced }),
            Some(from) => {
                if synced.covers(from) {
                    self.go(Step::AppendData { from })
                } else {
                    self.end(ClockAnswer::Published { upper: synced })
                }
            }
        }
    }

    /// What follows the look at the data shard's upper.
    pub fn after_look(&mut self, upper: Frontier) -> Poll<ClockAnswer>
        ensures next { (self.new, result) ≡ commands.published_from self.old upper }
        ensures course { Settles self.old self.new }
        ensures forth { IsForth result }
    {
        self.published_from(upper)
    }

    fn after_join_remap(&mut self, answer: &WriteAnswer) -> Poll<ClockAnswer>
        ensures next { (self.new, result) ≡ commands.after_join_remap self.old self.old.errand answer.now }
        ensures course { Settles self.old self.new }
        ensures forth { IsForth result }
    {
        match answer {
            WriteAnswer::Opened { .. } => match &self.errand {
                Some(Errand::Open) => self.go(Step::JoinReader),
                Some(Errand::Mint { .. }) => {
                    let step = self.reading_step();
                    self.go(step)
                }
                _ => self.strange(),
            },
            WriteAnswer::MembersFull { version } => {
                self.end_gone(ClockAnswer::MembersFull { version: *version })
            }
            _ => self.strange(),
        }
    }

    fn after_append_remap(&mut self, answer: &WriteAnswer) -> Poll<ClockAnswer>
        ensures next { (self.new, result) ≡ commands.after_append_remap self.old self.old.errand answer.now }
        ensures course { Settles self.old self.new }
        ensures forth { IsForth result }
    {
        match answer {
            WriteAnswer::Ok => match &self.errand {
                Some(Errand::Mint { time, .. }) => {
                    let time = *time;
                    self.end(ClockAnswer::Minted { time })
                }
                _ => self.strange(),
            },
            WriteAnswer::Mismatch { .. } => match &self.errand {
                Some(Errand::Mint { .. }) => {
                    let step = self.reading_step();
                    self.go(step)
                }
                _ => self.strange(),
            },
            WriteAnswer::Heavy { weight } => self.end(ClockAnswer::Heavy { weight: *weight }),
            _ => self.strange(),
        }
    }

    fn after_leave_remap(&mut self, answer: &WriteAnswer) -> Poll<ClockAnswer>
        ensures next { (self.new, result) ≡ commands.after_leave_remap self.old self.old.errand answer.now }
        ensures course { Settles self.old self.new }
        ensures forth { IsForth result }
    {
        match answer {
            WriteAnswer::Closed { .. } => match &self.errand {
                Some(Errand::Close) => self.go(Step::LeaveReader),
                Some(Errand::Mint { .. }) => self.go(Step::JoinRemap),
                _ => self.strange(),
            },
            _ => self.strange(),
        }
    }

    /// What follows an answer of the remap shard's writer.
    pub fn after_remap_writer(&mut self, answer: &WriteAnswer) -> Poll<ClockAnswer>
        ensures next { (self.new, result) ≡ commands.after_remap_writer self.old self.old.step answer.now }
        ensures course { Settles self.old self.new }
        ensures forth { IsForth result }
    {
        match self.step {
            Step::JoinRemap => self.after_join_remap(answer),
            Step::AppendRemap { .. } => self.after_append_remap(answer),
            Step::LeaveRemap => self.after_leave_remap(answer),
            _ => self.strange(),
        }
    }

    fn after_join_data(&mut self, answer: &WriteAnswer) -> Poll<ClockAnswer>
        ensures next { (self.new, result) ≡ commands.after_join_data self.old self.old.errand answer.now }
        ensures course { Settles self.old self.new }
        ensures forth { IsForth result }
    {
        match answer {
            WriteAnswer::Opened { .. } => match &self.errand {
                Some(Errand::Open) => {
                    self.joined = true;
                    self.end(ClockAnswer::Opened)
                }
                Some(Errand::Publish { .. }) => self.go(Step::Look),
                _ => self.strange(),
            },
            WriteAnswer::MembersFull { version } => {
                self.end_gone(ClockAnswer::MembersFull { version: *version })
            }
            _ => self.strange(),
        }
    }

    fn after_append_data(&mut self, answer: &WriteAnswer) -> Poll<ClockAnswer>
        ensures next { (self.new, result) ≡ commands.after_append_data self.old answer.now }
        ensures course { Settles self.old self.new }
        ensures forth { IsForth result }
    {
        match answer {
            WriteAnswer::Ok => {
                let upper = self.synced;
                self.end(ClockAnswer::Published { upper })
            }
            WriteAnswer::Mismatch { current } => self.published_from(*current),
            WriteAnswer::Heavy { weight } => self.end(ClockAnswer::Heavy { weight: *weight }),
            _ => self.strange(),
        }
    }

    fn after_leave_data(&mut self, answer: &WriteAnswer) -> Poll<ClockAnswer>
        ensures next { (self.new, result) ≡ commands.after_leave_data self.old self.old.errand answer.now }
        ensures course { Settles self.old self.new }
        ensures forth { IsForth result }
    {
        match answer {
            WriteAnswer::Closed { .. } => match &self.errand {
                Some(Errand::Close) => self.end_gone(ClockAnswer::Closed),
                Some(Errand::Publish { .. }) => self.go(Step::JoinData),
                _ => self.strange(),
            },
            _ => self.strange(),
        }
    }

    /// What follows an answer of the data shard's writer.
    pub fn after_data_writer(&mut self, answer: &WriteAnswer) -> Poll<ClockAnswer>
        ensures next { (self.new, result) ≡ commands.after_data_writer self.old self.old.step answer.now }
        ensures course { Settles self.old self.new }
        ensures forth { IsForth result }
    {
        match self.step {
            Step::JoinData => self.after_join_data(answer),
            Step::AppendData { .. } => self.after_append_data(answer),
            Step::LeaveData => self.after_leave_data(answer),
            _ => self.strange(),
        }
    }
}
