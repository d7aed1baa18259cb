// What a reply makes of a compactor.
ghost use Rattle.std.specs.Prelude.{◌≡◌, IfOk, IfSome, IsSome, OnErr};
ghost use Rattle.store_core.specs.Histories.{IsReplyTo};
ghost use Rattle.load_core.specs.Trying as trying;
ghost use Rattle.token_machine.specs.Storings as storing;
ghost use Rattle.token_machine.specs.Storings.{called};
ghost use Rattle.read_machine.specs.Courses.{counted, read_call};
ghost use Rattle.read_machine.specs.Readings as readings;
ghost use Rattle.merge_client.specs.Finding.{finding};
ghost use Rattle.merge_client.specs.Fitting.{bound_at};
ghost use Rattle.merge_client.specs.Merging.{IsOpen, IsSound, Moves, MovesAfterRead, MovesAfterTry, Wants, after_poll, call_of, change_poll, found_poll, given_after, gone_answer, in_answer, member_after, merge_poll, merge_refused, newest_number, noted, own_member, pair_of, read_poll, reading_on, strange, verdict, with_pair};

use crate::compactors::Compactor;
use crate::founds::Found;
use crate::pair_bounds::PairBound;
use crate::taking::taken;
use change_core::{Outcome, number_of, outcome_of};
use history_core::{Asked, MergeAnswer};
use load_core::{Damage, Poll, Tried};
use machine_core::Machine;
use state_core::Refusal;
use std::alloc::{AllocError, Global};
use store_core::Reply;
use token_machine::{Stored, stored_of};

impl Compactor {
    // What the reply comes to, before the compactor has settled by it.
    pub(crate) fn reaction(
        &mut self,
        alloc: Global,
        reply: Reply,
    ) -> Result<Poll<MergeAnswer>, AllocError>
        requires open { IsOpen self.old }
        requires sound { IsSound self.old }
        requires row { IfSome (call_of self.old) (λ call. IsReplyTo call reply) }
        ensures moves { IfOk result (λ poll. Moves self.old reply (after_poll self.new poll) poll) }
        ensures storing { storing.IsSound self.new.storing }
        ensures reading { readings.IsSound finding self.new.reading }
        ensures memory { OnErr result (Wants self.old self.new) }
    {
        if self.reading.asked.is_some() {
            return self.after_read(alloc, reply);
        }
        self.after_try(alloc, reply)
    }

    // What the reply to a call of a transition or of its parts comes to.
    fn after_try(&mut self, alloc: Global, reply: Reply) -> Result<Poll<MergeAnswer>, AllocError>
        requires open { IsOpen self.old }
        requires sound { storing.IsSound self.old.storing }
        requires row { IfSome (storing.call_of self.old.storing) (λ call. IsReplyTo call reply) }
        ensures moves { IfOk result (λ poll. MovesAfterTry self.old reply (after_poll self.new poll) poll) }
        ensures sound { storing.IsSound self.new.storing }
        ensures reading { self.new.reading ≡ self.old.reading }
        ensures memory { OnErr result (trying.IsScanning self.old.storing.trying.next × (self.new ≡ record self.old { storing = called self.old.storing })) }
    {
        match self.storing.react(alloc, reply) {
            Ok(tried) => Ok(self.verdict(tried)),
            Err(fault) => Err(fault),
        }
    }

    // What the reply to a call of the reading comes to.
    fn after_read(&mut self, alloc: Global, reply: Reply) -> Result<Poll<MergeAnswer>, AllocError>
        requires open { IsSome self.old.reading.asked }
        requires sound { readings.IsSound finding self.old.reading }
        requires storing { storing.IsSound self.old.storing }
        requires scanning { trying.IsScanning self.old.storing.trying.next }
        requires row { IfSome (read_call self.old.reading.course self.old.reading.course.stage) (λ call. IsReplyTo call reply) }
        ensures moves { IfOk result (λ poll. MovesAfterRead (noted self.old) reply (after_poll self.new poll) poll) }
        ensures reading { readings.IsSound finding self.new.reading }
        ensures next { self.new.storing.trying.next ≡ self.old.storing.trying.next }
        ensures setting { self.new.storing.setting ≡ self.old.storing.setting }
        ensures memory { OnErr result (self.new ≡ reading_on (noted self.old) (record self.old.reading { course = counted self.old.reading.course })) }
    {
        let bound = self.bound();
        self.note(bound);
        self.read_on(alloc, bound, reply)
    }

    // The same, where the rows of the left batch are counted.
    fn read_on(
        &mut self,
        alloc: Global,
        bound: Option<PairBound>,
        reply: Reply,
    ) -> Result<Poll<MergeAnswer>, AllocError>
        requires open { IsSome self.old.reading.asked }
        requires sound { readings.IsSound finding self.old.reading }
        requires storing { storing.IsSound self.old.storing }
        requires scanning { trying.IsScanning self.old.storing.trying.next }
        requires row { IfSome (read_call self.old.reading.course self.old.reading.course.stage) (λ call. IsReplyTo call reply) }
        requires bound { bound ≡ bound_at self.old.reading.course self.old.reading.course.stage }
        ensures moves { IfOk result (λ poll. MovesAfterRead self.old reply (after_poll self.new poll) poll) }
        ensures reading { readings.IsSound finding self.new.reading }
        ensures next { self.new.storing.trying.next ≡ self.old.storing.trying.next }
        ensures setting { self.new.storing.setting ≡ self.old.storing.setting }
        ensures memory { OnErr result (self.new ≡ reading_on self.old (record self.old.reading { course = counted self.old.reading.course })) }
    {
        let place = self.reading.course.getting.place;
        let count = self.reading.course.getting.rows.as_slice().len();
        self.count();
        let read = self.reading.react(alloc, reply)?;
        let misfit = self.misfit(bound, place, count);
        let read = self.fit(misfit, read);
        self.take_back(&read);
        Ok(self.read_poll(read))
    }

    // One more call was made.
    fn count(&mut self)
        ensures { self.new ≡ reading_on self.old self.old.reading }
    {
        self.storing.trying.calls = self.storing.trying.calls.saturating_add(1);
    }

    // The newest state is the transition's again where the reading has ended.
    fn take_back(&mut self, read: &Poll<Found>)
        ensures { self.new ≡ given_after self.old read.now }
    {
        match read {
            Poll::Busy | Poll::More | Poll::Fault => {}
            _ => self.storing.trying.loader = taken(&mut self.reading.course.loader),
        }
    }

    // What the reading comes to; a pair that was got is kept to be drafted.
    fn read_poll(&mut self, read: Poll<Found>) -> Poll<MergeAnswer>
        ensures poll { result ≡ read_poll read }
        ensures keeps { self.new ≡ with_pair self.old read }
    {
        match read {
            Poll::Busy => Poll::Busy,
            Poll::More => Poll::More,
            Poll::Fault => Poll::Fault,
            Poll::Spent => Poll::Spent,
            Poll::Damaged(damage) => Poll::Damaged(damage),
            Poll::Done(found) => self.found_poll(found),
        }
    }

    fn found_poll(&mut self, found: Found) -> Poll<MergeAnswer>
        ensures poll { result ≡ found_poll found }
        ensures keeps { self.new ≡ record self.old { pair = pair_of found } }
    {
        self.pair = None;
        match found {
            Found::Nothing { version } => Poll::Done(MergeAnswer::NothingDue { version }),
            Found::Due(pair) => {
                self.pair = Some(pair);
                Poll::More
            }
            Found::Gone { version } => Poll::Done(MergeAnswer::Expired { version }),
        }
    }

    // What becomes of the compactor after a poll.
    pub(crate) fn settle(&mut self, poll: &Poll<MergeAnswer>)
        ensures { self.new ≡ after_poll self.old poll.now }
    {
        match poll {
            Poll::Busy | Poll::More | Poll::Fault => {}
            Poll::Damaged(_) | Poll::Spent => self.asked = None,
            Poll::Done(answer) => {
                self.member = member_after(self.member, answer);
                self.asked = None;
            }
        }
    }

    // The number of the own member, which there is while a command but the open is open.
    pub(crate) fn own_member(&self) -> u64
        ensures { result ≡ own_member self.now }
    {
        self.member.unwrap_or(0)
    }

    fn newest_number(&self) -> u64
        ensures { result ≡ newest_number self.now }
    {
        number_of(self.storing.trying.loader.state())
    }

    // The member is shown otherwise than it was left.
    fn strange(&self) -> Poll<MergeAnswer>
        ensures { result ≡ strange self.now }
    {
        Poll::Damaged(Damage::Member {
            member: self.own_member(),
            version: self.newest_number(),
        })
    }

    fn verdict(&self, tried: Tried) -> Poll<MergeAnswer>
        ensures { IfSome self.now.asked (λ asked. result ≡ verdict self.now asked tried) }
    {
        match &self.asked {
            Some(Asked::Merge) => {
                self.merge_poll(stored_of(&self.storing.trying, self.token, tried))
            }
            _ => self.change_poll(outcome_of(&self.storing.trying, self.own_member(), tried)),
        }
    }

    // ---- a merge

    fn merge_poll(&self, stored: Stored) -> Poll<MergeAnswer>
        ensures { result ≡ merge_poll self.now stored }
    {
        match stored {
            Stored::Going => Poll::More,
            Stored::Fault => Poll::Fault,
            Stored::Spent => Poll::Spent,
            Stored::Damaged(damage) => Poll::Damaged(damage),
            Stored::Now { version } | Stored::Before { version } => {
                Poll::Done(MergeAnswer::Merged { version })
            }
            Stored::Refused(refusal) => self.merge_refused(refusal),
            Stored::Strange => self.strange(),
        }
    }

    fn merge_refused(&self, refusal: Refusal) -> Poll<MergeAnswer>
        ensures { result ≡ merge_refused self.now refusal }
    {
        let version = self.newest_number();
        match refusal {
            Refusal::NotPresent => Poll::Done(MergeAnswer::Superseded { version }),
            Refusal::NoMember => Poll::Done(MergeAnswer::Expired { version }),
            _ => self.strange(),
        }
    }

    // ---- a change of the member

    // What an open, a renewal or a close is answered.
    fn change_poll(&self, outcome: Outcome) -> Poll<MergeAnswer>
        ensures { IfSome self.now.asked (λ asked. result ≡ change_poll self.now asked outcome) }
    {
        match outcome {
            Outcome::Going => Poll::More,
            Outcome::Fault => Poll::Fault,
            Outcome::Spent => Poll::Spent,
            Outcome::Damaged(damage) => Poll::Damaged(damage),
            Outcome::Joined {
                member,
                version,
                ..
            } => { Poll::Done(MergeAnswer::Opened { member, version }) }
            Outcome::Full { version } => Poll::Done(MergeAnswer::MembersFull { version }),
            Outcome::Committed { version } => Poll::Done(self.in_answer(version)),
            Outcome::Gone { version } => Poll::Done(self.gone_answer(version)),
            Outcome::Back { .. } | Outcome::Strange { .. } => self.strange(),
        }
    }

    fn in_answer(&self, version: u64) -> MergeAnswer
        ensures { IfSome self.now.asked (λ asked. result ≡ in_answer asked version) }
    {
        match &self.asked {
            Some(Asked::RenewCompactor { .. }) => MergeAnswer::Renewed { version },
            _ => MergeAnswer::Closed { version },
        }
    }

    fn gone_answer(&self, version: u64) -> MergeAnswer
        ensures { IfSome self.now.asked (λ asked. result ≡ gone_answer asked version) }
    {
        match &self.asked {
            Some(Asked::RenewCompactor { .. }) => MergeAnswer::Expired { version },
            _ => MergeAnswer::Closed { version },
        }
    }
}

fn member_after(member: Option<u64>, answer: &MergeAnswer) -> Option<u64>
    ensures { result ≡ member_after member answer.now }
{
    match answer {
        MergeAnswer::Opened { member, .. } => Some(*member),
        MergeAnswer::Closed { .. } | MergeAnswer::Expired { .. } => None,
        _ => member,
    }
}
