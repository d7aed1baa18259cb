// What a reply makes of a reader.
ghost use Rattle.std.specs.Prelude.{◌≡◌, IfOk, IfSome, IsSome, OnErr, unwrap_or};
ghost use Rattle.store_core.specs.Histories.{IsReplyTo};
ghost use Rattle.load_core.specs.Trying as trying;
ghost use Rattle.read_client.specs.Asking.{asking};
ghost use Rattle.read_client.specs.Reading.{IsOpen, IsSound, Moves, MovesAfterRead, MovesAfterTry, Wants, after_poll, call_of};
ghost use Rattle.read_client.specs.Reading.{change_poll, gone_answer, in_answer, listen_after, member_after, newest_number};
ghost use Rattle.read_client.specs.Reading.{own_member, reading_on, shard_of, strange, taken_back, verdict};
ghost use Rattle.read_machine.specs.Courses.{counted, read_call};
ghost use Rattle.read_machine.specs.Readings as readings;

use crate::readers::Reader;
use crate::taking::taken;
use change_core::{Outcome, number_of, outcome_of};
use history_core::{Asked, ReadAnswer};
use load_core::{Damage, Poll, Tried};
use machine_core::Machine;
use std::alloc::{AllocError, Global};
use store_core::Reply;
use update_core::Frontier;

impl Reader {
    // What the reply comes to, before the reader has settled by it.
    pub(crate) fn reaction(
        &mut self,
        alloc: Global,
        reply: Reply,
    ) -> Result<Poll<ReadAnswer>, AllocError>
        requires open { IsOpen self.old }
        requires sound { IsSound self.old }
        requires row { IfSome (call_of self.old) (λ call. IsReplyTo call reply) }
        ensures moves { IfOk result (λ poll. Moves self.old reply (after_poll self.new poll) poll) }
        ensures trying { trying.IsSound self.new.trying }
        ensures reading { readings.IsSound asking self.new.reading }
        ensures memory { OnErr result (Wants self.old self.new) }
    {
        if self.reading.asked.is_some() {
            return self.after_read(alloc, reply);
        }
        self.after_try(alloc, reply)
    }

    // What the reply to a call of a transition comes to.
    fn after_try(&mut self, alloc: Global, reply: Reply) -> Result<Poll<ReadAnswer>, AllocError>
        requires open { IsOpen self.old }
        requires sound { trying.IsSound self.old.trying }
        requires row { IsReplyTo (trying.call_of self.old.trying) reply }
        ensures moves { IfOk result (λ poll. MovesAfterTry self.old reply (after_poll self.new poll) poll) }
        ensures sound { trying.IsSound self.new.trying }
        ensures reading { self.new.reading ≡ self.old.reading }
        ensures memory { OnErr result (trying.IsScanning self.old.trying.next ×
            (self.new ≡ record self.old { trying = trying.called self.old.trying })) }
    {
        match self.trying.react(alloc, reply) {
            Ok(tried) => Ok(self.verdict(tried)),
            Err(fault) => Err(fault),
        }
    }

    // What the reply to a call of a question comes to.
    fn after_read(&mut self, alloc: Global, reply: Reply) -> Result<Poll<ReadAnswer>, AllocError>
        requires open { IsSome self.old.reading.asked }
        requires sound { readings.IsSound asking self.old.reading }
        requires trying { trying.IsScanning self.old.trying.next }
        requires shard { self.old.reading.course.loader.shard ≡ shard_of self.old }
        requires row { IfSome (read_call self.old.reading.course self.old.reading.course.stage) (λ call. IsReplyTo call reply) }
        ensures moves { IfOk result (λ poll. MovesAfterRead self.old reply (after_poll self.new poll) poll) }
        ensures next { self.new.trying.next ≡ self.old.trying.next }
        ensures reading { readings.IsSound asking self.new.reading }
        ensures memory { OnErr result (self.new ≡
            reading_on self.old (record self.old.reading { course = counted self.old.reading.course })) }
    {
        self.count();
        let poll = self.reading.react(alloc, reply)?;
        self.take_back(&poll);
        Ok(poll)
    }

    // One more call was made.
    fn count(&mut self)
        ensures { self.new ≡ reading_on self.old self.old.reading }
    {
        self.trying.calls = self.trying.calls.saturating_add(1);
    }

    // The newest state is the transition's again where the question has ended.
    fn take_back(&mut self, poll: &Poll<ReadAnswer>)
        ensures { self.new ≡ taken_back self.old poll.now }
    {
        match poll {
            Poll::Busy | Poll::More | Poll::Fault => {}
            _ => self.trying.loader = taken(&mut self.reading.course.loader),
        }
    }

    // What becomes of the reader after a poll.
    pub(crate) fn settle(&mut self, poll: &Poll<ReadAnswer>)
        ensures { self.new ≡ after_poll self.old poll.now }
    {
        match poll {
            Poll::Busy | Poll::More | Poll::Fault => {}
            Poll::Damaged(_) | Poll::Spent => self.asked = None,
            Poll::Done(answer) => {
                self.listen = listen_after(&self.asked, self.listen, answer);
                self.member = member_after(self.member, answer);
                self.asked = None;
            }
        }
    }

    // The number of the own member, which there is while a command but the open is open.
    fn own_member(&self) -> u64
        ensures { result ≡ own_member self.now }
    {
        self.member.unwrap_or(0)
    }

    fn newest_number(&self) -> u64
        ensures { result ≡ newest_number self.now }
    {
        number_of(self.trying.loader.state())
    }

    // The member is shown otherwise than it was left.
    fn strange(&self) -> Poll<ReadAnswer>
        ensures { result ≡ strange self.now }
    {
        Poll::Damaged(Damage::Member {
            member: self.own_member(),
            version: self.newest_number(),
        })
    }

    // ---- changing

    fn verdict(&self, tried: Tried) -> Poll<ReadAnswer>
        ensures { IfSome self.now.asked (λ asked. result ≡ verdict self.now asked tried) }
    {
        self.change_poll(outcome_of(&self.trying, self.own_member(), tried))
    }

    // What an open, a close, a renewal or an advance is answered.
    fn change_poll(&self, outcome: Outcome) -> Poll<ReadAnswer>
        ensures { IfSome self.now.asked (λ asked. result ≡ change_poll self.now asked outcome) }
    {
        match outcome {
            Outcome::Going => Poll::More,
            Outcome::Fault => Poll::Fault,
            Outcome::Spent => Poll::Spent,
            Outcome::Damaged(damage) => Poll::Damaged(damage),
            Outcome::Joined {
                member,
                version,
                since,
            } => {
                Poll::Done(ReadAnswer::Opened {
                    member,
                    version,
                    since,
                })
            }
            Outcome::Full { version } => Poll::Done(ReadAnswer::MembersFull { version }),
            Outcome::Committed { version } => Poll::Done(self.in_answer(version)),
            Outcome::Gone { version } => Poll::Done(self.gone_answer(version)),
            Outcome::Back { since } => Poll::Done(ReadAnswer::Back { since }),
            Outcome::Strange { .. } => self.strange(),
        }
    }

    fn in_answer(&self, version: u64) -> ReadAnswer
        ensures { IfSome self.now.asked (λ asked. result ≡ in_answer asked version) }
    {
        match &self.asked {
            Some(Asked::Advance { .. }) => ReadAnswer::Advanced { version },
            Some(Asked::RenewReader { .. }) => ReadAnswer::Renewed { version },
            _ => ReadAnswer::Closed { version },
        }
    }

    fn gone_answer(&self, version: u64) -> ReadAnswer
        ensures { IfSome self.now.asked (λ asked. result ≡ gone_answer asked version) }
    {
        match &self.asked {
            Some(Asked::Advance { .. }) | Some(Asked::RenewReader { .. }) => {
                ReadAnswer::Expired { version }
            }
            _ => ReadAnswer::Closed { version },
        }
    }
}

fn member_after(member: Option<u64>, answer: &ReadAnswer) -> Option<u64>
    ensures { result ≡ member_after member answer.now }
{
    match answer {
        ReadAnswer::Opened { member, .. } => Some(*member),
        ReadAnswer::Closed { .. } | ReadAnswer::Expired { .. } => None,
        _ => member,
    }
}

// A step moves the listen to its end. A listen that is told Early stands no longer; a snapshot leaves it as it is.
fn listen_after(
    asked: &Option<Asked>,
    listen: Option<Frontier>,
    answer: &ReadAnswer,
) -> Option<Frontier>
    ensures { result ≡ listen_after asked.now listen answer.now }
{
    match answer {
        ReadAnswer::Step { to, .. } => Some(*to),
        ReadAnswer::Early { .. } => match asked {
            Some(Asked::Snapshot { .. }) => listen,
            _ => None,
        },
        _ => listen,
    }
}
