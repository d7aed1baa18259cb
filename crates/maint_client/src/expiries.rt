// Expiry: what an expiry asks, as a rule.
ghost use Rattle.std.specs.Prelude.{◌≡◌, IfOk, option_copied};
ghost use Rattle.history_core.specs.Upkeep.{out_numbers};
ghost use Rattle.maint_client.specs.Expiring.{expiring, moment_of, number_of, out_of};

use causes::NumberList;
use history_core::{Asked, ExpireAnswer};
use load_core::Poll;
use state_core::{Member, Refusal, State};
use std::alloc::{AllocError, Global};
use try_machine::Rule;

/// An expiry at a moment, with the numbers of the members that it removes from the newest state.
#[derive(Drop)]
pub struct Expiry {
    /// What is asked: `Asked::Expire` with the moment, in the unit of the members' beats and leases.
    pub asked: Asked,
    /// The numbers of the members whose lease has run out in the newest state, once the next call is prepared.
    pub out: NumberList,
}

impl Expiry {
    // The moment.
    fn moment(&self) -> u64
        ensures { result ≡ moment_of self.now.asked }
    {
        match &self.asked {
            Asked::Expire { now } => *now,
            _ => 0,
        }
    }
}

// The numbers of the members whose lease has run out in the newest state.
fn out_of(alloc: Global, now: u64, newest: Option<&State>) -> Result<NumberList, AllocError>
    ensures { IfOk result (λ l. l ≡ out_of now (option_copied newest.entry)) }
{
    match newest {
        Some(state) => out_numbers(alloc, now, state.members()),
        None => Ok(NumberList::new(alloc)),
    }
}

// The numbers of those among the members whose lease has run out.
fn out_numbers(alloc: Global, now: u64, members: &[Member]) -> Result<NumberList, AllocError>
    ensures { IfOk result (λ l. l ≡ out_numbers now members.now) }
{
    let mut numbers = NumberList::new(alloc);
    for member in members {
        if member.is_out(now) {
            numbers.push(member.number)?;
        }
    }
    Ok(numbers)
}

impl Rule for Expiry {
    type Answer = ExpireAnswer;

    ghost rule = { expiring };

    fn look(&self, alloc: Global, newest: Option<&State>) -> Result<Expiry, AllocError> {
        let now = self.moment();
        let out = out_of(alloc, now, newest)?;
        let asked = Asked::Expire { now };
        Ok(Expiry { asked, out })
    }

    fn empty(&self) -> Option<ExpireAnswer> {
        Some(ExpireAnswer::NoneDue { version: 0 })
    }

    fn committed(self, _newest: Option<&State>, _version: u64) -> ExpireAnswer {
        ExpireAnswer::Removed { members: self.out }
    }

    fn refused(&self, newest: Option<&State>, _refusal: Refusal) -> Poll<ExpireAnswer> {
        let version = match newest {
            Some(state) => state.number(),
            None => 0,
        };
        Poll::Done(ExpireAnswer::NoneDue { version })
    }
}
