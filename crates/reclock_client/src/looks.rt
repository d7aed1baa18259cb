// Look: what a look at a shard's upper asks, as a rule.
ghost use Rattle.std.specs.Prelude.{◌≡◌, option_copied};
ghost use Rattle.reclock_client.specs.Looking.{looking, upper_of};

use load_core::Poll;
use state_core::{Refusal, State};
use std::alloc::{AllocError, Global};
use try_machine::Rule;
use update_core::Frontier;

/// A look at a shard's upper. It tries to make the first version, which each state refuses, so that the newest state is seen and
/// nothing is committed.
#[derive(Drop)]
pub struct Look {}

// The upper of the newest state; 0 where there is none.
fn upper_of(newest: Option<&State>) -> Frontier
    ensures { result ≡ upper_of (option_copied newest.entry) }
{
    match newest {
        Some(state) => state.upper(),
        None => Frontier::at(0),
    }
}

impl Rule for Look {
    type Answer = Frontier;

    ghost rule = { looking };

    fn look(&self, _alloc: Global, _newest: Option<&State>) -> Result<Look, AllocError> {
        Ok(Look {})
    }

    fn empty(&self) -> Option<Frontier> {
        Some(Frontier::at(0))
    }

    fn committed(self, newest: Option<&State>, _version: u64) -> Frontier {
        upper_of(newest)
    }

    fn refused(&self, newest: Option<&State>, _refusal: Refusal) -> Poll<Frontier> {
        Poll::Done(upper_of(newest))
    }
}
