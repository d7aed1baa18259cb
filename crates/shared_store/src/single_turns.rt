// One turn of a pass at a store.
ghost use Rattle.std.specs.Prelude.{◌≡◌, ◌≤◌, MatchOption, MatchResult, IfOk, IfSome};
ghost use Rattle.store_core.specs.Histories.{IsReplyTo};
ghost use Rattle.store_core.specs.Ports.{GainsWhereTold, GrowsByOthers};
ghost use Rattle.turnstile.specs.Passes.{IsPassOf, view};
ghost use Rattle.turnstile.specs.Plays.{missed};
ghost use Rattle.shared_store.specs.Trails.{entry_client};
ghost use Rattle.shared_store.specs.Fronts.{front_of, HadTurn};
ghost use Rattle.shared_store.specs.Passes.{kept_view, told_of};

use crate::counted_stores::CountedStore;
use std::alloc::AllocError;
use store_core::{Call, Reply, Store};
use turnstile::{Pass, Turnstile};

// The pass, and what the store answered in one turn of it: nothing where the turn was found held.
pub(crate) fn single_turn<S: Store>(
    turnstile: &Turnstile<CountedStore<S>>,
    pass: Pass<CountedStore<S>>,
    call: &Call,
) -> (Pass<CountedStore<S>>, Option<Result<Reply, AllocError>>)
    requires { IsPassOf told_of entry_client turnstile.now pass }
    ensures pass { IsPassOf told_of entry_client turnstile.now result.0 }
    ensures view { MatchOption result.1 (view result.0 ≡ missed (view pass)) (λ _. HadTurn (view pass) (view result.0)) }
    ensures kept { kept_view (view result.0) ≡ kept_view (view pass) }
    ensures seen { IfSome result.1 (λ answer. MatchResult answer
        (λ reply. GainsWhereTold (view pass).number (front_of S.history (view pass)) (front_of S.history (view result.0)) call.now reply)
        (λ _. GrowsByOthers (view pass).number (front_of S.history (view pass)) (front_of S.history (view result.0)))) }
    ensures shape { IfSome result.1 (λ answer. IfOk answer (λ reply. IsReplyTo call.now reply)) }
{
    let mut held = match turnstile.try_take(pass) {
        Ok(held) => held,
        Err(pass) => return (pass, None),
    };
    let number = held.number();
    let answer = held.value().call(number, call);
    (held.give(), Some(answer))
}
