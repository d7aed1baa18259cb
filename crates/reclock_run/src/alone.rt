// An operator works alone in its thread, in each of the two rounds.
ghost use Rattle.std.specs.Prelude.{◌≡◌, IfOk};
ghost use Rattle.turnstile.specs.Passes.{IsPassOf, view};
ghost use Rattle.shared_store.specs.Fronts.{front_of};
ghost use Rattle.shared_store.specs.Passes.{kept_view, told_of};
ghost use Rattle.shared_store.specs.Trails.{entry_client};
ghost use Rattle.reclock_run.specs.Working.{IsReady, Worked};

use crate::operator_ends::OperatorEnd;
use crate::operator_ports::OperatorPort;
use crate::working::{open_and_mint, sync_and_publish};
use crew::Gate;
use reclock_client::Operator;
use reclock_text::Saw;
use remap_core::SourceList;
use shared_store::{CountedStore, SharedPort};
use std::alloc::Global;
use std::sync::Wait;
use store_core::Store;
use turnstile::{Pass, Turnstile};

/// What an operator's round leaves: its pass, how many calls it has made, and how it ended.
#[derive(Drop)]
pub struct RoundEnd<S: Store> {
    pub(crate) pass: Pass<CountedStore<S>>,
    pub(crate) calls: u64,
    pub(crate) end: Result<(), OperatorEnd>,
}

/// The first round of the operator of this number, which has made no calls yet.
pub fn mint_alone<S: Store, G: Gate, R: Wait>(
    rt: &R,
    alloc: Global,
    turnstile: &Turnstile<CountedStore<S>>,
    pass: Pass<CountedStore<S>>,
    gate: &G,
    operator: &mut Operator,
    number: u32,
    saws: &[Saw],
) -> RoundEnd<S>
    requires pass { IsPassOf told_of entry_client turnstile.now pass }
    requires ready { IsReady (view pass).number (front_of S.history (view pass)) operator.old }
    ensures pass { IsPassOf told_of entry_client turnstile.now result.pass }
    ensures same { kept_view (view result.pass) ≡ kept_view (view pass) }
    ensures worked { Worked (view pass).number (front_of S.history (view pass)) (front_of S.history (view result.pass)) operator.old operator.new }
    ensures ready { IfOk result.end (λ _. IsReady (view pass).number (front_of S.history (view result.pass)) operator.new) }
{
    let mut port = OperatorPort::at(SharedPort::at(turnstile, pass), gate, number, 0);
    let end = open_and_mint(rt, alloc, operator, &mut port, number, saws);
    let calls = port.calls();
    RoundEnd {
        pass: port.back(),
        calls,
        end,
    }
}

/// The second round of the operator of this number, which has made so many calls.
pub fn publish_alone<S: Store, G: Gate, R: Wait>(
    rt: &R,
    alloc: Global,
    turnstile: &Turnstile<CountedStore<S>>,
    pass: Pass<CountedStore<S>>,
    gate: &G,
    operator: &mut Operator,
    number: u32,
    calls: u64,
    rows: &SourceList,
) -> RoundEnd<S>
    requires pass { IsPassOf told_of entry_client turnstile.now pass }
    requires ready { IsReady (view pass).number (front_of S.history (view pass)) operator.old }
    ensures pass { IsPassOf told_of entry_client turnstile.now result.pass }
    ensures same { kept_view (view result.pass) ≡ kept_view (view pass) }
    ensures worked { Worked (view pass).number (front_of S.history (view pass)) (front_of S.history (view result.pass)) operator.old operator.new }
    ensures ready { IfOk result.end (λ _. IsReady (view pass).number (front_of S.history (view result.pass)) operator.new) }
{
    let mut port = OperatorPort::at(SharedPort::at(turnstile, pass), gate, number, calls);
    let end = sync_and_publish(rt, alloc, operator, &mut port, rows);
    let calls = port.calls();
    RoundEnd {
        pass: port.back(),
        calls,
        end,
    }
}
