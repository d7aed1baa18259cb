// An operator's command polled to its end.
ghost use Rattle.std.specs.Prelude.{◌≡◌, IfNone, IfOk, IfSome, IsSome, Option};
ghost use Rattle.reclock_run.specs.Working.{IsReady, Worked};

use crate::operator_ends::OperatorEnd;
use reclock_client::{ClockAnswer, Operator, Poll};
use std::alloc::Global;
use std::sync::Wait;
use store_core::Port;

// What a poll comes to, where the command has ended by it, or the operator's work.
fn came(poll: Poll<ClockAnswer>) -> Option<Result<ClockAnswer, OperatorEnd>> {
    match poll {
        Poll::Busy => None,
        Poll::More => None,
        Poll::Fault => Some(Err(OperatorEnd::Faulted)),
        Poll::Damaged(_) => Some(Err(OperatorEnd::Damaged)),
        Poll::Spent => Some(Err(OperatorEnd::Spent)),
        Poll::Done(answer) => Some(Ok(answer)),
    }
}

// One poll of the operator's command. After 2^64 - 1 calls of one command it ends as if for want of memory.
fn poll_once<P: Port>(
    alloc: Global,
    operator: &mut Operator,
    port: &mut P,
) -> Option<Result<ClockAnswer, OperatorEnd>>
    requires ready { IsReady (P.client port.old) (P.front port.old) operator.old }
    ensures worked { Worked (P.client port.old) (P.front port.old) (P.front port.new) operator.old operator.new }
    ensures again { IfNone result (IsReady (P.client port.old) (P.front port.new) operator.new) }
    ensures ready { IfSome result (λ came. IfOk came (λ _. IsReady (P.client port.old) (P.front port.new) operator.new)) }
    ensures client { P.client port.new ≡ P.client port.old }
    ensures kept { P.kept port.new ≡ P.kept port.old }
{
    if !operator.busy() {
        return Some(Err(OperatorEnd::Damaged));
    }
    let Ok(poll) = operator.poll(alloc, port) else {
        return Some(Err(OperatorEnd::Memory));
    };
    if operator.calls() < u64::MAX {
        return came(poll);
    }
    Some(Err(OperatorEnd::Memory))
}

/// Polls the operator's open command to its end. This waits for the store's turn.
pub(crate) fn finish<P: Port, R: Wait>(
    rt: &R,
    alloc: Global,
    operator: &mut Operator,
    port: &mut P,
) -> Result<ClockAnswer, OperatorEnd>
    requires ready { IsReady (P.client port.old) (P.front port.old) operator.old }
    ensures worked { Worked (P.client port.old) (P.front port.old) (P.front port.new) operator.old operator.new }
    ensures ready { IfOk result (λ _. IsReady (P.client port.old) (P.front port.new) operator.new) }
    ensures client { P.client port.new ≡ P.client port.old }
    ensures kept { P.kept port.new ≡ P.kept port.old }
{
    for _ in rt.forever() {
        if let Some(came) = poll_once(alloc, operator, port) {
            return came;
        }
    }
    unreachable!()
}
