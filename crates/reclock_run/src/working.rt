// What an operator does in each of the two rounds.
ghost use Rattle.std.specs.Prelude.{◌≡◌, IfOk};
ghost use Rattle.reclock_run.specs.Working.{IsReady, Worked};

use crate::finishing::finish;
use crate::operator_ends::OperatorEnd;
use reclock_client::{BeginFault, ClockAnswer, Operator};
use reclock_text::Saw;
use remap_core::SourceList;
use std::alloc::Global;
use std::sync::Wait;
use store_core::Port;

// Why a command that was to begin didn't.
fn unbegun(fault: BeginFault) -> OperatorEnd {
    match fault {
        BeginFault::Memory => OperatorEnd::Memory,
        _ => OperatorEnd::Damaged,
    }
}

// What an answer comes to that isn't one of those that were hoped for.
fn other(answer: ClockAnswer) -> OperatorEnd {
    match answer {
        ClockAnswer::MembersFull { .. } => OperatorEnd::MembersFull,
        _ => OperatorEnd::Damaged,
    }
}

fn opened(answer: ClockAnswer) -> Result<(), OperatorEnd> {
    match answer {
        ClockAnswer::Opened => Ok(()),
        answer => Err(other(answer)),
    }
}

// A proposal that comes too late is passed over.
fn minted(answer: ClockAnswer) -> Result<(), OperatorEnd> {
    match answer {
        ClockAnswer::Minted { .. } => Ok(()),
        ClockAnswer::Lost { .. } => Ok(()),
        answer => Err(other(answer)),
    }
}

fn synced(answer: ClockAnswer) -> Result<(), OperatorEnd> {
    match answer {
        ClockAnswer::Synced { .. } => Ok(()),
        answer => Err(other(answer)),
    }
}

fn published(answer: ClockAnswer) -> Result<(), OperatorEnd> {
    match answer {
        ClockAnswer::Published { .. } => Ok(()),
        answer => Err(other(answer)),
    }
}

fn closed(answer: ClockAnswer) -> Result<(), OperatorEnd> {
    match answer {
        ClockAnswer::Closed => Ok(()),
        answer => Err(other(answer)),
    }
}

// Polls a command to its end, where it has begun.
fn go<P: Port, R: Wait>(
    rt: &R,
    alloc: Global,
    operator: &mut Operator,
    port: &mut P,
    begun: Result<(), BeginFault>,
) -> Result<ClockAnswer, OperatorEnd>
    requires ready { IsReady (P.client port.old) (P.front port.old) operator.old }
    ensures worked { Worked (P.client port.old) (P.front port.old) (P.front port.new) operator.old operator.new }
    ensures ready { IfOk result (λ _. IsReady (P.client port.old) (P.front port.new) operator.new) }
    ensures client { P.client port.new ≡ P.client port.old }
    ensures kept { P.kept port.new ≡ P.kept port.old }
{
    if let Err(fault) = begun {
        return Err(unbegun(fault));
    }
    finish(rt, alloc, operator, port)
}

// Proposes what was seen.
fn mint<P: Port, R: Wait>(
    rt: &R,
    alloc: Global,
    operator: &mut Operator,
    port: &mut P,
    saw: &Saw,
) -> Result<(), OperatorEnd>
    requires ready { IsReady (P.client port.old) (P.front port.old) operator.old }
    ensures worked { Worked (P.client port.old) (P.front port.old) (P.front port.new) operator.old operator.new }
    ensures ready { IfOk result (λ _. IsReady (P.client port.old) (P.front port.new) operator.new) }
    ensures client { P.client port.new ≡ P.client port.old }
    ensures kept { P.kept port.new ≡ P.kept port.old }
{
    let begun = operator.begin_mint(saw.time, &saw.frontier);
    let answer = go(rt, alloc, operator, port, begun)?;
    minted(answer)
}

// The same, where the operator of this number has seen it.
fn mint_own<P: Port, R: Wait>(
    rt: &R,
    alloc: Global,
    operator: &mut Operator,
    port: &mut P,
    number: u32,
    saw: &Saw,
) -> Result<(), OperatorEnd>
    requires ready { IsReady (P.client port.old) (P.front port.old) operator.old }
    ensures worked { Worked (P.client port.old) (P.front port.old) (P.front port.new) operator.old operator.new }
    ensures ready { IfOk result (λ _. IsReady (P.client port.old) (P.front port.new) operator.new) }
    ensures client { P.client port.new ≡ P.client port.old }
    ensures kept { P.kept port.new ≡ P.kept port.old }
{
    if saw.operator != number {
        return Ok(());
    }
    mint(rt, alloc, operator, port, saw)
}

// Proposes what the operator of this number has seen, in order.
fn mint_all<P: Port, R: Wait>(
    rt: &R,
    alloc: Global,
    operator: &mut Operator,
    port: &mut P,
    number: u32,
    saws: &[Saw],
) -> Result<(), OperatorEnd>
    requires ready { IsReady (P.client port.old) (P.front port.old) operator.old }
    ensures worked { Worked (P.client port.old) (P.front port.old) (P.front port.new) operator.old operator.new }
    ensures ready { IfOk result (λ _. IsReady (P.client port.old) (P.front port.new) operator.new) }
    ensures client { P.client port.new ≡ P.client port.old }
    ensures kept { P.kept port.new ≡ P.kept port.old }
{
    for saw in saws {
        mint_own(rt, alloc, operator, port, number, saw)?;
    }
    Ok(())
}

/// The first round: an operator whose open has begun opens, and proposes what the operator of this number has seen.
pub fn open_and_mint<P: Port, R: Wait>(
    rt: &R,
    alloc: Global,
    operator: &mut Operator,
    port: &mut P,
    number: u32,
    saws: &[Saw],
) -> Result<(), OperatorEnd>
    requires ready { IsReady (P.client port.old) (P.front port.old) operator.old }
    ensures worked { Worked (P.client port.old) (P.front port.old) (P.front port.new) operator.old operator.new }
    ensures ready { IfOk result (λ _. IsReady (P.client port.old) (P.front port.new) operator.new) }
    ensures client { P.client port.new ≡ P.client port.old }
    ensures kept { P.kept port.new ≡ P.kept port.old }
{
    let answer = finish(rt, alloc, operator, port)?;
    opened(answer)?;
    mint_all(rt, alloc, operator, port, number, saws)
}

fn sync<P: Port, R: Wait>(
    rt: &R,
    alloc: Global,
    operator: &mut Operator,
    port: &mut P,
) -> Result<(), OperatorEnd>
    requires ready { IsReady (P.client port.old) (P.front port.old) operator.old }
    ensures worked { Worked (P.client port.old) (P.front port.old) (P.front port.new) operator.old operator.new }
    ensures ready { IfOk result (λ _. IsReady (P.client port.old) (P.front port.new) operator.new) }
    ensures client { P.client port.new ≡ P.client port.old }
    ensures kept { P.kept port.new ≡ P.kept port.old }
{
    let begun = operator.begin_sync();
    let answer = go(rt, alloc, operator, port, begun)?;
    synced(answer)
}

fn publish<P: Port, R: Wait>(
    rt: &R,
    alloc: Global,
    operator: &mut Operator,
    port: &mut P,
    rows: &SourceList,
) -> Result<(), OperatorEnd>
    requires ready { IsReady (P.client port.old) (P.front port.old) operator.old }
    ensures worked { Worked (P.client port.old) (P.front port.old) (P.front port.new) operator.old operator.new }
    ensures ready { IfOk result (λ _. IsReady (P.client port.old) (P.front port.new) operator.new) }
    ensures client { P.client port.new ≡ P.client port.old }
    ensures kept { P.kept port.new ≡ P.kept port.old }
{
    let begun = operator.begin_publish(alloc, rows);
    let answer = go(rt, alloc, operator, port, begun)?;
    published(answer)
}

fn close<P: Port, R: Wait>(
    rt: &R,
    alloc: Global,
    operator: &mut Operator,
    port: &mut P,
) -> Result<(), OperatorEnd>
    requires ready { IsReady (P.client port.old) (P.front port.old) operator.old }
    ensures worked { Worked (P.client port.old) (P.front port.old) (P.front port.new) operator.old operator.new }
    ensures ready { IfOk result (λ _. IsReady (P.client port.old) (P.front port.new) operator.new) }
    ensures client { P.client port.new ≡ P.client port.old }
    ensures kept { P.kept port.new ≡ P.kept port.old }
{
    let begun = operator.begin_close();
    let answer = go(rt, alloc, operator, port, begun)?;
    closed(answer)
}

/// The second round: the operator reads the remap shard, publishes the rows and closes.
pub fn sync_and_publish<P: Port, R: Wait>(
    rt: &R,
    alloc: Global,
    operator: &mut Operator,
    port: &mut P,
    rows: &SourceList,
) -> Result<(), OperatorEnd>
    requires ready { IsReady (P.client port.old) (P.front port.old) operator.old }
    ensures worked { Worked (P.client port.old) (P.front port.old) (P.front port.new) operator.old operator.new }
    ensures ready { IfOk result (λ _. IsReady (P.client port.old) (P.front port.new) operator.new) }
    ensures client { P.client port.new ≡ P.client port.old }
    ensures kept { P.kept port.new ≡ P.kept port.old }
{
    sync(rt, alloc, operator, port)?;
    publish(rt, alloc, operator, port, rows)?;
    close(rt, alloc, operator, port)
}
