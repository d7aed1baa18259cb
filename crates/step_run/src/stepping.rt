// A client's open command polled so many times.
ghost use Rattle.std.specs.Prelude.{◌≡◌, ◌≢◌, ◌+◌, ◌<◌, ◌≤◌, None, Err, IfOk, IfSome, OnOk};
ghost use Rattle.update_core.specs.Limits.{most};
ghost use Rattle.machine_core.specs.Machines.{Ending, Keeps, shard_of};
ghost use Rattle.machine_core.specs.Polling.{FollowsWhere};
ghost use Rattle.driving.specs.Goings.{Goes, GrowsBy};
ghost use Rattle.step_run.specs.Stepping.{EndsAnswered, EndsIdle, StepsTo, WithinWhere};

use crate::step_faults::StepFault;
use driving::SolePort;
use machine_core::{Machine, Poll};
use std::alloc::Global;
use store_core::Store;

/// How many calls failed among the polls of a command, and what it was answered, if it has ended.
#[derive(Drop)]
pub struct Stepped<A> {
    pub faults: u64,
    pub answer: Option<A>,
}

/// Polls the open command of a machine so many times, or until it ends.
pub fn step<M: Machine, S: Store>(
    alloc: Global,
    machine: &mut M,
    port: &mut SolePort<S>,
    polls: u64,
) -> Result<Stepped<M::Answer>, StepFault>
    requires keeps { Keeps M.words }
    requires ending { Ending M.words }
    requires answered { EndsAnswered M.words }
    requires idle { EndsIdle M.words }
    requires open { M.words.IsOpen machine.old }
    requires sound { M.words.IsSound machine.old }
    requires follows { FollowsWhere M.words port.old.client (S.history port.old.store) machine.old }
    requires cost { WithinWhere M.words port.old.client (S.history port.old.store) machine.old }
    requires few { M.words.calls_of machine.old + polls < most }
    ensures told { Goes (shard_of M.words machine.old) (S.history port.old.store) (S.history port.new.store)
        (StepsTo M.words port.old.client polls machine.old machine.new result) }
    ensures by { OnOk result (GrowsBy port.old.client (S.history port.old.store) (S.history port.new.store)) }
    ensures shard { OnOk result (shard_of M.words machine.new ≡ shard_of M.words machine.old) }
    ensures sound { M.words.IsSound machine.new }
    ensures follows { OnOk result (FollowsWhere M.words port.old.client (S.history port.new.store) machine.new) }
    ensures cost { OnOk result (M.words.IsOpen machine.new → WithinWhere M.words port.old.client (S.history port.new.store) machine.new) }
    ensures calls { OnOk result (M.words.calls_of machine.new ≤ M.words.calls_of machine.old + polls) }
    ensures fault { result ≢ Err StepFault.Store }
    ensures sink { result ≢ Err StepFault.Sink }
    ensures client { port.new.client ≡ port.old.client }
    ensures later { S.faults port.old.store ≤ S.faults port.new.store }
{
    let mut faults = 0;
    for _ in 0..polls {
        match machine_core::poll(machine, alloc, port)? {
            Poll::Busy => {}
            Poll::More => {}
            Poll::Fault => faults += 1,
            Poll::Damaged(_) => return Err(StepFault::Damaged),
            Poll::Spent => return Err(StepFault::Spent),
            Poll::Done(answer) => {
                return Ok(Stepped {
                    faults,
                    answer: Some(answer),
                });
            }
        }
    }
    Ok(Stepped {
        faults,
        answer: None,
    })
}
