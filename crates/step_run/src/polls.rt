// Clients polled.
ghost use Rattle.std.specs.Prelude.{◌≡◌, ◌≢◌, ◌+◌, ◌<◌, ◌≤◌, Err, OnOk};
ghost use Rattle.update_core.specs.Limits.{most};
ghost use Rattle.driving.specs.Goings.{Goes, GrowsBy};
ghost use Rattle.step_run.specs.Clients.{Fits};
ghost use Rattle.step_run.specs.Polls.{PollsTo, said_of};
ghost use Rattle.step_run.specs.Stepping.{Laws};

use crate::sayings::Saying;
use crate::speakers::Speaker;
use crate::step_faults::StepFault;
use crate::stepping::{Stepped, step};
use driving::SolePort;
use std::alloc::Global;
use store_core::{ShardId, Store};

// What an answer says, if one came.
fn said<M: Speaker>(answer: Option<M::Answer>) -> Option<Saying>
    ensures { result ≡ said_of M.says answer }
{
    M::saying(answer?)
}

/// Polls the open command of a machine so many times, or until it ends. Without one nothing is done. The command has made no more calls
/// than `asked` before.
pub fn step_open<M: Speaker, S: Store>(
    alloc: Global,
    machine: &mut M,
    port: &mut SolePort<S>,
    shard: ShardId,
    asked: u64,
    polls: u64,
) -> Result<Stepped<Saying>, StepFault>
    requires laws { Laws M.words }
    requires fits { Fits M.words shard port.old.client asked (S.history port.old.store) machine.old }
    requires few { asked + polls < most }
    ensures told { Goes shard (S.history port.old.store) (S.history port.new.store)
        (PollsTo M.words M.says shard port.old.client polls machine.old machine.new result) }
    ensures by { OnOk result (GrowsBy port.old.client (S.history port.old.store) (S.history port.new.store)) }
    ensures fits { OnOk result (Fits M.words shard port.old.client (asked + polls) (S.history port.new.store) machine.new) }
    ensures fault { result ≢ Err StepFault.Store }
    ensures sink { result ≢ Err StepFault.Sink }
    ensures later { S.faults port.old.store ≤ S.faults port.new.store }
{
    if !machine.is_busy() {
        return Ok(Stepped {
            faults: 0,
            answer: None,
        });
    }
    let stepped = step(alloc, machine, port, polls)?;
    Ok(Stepped {
        faults: stepped.faults,
        answer: said::<M>(stepped.answer),
    })
}
