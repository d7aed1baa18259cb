// Clients of each kind polled.
ghost use Rattle.std.specs.Prelude.{◌≡◌, ◌≢◌, ◌+◌, ◌<◌, ◌≤◌, Err, OnOk};
ghost use Rattle.update_core.specs.Limits.{most};
ghost use Rattle.driving.specs.Goings.{Goes, GrowsBy};
ghost use Rattle.maint_client.specs.Expiring.{machine};
ghost use Rattle.step_run.specs.Clients.{ClientFits, Fits};
ghost use Rattle.step_run.specs.Kinds.{ClientPollsTo};
ghost use Rattle.step_run.specs.Polls.{PollsTo, said_of};
ghost use Rattle.step_run.specs.Sayings.{expire_says};

use crate::answers::expire_says;
use crate::clients::Client;
use crate::polls::step_open;
use crate::sayings::Saying;
use crate::step_faults::StepFault;
use crate::stepping::{Stepped, step};
use driving::SolePort;
use history_core::ExpireAnswer;
use maint_client::Expiry;
use std::alloc::Global;
use store_core::{ShardId, Store};
use try_machine::Tryer;

// What an expirer's answer says, if one came.
fn expiry_said(answer: Option<ExpireAnswer>) -> Option<Saying>
    ensures { result ≡ said_of expire_says answer }
{
    expire_says(answer?)
}

// Polls the open command of an expirer so many times, or until it ends. Without one nothing is done.
fn step_expirer<S: Store>(
    alloc: Global,
    tryer: &mut Tryer<Expiry>,
    port: &mut SolePort<S>,
    shard: ShardId,
    asked: u64,
    polls: u64,
) -> Result<Stepped<Saying>, StepFault>
    requires fits { Fits machine shard port.old.client asked (S.history port.old.store) tryer.old }
    requires few { asked + polls < most }
    ensures told { Goes shard (S.history port.old.store) (S.history port.new.store)
        (PollsTo machine expire_says shard port.old.client polls tryer.old tryer.new result) }
    ensures by { OnOk result (GrowsBy port.old.client (S.history port.old.store) (S.history port.new.store)) }
    ensures fits { OnOk result (Fits machine shard port.old.client (asked + polls) (S.history port.new.store) tryer.new) }
    ensures fault { result ≢ Err StepFault.Store }
    ensures sink { result ≢ Err StepFault.Sink }
    ensures later { S.faults port.old.store ≤ S.faults port.new.store }
{
    if tryer.asked.is_none() {
        return Ok(Stepped {
            faults: 0,
            answer: None,
        });
    }
    let stepped = step(alloc, tryer, port, polls)?;
    Ok(Stepped {
        faults: stepped.faults,
        answer: expiry_said(stepped.answer),
    })
}

/// Polls the open command of a client so many times, or until it ends. Without one nothing is done. No command has made more calls
/// than `asked` before.
pub fn step_client<S: Store>(
    alloc: Global,
    client: &mut Client,
    port: &mut SolePort<S>,
    shard: ShardId,
    asked: u64,
    polls: u64,
) -> Result<Stepped<Saying>, StepFault>
    requires fits { ClientFits shard port.old.client asked (S.history port.old.store) client.old }
    requires few { asked + polls < most }
    ensures told { Goes shard (S.history port.old.store) (S.history port.new.store)
        (ClientPollsTo shard port.old.client polls client.old client.new result) }
    ensures by { OnOk result (GrowsBy port.old.client (S.history port.old.store) (S.history port.new.store)) }
    ensures fits { OnOk result (ClientFits shard port.old.client (asked + polls) (S.history port.new.store) client.new) }
    ensures fault { result ≢ Err StepFault.Store }
    ensures sink { result ≢ Err StepFault.Sink }
    ensures later { S.faults port.old.store ≤ S.faults port.new.store }
{
    match client {
        Client::Writer(writer) => step_open(alloc, writer, port, shard, asked, polls),
        Client::Reader(reader) => step_open(alloc, reader, port, shard, asked, polls),
        Client::Compactor(compactor) => step_open(alloc, compactor, port, shard, asked, polls),
        Client::Collector(collector) => step_open(alloc, collector, port, shard, asked, polls),
        Client::Expirer(expirer) => {
            step_expirer(alloc, &mut expirer.tryer, port, shard, asked, polls)
        }
    }
}
