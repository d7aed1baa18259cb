// Clients made.
ghost use Rattle.std.specs.Prelude.{◌≡◌, ◌≢◌, ◌≤◌, ℕ, Err, IfOk, List, OnOk, Option};
ghost use Rattle.store_core.specs.declared.entries.Entry.{Entry};
ghost use Rattle.store_core.specs.Histories.{History};
ghost use Rattle.driving.specs.Goings.{Goes, GrowsBy};
ghost use Rattle.driving.specs.StoreTurns.{StoreFailed};
ghost use Rattle.step_run.specs.Clients.{ClientFits};
ghost use Rattle.step_run.specs.Makes.{CollectorMade, CompactorOpens, ExpirerMade, Makes, MakesTo, ReaderOpens, WriterOpens};

use crate::clients::Client;
use crate::entered::Entered;
use crate::speakers::Speaker;
use crate::step_faults::StepFault;
use driving::{SolePort, drive};
use maint_client::{Collector, Expirer};
use merge_client::Compactor;
use read_client::Reader;
use std::alloc::Global;
use step_text::Made;
use store_core::{ShardId, Store};
use write_client::Writer;

fn open_writer<S: Store>(
    alloc: Global,
    port: &mut SolePort<S>,
    shard: ShardId,
) -> Result<Entered, StepFault>
    ensures told { Goes shard (S.history port.old.store) (S.history port.new.store) (MakesTo shard (WriterOpens shard port.old.client) result) }
    ensures by { OnOk result (GrowsBy port.old.client (S.history port.old.store) (S.history port.new.store)) }
    ensures fits { IfOk result (λ e. (polls : ℕ) → ClientFits shard port.old.client polls (S.history port.new.store) e.client) }
    ensures failed { result ≡ Err StepFault.Store → StoreFailed (S.history port.new.store) (S.faults port.old.store) (S.faults port.new.store) }
    ensures sink { result ≢ Err StepFault.Sink }
    ensures later { S.faults port.old.store ≤ S.faults port.new.store }
{
    let mut writer = Writer::open(alloc, shard);
    let answer = drive(alloc, &mut writer, port)?;
    Ok(Entered {
        client: Client::Writer(writer),
        said: Writer::saying(answer),
    })
}

fn open_reader<S: Store>(
    alloc: Global,
    port: &mut SolePort<S>,
    shard: ShardId,
    moment: u64,
    lease: u64,
) -> Result<Entered, StepFault>
    ensures told { Goes shard (S.history port.old.store) (S.history port.new.store)
        (MakesTo shard (ReaderOpens shard moment lease port.old.client) result) }
    ensures by { OnOk result (GrowsBy port.old.client (S.history port.old.store) (S.history port.new.store)) }
    ensures fits { IfOk result (λ e. (polls : ℕ) → ClientFits shard port.old.client polls (S.history port.new.store) e.client) }
    ensures failed { result ≡ Err StepFault.Store → StoreFailed (S.history port.new.store) (S.faults port.old.store) (S.faults port.new.store) }
    ensures sink { result ≢ Err StepFault.Sink }
    ensures later { S.faults port.old.store ≤ S.faults port.new.store }
{
    let mut reader = Reader::open(alloc, shard, moment, lease);
    let answer = drive(alloc, &mut reader, port)?;
    Ok(Entered {
        client: Client::Reader(reader),
        said: Reader::saying(answer),
    })
}

fn open_compactor<S: Store>(
    alloc: Global,
    port: &mut SolePort<S>,
    shard: ShardId,
    moment: u64,
    lease: u64,
) -> Result<Entered, StepFault>
    ensures told { Goes shard (S.history port.old.store) (S.history port.new.store)
        (MakesTo shard (CompactorOpens shard moment lease port.old.client) result) }
    ensures by { OnOk result (GrowsBy port.old.client (S.history port.old.store) (S.history port.new.store)) }
    ensures fits { IfOk result (λ e. (polls : ℕ) → ClientFits shard port.old.client polls (S.history port.new.store) e.client) }
    ensures failed { result ≡ Err StepFault.Store → StoreFailed (S.history port.new.store) (S.faults port.old.store) (S.faults port.new.store) }
    ensures sink { result ≢ Err StepFault.Sink }
    ensures later { S.faults port.old.store ≤ S.faults port.new.store }
{
    let mut compactor = Compactor::open(alloc, shard, moment, lease);
    let answer = drive(alloc, &mut compactor, port)?;
    Ok(Entered {
        client: Client::Compactor(compactor),
        said: Compactor::saying(answer),
    })
}

fn collector(shard: ShardId) -> Entered
    ensures made { (es : List Entry) → CollectorMade shard result es es }
    ensures fits { (client polls : ℕ) (front : Option History) → ClientFits shard client polls front result.client }
{
    let collector = Collector::new(shard);
    Entered {
        client: Client::Collector(collector),
        said: None,
    }
}

fn expirer(shard: ShardId) -> Entered
    ensures made { (es : List Entry) → ExpirerMade shard result es es }
    ensures fits { (client polls : ℕ) (front : Option History) → ClientFits shard client polls front result.client }
{
    let expirer = Expirer::new(shard);
    Entered {
        client: Client::Expirer(expirer),
        said: None,
    }
}

/// Makes a client, with the port's number, at this moment. A writer or a reader joins; its open is polled to its end.
pub fn make<S: Store>(
    alloc: Global,
    port: &mut SolePort<S>,
    shard: ShardId,
    moment: u64,
    made: Made,
) -> Result<Entered, StepFault>
    ensures told { Goes shard (S.history port.old.store) (S.history port.new.store) (MakesTo shard (Makes shard moment made port.old.client) result) }
    ensures by { OnOk result (GrowsBy port.old.client (S.history port.old.store) (S.history port.new.store)) }
    ensures fits { IfOk result (λ e. (polls : ℕ) → ClientFits shard port.old.client polls (S.history port.new.store) e.client) }
    ensures failed { result ≡ Err StepFault.Store → StoreFailed (S.history port.new.store) (S.faults port.old.store) (S.faults port.new.store) }
    ensures sink { result ≢ Err StepFault.Sink }
    ensures later { S.faults port.old.store ≤ S.faults port.new.store }
{
    match made {
        Made::Writer => open_writer(alloc, port, shard),
        Made::Reader { lease } => open_reader(alloc, port, shard, moment, lease),
        Made::Compactor { lease } => open_compactor(alloc, port, shard, moment, lease),
        Made::Collector => Ok(collector(shard)),
        Made::Expirer => Ok(expirer(shard)),
    }
}
