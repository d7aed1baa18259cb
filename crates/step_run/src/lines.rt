// A line of a schedule executed.
ghost use Rattle.std.specs.Prelude.{◌≡◌, ◌≢◌, ◌++◌, ◌∷◌, [], ◌+◌, ◌<◌, ◌≤◌, ℕ, Err, IfOk, OnOk, Option, length};
ghost use Rattle.std.specs.List.{AllByRecursion};
ghost use Rattle.store_core.specs.declared.shards.ShardId.{ShardId as Shard};
ghost use Rattle.store_core.specs.Histories.{History};
ghost use Rattle.update_core.specs.Limits.{most};
ghost use Rattle.driving.specs.Goings.{Goes, GrowsBy};
ghost use Rattle.driving.specs.StoreTurns.{StoreFailed};
ghost use Rattle.step_run.specs.Begins.{FailsForMemory};
ghost use Rattle.step_run.specs.Clients.{AllFit, IsSound, Ready};
ghost use Rattle.step_run.specs.Lines.{BeginsAt, Does, Heads, MakesAt, OrFails, StepsAt, made_of, polls_of, sitting};

use crate::begins::begin;
use crate::clients::Client;
use crate::entered::Entered;
use crate::heard::Heard;
use crate::kinds::step_client;
use crate::makes::make;
use crate::scenes::Scene;
use crate::step_faults::StepFault;
use driving::SolePort;
use std::alloc::Global;
use step_text::{Command, Made, StepLine};
use store_core::{Call, Reply, ShardId, Store};

// Takes in a client that was made.
fn seat(clients: &mut Vec<Client>, client: Client) -> Result<(), StepFault>
    ensures seated { OnOk result (clients.new.items ≡ clients.old.items ++ client ∷ []) }
    ensures fault { FailsForMemory result }
{
    if clients.push(client).is_err() {
        return Err(StepFault::Memory);
    }
    Ok(())
}

// Makes a client, which gets the next number.
fn make_next<S: Store>(
    alloc: Global,
    clients: &mut Vec<Client>,
    port: &mut SolePort<S>,
    shard: ShardId,
    moment: u64,
    made: Made,
) -> Result<Heard, StepFault>
    ensures told { Goes shard (S.history port.old.store) (S.history port.new.store)
        (OrFails shard (MakesAt shard moment made clients.old.items clients.new.items) result) }
    ensures fits { OnOk result ((polls : ℕ) → AllFit shard polls (S.history port.old.store) 0 clients.old.items →
        AllFit shard polls (S.history port.new.store) 0 clients.new.items) }
    ensures count { OnOk result (length clients.new.items ≡ length clients.old.items + 1) }
    ensures failed { result ≡ Err StepFault.Store → StoreFailed (S.history port.new.store) (S.faults port.old.store) (S.faults port.new.store) }
    ensures sink { result ≢ Err StepFault.Sink }
    ensures later { S.faults port.old.store ≤ S.faults port.new.store }
{
    let number = clients.as_slice().len() as u64;
    port.client = number;
    let Entered { client, said } = make(alloc, port, shard, moment, made)?;
    seat(clients, client)?;
    Ok(Heard::Client {
        number,
        faults: 0,
        said,
    })
}

// The client with this number begins a command.
fn begin_at(
    alloc: Global,
    clients: &mut [Client],
    number: u64,
    what: Command,
    moment: u64,
) -> Result<Heard, StepFault>
    requires sound { AllByRecursion IsSound clients.old }
    ensures begins { IfOk result (BeginsAt moment number what clients.old clients.new) }
    ensures fits { OnOk result ((shard : Shard) (polls : ℕ) (front : Option History) → AllFit shard polls front 0 clients.old →
        AllFit shard polls front 0 clients.new) }
    ensures count { length clients.new ≡ length clients.old }
    ensures fault { FailsForMemory result }
{
    let place = number as usize;
    if place >= clients.len() {
        return Ok(Heard::Nothing);
    }
    let client = &mut clients[place];
    let said = begin(alloc, client, what, moment)?;
    Ok(Heard::Client {
        number,
        faults: 0,
        said,
    })
}

// The client with this number is polled.
fn step_at<S: Store>(
    alloc: Global,
    clients: &mut [Client],
    number: u64,
    port: &mut SolePort<S>,
    shard: ShardId,
    asked: u64,
    polls: u64,
) -> Result<Heard, StepFault>
    requires fits { AllFit shard asked (S.history port.old.store) 0 clients.old }
    requires few { asked + polls < most }
    ensures told { Goes shard (S.history port.old.store) (S.history port.new.store)
        (OrFails shard (StepsAt number polls clients.old clients.new) result) }
    ensures fits { OnOk result (AllFit shard (asked + polls) (S.history port.new.store) 0 clients.new) }
    ensures count { length clients.new ≡ length clients.old }
    ensures fault { result ≢ Err StepFault.Store }
    ensures sink { result ≢ Err StepFault.Sink }
    ensures later { S.faults port.old.store ≤ S.faults port.new.store }
{
    let place = number as usize;
    if place >= clients.len() {
        return Ok(Heard::Nothing);
    }
    port.client = number;
    let client = &mut clients[place];
    let stepped = step_client(alloc, client, port, shard, asked, polls)?;
    Ok(Heard::Client {
        number,
        faults: stepped.faults,
        said: stepped.answer,
    })
}

// Asks for the last version, as this client.
fn head<S: Store>(port: &mut SolePort<S>, shard: ShardId, client: u64) -> Result<Heard, StepFault>
    ensures told { Goes shard (S.history port.old.store) (S.history port.new.store)
        (OrFails shard (λ heard list start es now. Heads shard client heard start es now) result) }
    ensures by { OnOk result (GrowsBy client (S.history port.old.store) (S.history port.new.store)) }
    ensures failed { result ≡ Err StepFault.Store → StoreFailed (S.history port.new.store) (S.faults port.old.store) (S.faults port.new.store) }
    ensures sink { result ≢ Err StepFault.Sink }
    ensures later { S.faults port.old.store ≤ S.faults port.new.store }
{
    match port.store.call(client, &Call::Head { shard })? {
        Reply::Version(last) => Ok(Heard::Head(last)),
        Reply::Failed => Err(StepFault::Store),
        _ => Err(StepFault::Damaged),
    }
}

/// Executes a line. A Head is asked as the client `heads`.
pub fn execute_line<S: Store>(
    alloc: Global,
    scene: &mut Scene,
    line: StepLine,
    port: &mut SolePort<S>,
    shard: ShardId,
    heads: u64,
) -> Result<Heard, StepFault>
    requires ready { Ready shard (S.history port.old.store) scene.old }
    requires few { scene.old.polls + polls_of line < most }
    requires heads { length scene.old.clients.items ≤ heads }
    ensures told { Goes shard (S.history port.old.store) (S.history port.new.store)
        (OrFails shard (Does shard heads line (sitting scene.old) (sitting scene.new)) result) }
    ensures ready { OnOk result (Ready shard (S.history port.new.store) scene.new) }
    ensures polls { OnOk result (scene.new.polls ≡ scene.old.polls + polls_of line) }
    ensures made { OnOk result (length scene.new.clients.items ≡ length scene.old.clients.items + made_of line) }
    ensures failed { result ≡ Err StepFault.Store → StoreFailed (S.history port.new.store) (S.faults port.old.store) (S.faults port.new.store) }
    ensures sink { result ≢ Err StepFault.Sink }
    ensures later { S.faults port.old.store ≤ S.faults port.new.store }
{
    match line {
        StepLine::Make(made) => {
            make_next(alloc, &mut scene.clients, port, shard, scene.moment, made)
        }
        StepLine::Moment { to } => {
            scene.moment = to;
            Ok(Heard::Nothing)
        }
        StepLine::Begin { client, what } => {
            begin_at(alloc, &mut scene.clients, client, what, scene.moment)
        }
        StepLine::Step { client, polls } => {
            let asked = scene.polls;
            scene.polls += polls;
            step_at(alloc, &mut scene.clients, client, port, shard, asked, polls)
        }
        StepLine::Stop { .. } => Ok(Heard::Nothing),
        StepLine::Head => head(port, shard, heads),
    }
}
