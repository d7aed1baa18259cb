// A schedule executed.
ghost use Rattle.std.specs.Prelude.{◌≡◌, ◌++◌, ◌≤◌, Err, OnOk};
ghost use Rattle.causes.specs.Causes.{Rose};
ghost use Rattle.feed_text.specs.Streams.{Gains};
ghost use Rattle.driving.specs.Goings.{Goes};
ghost use Rattle.driving.specs.StoreTurns.{StoreFailed};
ghost use Rattle.step_run.specs.Executing.{ExecutesTo, IsShort, nobody};
ghost use Rattle.step_run.specs.Faults.{FailsWriting};
ghost use Rattle.step_run.specs.Lines.{heard_text, name_at, sitting};

use crate::heard::Heard;
use crate::lines::execute_line;
use crate::printing::{print_faults, print_head, print_said};
use crate::scenes::Scene;
use crate::step_faults::StepFault;
use driving::SolePort;
use feed_text::{Sink, put_all};
use std::alloc::{AllocError, Global};
use std::collections::VecDeque;
use step_text::{Schedule, StepLines};
use store_core::{ShardId, Store};
use update_core::Datum;

// Puts the lines of what was heard at the end, under the client's name.
fn print_heard(out: &mut Vec<u8>, names: &[Datum], heard: &Heard) -> Result<(), AllocError>
    ensures { OnOk result (out.new.items ≡ out.old.items ++ heard_text names.now heard.now) }
{
    match heard {
        Heard::Client {
            number,
            faults,
            said,
        } => {
            let name = name_of(names, *number);
            print_faults(out, name, *faults)?;
            print_said(out, name, said)
        }
        Heard::Head(last) => print_head(out, last),
        Heard::Nothing => Ok(()),
    }
}

// Writes the lines of what was heard. The buffer is for use alone.
fn tell<Si: Sink>(
    out: &mut Si,
    buffer: &mut Vec<u8>,
    names: &[Datum],
    heard: Heard,
) -> Result<(), StepFault>
    ensures gains { OnOk result (Gains (Si.taken out.old) (Si.taken out.new) (heard_text names.now heard)) }
    ensures fault { FailsWriting result }
    ensures cause { result ≡ Err StepFault.Sink → Rose (Si.faults out.old) (Si.faults out.new) }
    ensures later { Si.faults out.old ≤ Si.faults out.new }
{
    buffer.clear();
    print_heard(buffer, names, &heard)?;
    put_all(out, buffer)?;
    Ok(())
}

// The name of the client with this number.
fn name_of(names: &[Datum], number: u64) -> &[u8]
    ensures { result.now ≡ name_at names.now number }
{
    match names.get(number as usize) {
        Some(name) => name.bytes(),
        None => b"",
    }
}

// Nothing has come yet.
fn opening(alloc: Global) -> Scene
    ensures nobody { sitting result ≡ nobody }
    ensures polls { result.polls ≡ 0 }
{
    Scene {
        clients: Vec::new(alloc),
        moment: 0,
        polls: 0,
    }
}

// Executes the lines in turn, and writes what each brings once it is done.
fn execute_lines<Si: Sink, S: Store>(
    alloc: Global,
    names: &[Datum],
    lines: StepLines,
    out: &mut Si,
    port: &mut SolePort<S>,
    shard: ShardId,
) -> Result<(), StepFault>
    requires short { IsShort (record { names = names.now; lines = lines }) }
    ensures told { Goes shard (S.history port.old.store) (S.history port.new.store)
        (ExecutesTo shard (record { names = names.now; lines = lines }) (Si.taken out.old) (Si.taken out.new) result) }
    ensures cause { result ≡ Err StepFault.Sink → Rose (Si.faults out.old) (Si.faults out.new) }
    ensures failed { result ≡ Err StepFault.Store → StoreFailed (S.history port.new.store) (S.faults port.old.store) (S.faults port.new.store) }
    ensures later { Si.faults out.old ≤ Si.faults out.new }
    ensures calls { S.faults port.old.store ≤ S.faults port.new.store }
{
    let heads = names.len() as u64;
    let mut lines = VecDeque::from(lines.into_items());
    let mut scene = opening(alloc);
    let mut buffer = Vec::new(alloc);
    while let Some(line) = lines.pop_front() {
        let heard = execute_line(alloc, &mut scene, line, port, shard, heads)?;
        tell(out, &mut buffer, names, heard)?;
    }
    Ok(())
}

/// Executes a schedule over the shard, as its clients from 0 on, and writes what each line brings once it is done.
pub(crate) fn execute<Si: Sink, S: Store>(
    alloc: Global,
    schedule: Schedule,
    out: &mut Si,
    port: &mut SolePort<S>,
    shard: ShardId,
) -> Result<(), StepFault>
    requires short { IsShort schedule }
    ensures told { Goes shard (S.history port.old.store) (S.history port.new.store)
        (ExecutesTo shard schedule (Si.taken out.old) (Si.taken out.new) result) }
    ensures cause { result ≡ Err StepFault.Sink → Rose (Si.faults out.old) (Si.faults out.new) }
    ensures failed { result ≡ Err StepFault.Store → StoreFailed (S.history port.new.store) (S.faults port.old.store) (S.faults port.new.store) }
    ensures later { Si.faults out.old ≤ Si.faults out.new }
{
    let Schedule { names, lines } = schedule;
    execute_lines(alloc, names.as_slice(), lines, out, port, shard)
}
