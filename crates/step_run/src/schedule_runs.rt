// The command `steps`: a schedule is read and executed.
ghost use Rattle.std.specs.Prelude.{◌≡◌, ◌≤◌, ◌+◌};
ghost use Rattle.feed_text.specs.declared.limits.TheConstants.{MAX_BYTES};
ghost use Rattle.feed_text.specs.Streams.{ReadsUpTo};
ghost use Rattle.driving.specs.StoreTurns.{StoreFailed};
ghost use Rattle.step_run.specs.Endings.{AnswersText, EndsSteps, Spares, StaysLawful};

use crate::endings::Ending;
use crate::executing::execute;
use crate::step_faults::StepFault;
use driving::SolePort;
use feed_text::{LineFault, MAX_BYTES, ReadFault, Sink, Source, read_up_to};
use std::alloc::Global;
use step_text::parse_steps;
use store_core::{ShardId, Store};

// Executes the schedule that a text spells, where it spells one.
fn answer_text<Si: Sink, S: Store>(
    alloc: Global,
    text: &[u8],
    out: &mut Si,
    port: &mut SolePort<S>,
    shard: ShardId,
) -> Ending
    ensures ends { AnswersText shard result (S.history port.old.store) (S.history port.new.store) text.now (Si.taken out.old) (Si.taken out.new) (Si.faults out.old) (Si.faults out.new) }
    ensures failed { result ≡ Ending.StoreFailed → StoreFailed (S.history port.new.store) (S.faults port.old.store) (S.faults port.new.store) }
    ensures lawful { StaysLawful shard (S.history port.old.store) (S.history port.new.store) }
    ensures spares { Spares result port.old.store port.new.store }
    ensures later { Si.faults out.old ≤ Si.faults out.new }
{
    match parse_steps(alloc, text) {
        Ok(schedule) => match execute(alloc, schedule, out, port, shard) {
            Ok(()) => Ending::Complete,
            Err(StepFault::Sink) => Ending::OutputFailed,
            Err(StepFault::Store) => Ending::StoreFailed,
            Err(StepFault::Damaged) => Ending::Damaged,
            Err(StepFault::Spent) => Ending::Spent,
            Err(StepFault::Memory) => Ending::Memory,
        },
        Err(LineFault::Line { number }) => Ending::BadLine { number },
        Err(LineFault::Memory) => Ending::Memory,
    }
}

/// Reads a schedule, executes it over the shard and writes what its lines bring, all but a last line. Its clients are numbered from 0
/// in the order of their making; a Head is asked as the next one. At the end nothing is closed. See docs/DEFINITIONS.md, "Schedules
/// executed".
#[tactic(auto, using(crate::proofs::TextRead::rests_lawful))]
pub fn steps<So: Source, Si: Sink, S: Store>(
    alloc: Global,
    source: &mut So,
    out: &mut Si,
    port: &mut SolePort<S>,
    shard: ShardId,
) -> Ending
    ensures ends { EndsSteps shard result (S.history port.old.store) (S.history port.new.store) (So.left source.old) (So.left source.new) (So.faults source.old) (So.faults source.new)
        (Si.taken out.old) (Si.taken out.new) (Si.faults out.old) (Si.faults out.new) }
    ensures reading { ReadsUpTo (MAX_BYTES + 1) (So.left source.old) (So.left source.new) (So.reads source.old) (So.reads source.new) }
    ensures failed { result ≡ Ending.StoreFailed → StoreFailed (S.history port.new.store) (S.faults port.old.store) (S.faults port.new.store) }
    ensures lawful { StaysLawful shard (S.history port.old.store) (S.history port.new.store) }
    ensures spares { Spares result port.old.store port.new.store }
    ensures later { Si.faults out.old ≤ Si.faults out.new }
{
    match read_up_to(alloc, source, MAX_BYTES + 1) {
        Ok(text) => answer_text(alloc, &text, out, port, shard),
        Err(ReadFault::Source) => Ending::InputFailed,
        Err(ReadFault::Memory) => Ending::Memory,
    }
}
