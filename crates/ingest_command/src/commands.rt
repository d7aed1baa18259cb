// The command `ingest`: a feed is read, ingested by a crew over the store, and answered.
ghost use Rattle.std.specs.Prelude.{◌≡◌, ◌≤◌, ◌+◌};
ghost use Rattle.feed_text.specs.declared.limits.TheConstants.{MAX_BYTES};
ghost use Rattle.feed_text.specs.Streams.{ReadsUpTo};
ghost use Rattle.plain_run.specs.Endings.{StaysLawful};
ghost use Rattle.ingest_run.specs.Ends.{texts};
ghost use Rattle.ingest_command.specs.Endings.{EndsIngest, IsTold, IsToldReply, Replies, Spares, SparesReply, Writes};

use crate::endings::{IngestEnding, ending_of};
use crew::Gate;
use feed_text::{LineFault, MAX_BYTES, ReadFault, Sink, Source, put_all, read_up_to};
use ingest_run::{CrewSize, IngestEnd, ingest};
use ingest_text::{IngestFeed, parse_ingest};
use plain_run::Ending;
use std::alloc::Global;
use std::sync::Wait;
use std::thread::Threads;
use store_core::{ShardId, Store};

/// The store that was handed in, and how the command ended.
#[derive(Drop)]
pub struct Ingested<S> {
    pub store: S,
    pub ending: IngestEnding,
}

// The store, and the text of the replies, or how the command ends instead.
#[derive(Drop)]
struct Replied<S> {
    store: S,
    reply: Result<Vec<u8>, IngestEnding>,
}

// The replies to the feed that a text spells, where it spells one.
fn answer_text<S: Store + Send, G: Gate + Sync, R: Threads + Wait + Sync>(
    rt: &R,
    alloc: Global,
    text: &[u8],
    store: S,
    shard: ShardId,
    size: CrewSize,
    moment: u64,
    gate: &G,
) -> Replied<S>
    requires few { size.writers + size.compactors + size.collectors ≤ 64 }
    ensures replies { Replies shard size.compactors text.now (texts result.reply (λ text. text.items)) (S.history store) (S.history result.store) }
    ensures halted { IsToldReply size result.reply (S.history store) (S.history result.store) }
    ensures lawful { StaysLawful shard (S.history store) (S.history result.store) }
    ensures spares { SparesReply result.reply store result.store }
{
    match parse_ingest(alloc, text) {
        Ok(feed) => {
            let IngestEnd { store, reply } = ingest(
                rt, alloc, store, shard, feed, size, moment, gate,
            );
            match reply {
                Ok(text) => Replied {
                    store,
                    reply: Ok(text),
                },
                Err(fault) => Replied {
                    store,
                    reply: Err(ending_of(fault)),
                },
            }
        }
        Err(LineFault::Line { number }) => Replied {
            store,
            reply: Err(IngestEnding::AsRun(Ending::BadLine { number })),
        },
        Err(LineFault::Memory) => Replied {
            store,
            reply: Err(IngestEnding::AsRun(Ending::Memory)),
        },
    }
}

// Writes the replies, where there are some.
fn written<Si: Sink>(out: &mut Si, reply: Result<Vec<u8>, IngestEnding>) -> IngestEnding
    ensures writes { Writes (texts reply (λ text. text.items)) result (Si.taken out.old) (Si.taken out.new) (Si.faults out.old) (Si.faults out.new) }
    ensures later { Si.faults out.old ≤ Si.faults out.new }
{
    match reply {
        Ok(text) => match put_all(out, &text) {
            Ok(()) => IngestEnding::AsRun(Ending::Complete),
            Err(_) => IngestEnding::AsRun(Ending::OutputFailed),
        },
        Err(ending) => ending,
    }
}

/// Reads a feed of `ingest`, lets a crew append it to the shard, and writes the replies to its questions, all but a last line. See
/// docs/DEFINITIONS.md, "Ingests".
pub fn run_ingest<So: Source, Si: Sink, S: Store + Send, G: Gate + Sync, R: Threads + Wait + Sync>(
    rt: &R,
    alloc: Global,
    source: &mut So,
    out: &mut Si,
    store: S,
    shard: ShardId,
    size: CrewSize,
    moment: u64,
    gate: &G,
) -> Ingested<S>
    requires few { size.writers + size.compactors + size.collectors ≤ 64 }
    ensures ends { EndsIngest shard size.compactors result.ending (S.history store) (S.history result.store) (So.left source.old) (So.left source.new)
        (So.faults source.old) (So.faults source.new) (Si.taken out.old) (Si.taken out.new) (Si.faults out.old) (Si.faults out.new) }
    ensures halted { IsTold size result.ending (S.history store) (S.history result.store) }
    ensures reading { ReadsUpTo (MAX_BYTES + 1) (So.left source.old) (So.left source.new) (So.reads source.old) (So.reads source.new) }
    ensures lawful { StaysLawful shard (S.history store) (S.history result.store) }
    ensures spares { Spares result.ending store result.store }
    ensures later { Si.faults out.old ≤ Si.faults out.new }
{
    match read_up_to(alloc, source, MAX_BYTES + 1) {
        Ok(text) => {
            let Replied { store, reply } = answer_text(
                rt, alloc, &text, store, shard, size, moment, gate,
            );
            Ingested {
                store,
                ending: written(out, reply),
            }
        }
        Err(ReadFault::Source) => Ingested {
            store,
            ending: IngestEnding::AsRun(Ending::InputFailed),
        },
        Err(ReadFault::Memory) => Ingested {
            store,
            ending: IngestEnding::AsRun(Ending::Memory),
        },
    }
}
