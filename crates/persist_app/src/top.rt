// The call that `persist_main` makes.
ghost use Rattle.std.specs.Prelude.{◌≡◌, ◌≤◌, ◌+◌, ◌⊎◌, map, string_bytes};
ghost use Rattle.feed_text.specs.declared.limits.TheConstants.{MAX_BYTES};
ghost use Rattle.feed_text.specs.Streams.{ReadsUpTo};
ghost use Rattle.plain_run.specs.Endings.{StaysLawful};
ghost use Rattle.persist_app.specs.Endings.{NoCommand};
ghost use Rattle.persist_app.specs.TopEnds.{EndsCrew, EndsTop, NoCrew};

use crate::clocks::Clock;
use crate::crew_words::CrewWords;
use crate::ends::Ended;
use crate::last_lines::{end_with, finish_ingest};
use crate::plain::persist_plain;
use crate::statuses::Status;
use crate::words::crew_of;
use crew::Gate;
use feed_text::{Sink, Source};
use ingest_command::{Ingested, run_ingest};
use std::alloc::Global;
use std::sync::Wait;
use std::thread::Threads;
use store_core::Store;

// The command `ingest`, and its last line.
fn ingested<
    So: Source,
    Si: Sink,
    S: Store + Send,
    K: Clock,
    G: Gate + Sync,
    R: Threads + Wait + Sync,
>(
    rt: &R,
    alloc: Global,
    crew: CrewWords,
    src: &mut So,
    out: &mut Si,
    store: S,
    clock: &mut K,
    gate: &G,
) -> Ended<S>
    requires few { crew.size.writers + crew.size.compactors + crew.size.collectors ≤ 64 }
    ensures ends { EndsCrew crew (S.history store) (S.history result.store) (So.left src.old) (So.left src.new)
        (So.faults src.old) (So.faults src.new) (Si.taken out.old) (Si.taken out.new) (Si.faults out.old) (Si.faults out.new) result.status }
    ensures reading { ReadsUpTo (MAX_BYTES + 1) (So.left src.old) (So.left src.new) (So.reads src.old) (So.reads src.new) }
    ensures lawful { StaysLawful crew.shard (S.history store) (S.history result.store) }
    ensures untouched { (result.status ≡ 3) ⊎ (result.status ≡ 4) → result.store ≡ store }
{
    let CrewWords { shard, size } = crew;
    let now = clock.now();
    let Ingested { store, ending } = run_ingest(rt, alloc, src, out, store, shard, size, now, gate);
    let status = finish_ingest(alloc, ending, out);
    Ended { status, store }
}

/// Does what the words say, over a source, a sink and a store. `ingest` reads a feed of appends and questions, lets a crew of threads
/// append it to the shard that the words name, and writes the replies to the questions; the gate is asked before each call of a
/// worker. All other words are those of `persist_plain`. This alone, of the calls over a store, starts threads and waits for them. See
/// docs/DEFINITIONS.md, "Words", "Ingests" and "Statuses".
pub fn persist_top<
    So: Source,
    Si: Sink,
    S: Store + Send,
    K: Clock,
    G: Gate + Sync,
    R: Threads + Wait + Sync,
>(
    rt: &R,
    alloc: Global,
    words: &Vec<String>,
    src: &mut So,
    out: &mut Si,
    store: S,
    clock: &mut K,
    gate: &G,
) -> Ended<S>
    // What the status says: for the words of `ingest` how it ended, with its last line; for all others what `persist_plain` says.
    ensures ends { EndsTop (map string_bytes words.now.items) result.status (S.history store) (S.history result.store)
        (S.faults store) (S.faults result.store) (So.left src.old) (So.left src.new) (So.reads src.old) (So.reads src.new)
        (So.faults src.old) (So.faults src.new) (Si.taken out.old) (Si.taken out.new) (Si.faults out.old) (Si.faults out.new) }
    // Where the words are no command, the store and the source are as they were.
    ensures idle { NoCrew (map string_bytes words.now.items) → NoCommand (map string_bytes words.now.items) →
        (result.store ≡ store) × (src.new ≡ src.old) }
    // Where nothing was executed, the store is as it was.
    ensures untouched { (result.status ≡ 2) ⊎ ((result.status ≡ 3) ⊎ (result.status ≡ 4)) → result.store ≡ store }
{
    match crew_of(alloc, words) {
        Ok(Some(crew)) => ingested(rt, alloc, crew, src, out, store, clock, gate),
        Ok(None) => persist_plain(alloc, words, src, out, store, clock),
        Err(_) => Ended {
            status: end_with(out, b"memory\n", Status::Memory as u8),
            store,
        },
    }
}
