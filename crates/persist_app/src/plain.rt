// The call that `persist_main` makes.
ghost use Rattle.std.specs.Prelude.{◌≡◌, ◌≤◌, ◌+◌, ◌⊎◌, Some, map, string_bytes};
ghost use Rattle.causes.specs.Causes.{Rose};
ghost use Rattle.feed_text.specs.declared.limits.TheConstants.{MAX_BYTES};
ghost use Rattle.feed_text.specs.Streams.{Gains, ReadsUpTo};
ghost use Rattle.driving.specs.StoreTurns.{Extends, StoreFailed};
ghost use Rattle.store_core.specs.declared.shards.ShardId.{ShardId};
ghost use Rattle.plain_run.specs.Answering.{AreApart};
ghost use Rattle.plain_run.specs.Endings.{FoundFull, FoundSpent, NoCollection, ReadsFeed, RunsPlainly, StaysLawful};
ghost use Rattle.step_run.specs.Endings.{ReadsSchedule, RunsSteps};
ghost use Rattle.persist_app.specs.Endings.{HasCommand, IsServed, IsStatus, NoCommand, Performs, RefusesLine};
ghost use Rattle.persist_app.specs.Endings.{RefusesStep, RunsOn, Serves, Spares, ending_of, input_failed_text, words_text};

use crate::clocks::Clock;
use crate::ends::Ended;
use crate::last_lines::finish;
use crate::served::Served;
use crate::words::command_of;
use driving::SolePort;
use feed_text::{Sink, Source};
use plain_run::{Ending, Place, run};
use std::alloc::Global;
use step_run::steps;
use store_core::{ShardId, Store};

// The clients of a run: its writer, its reader, and from this number on those that its lines make.
const WRITER: u64 = 0;

const READER: u64 = 1;

const OTHERS: u64 = 2;

fn place_of(shard: ShardId) -> Place
    ensures shard { result.shard ≡ shard }
    ensures apart { AreApart result }
{
    Place {
        shard,
        writer: WRITER,
        reader: READER,
        others: OTHERS,
    }
}

// A schedule ends as a run does.
fn ending_of(ending: step_run::Ending) -> Ending
    ensures { result ≡ ending_of ending }
{
    match ending {
        step_run::Ending::Complete => Ending::Complete,
        step_run::Ending::BadLine { number } => Ending::BadLine { number },
        step_run::Ending::InputFailed => Ending::InputFailed,
        step_run::Ending::OutputFailed => Ending::OutputFailed,
        step_run::Ending::StoreFailed => Ending::StoreFailed,
        step_run::Ending::Memory => Ending::Memory,
        step_run::Ending::Damaged => Ending::Damaged,
        step_run::Ending::Spent => Ending::Spent,
    }
}

// Does what the words say, but for the last line. None is that they are no command.
fn perform<So: Source, Si: Sink, S: Store>(
    alloc: Global,
    words: &[String],
    src: &mut So,
    out: &mut Si,
    port: &mut SolePort<S>,
    now: u64,
) -> Option<Ending>
    ensures ends { Performs (map string_bytes words.now) result (S.history port.old.store) (S.history port.new.store)
        (So.left src.old) (So.left src.new) (So.faults src.old) (So.faults src.new)
        (Si.taken out.old) (Si.taken out.new) (Si.faults out.old) (Si.faults out.new) }
    ensures reading { ReadsUpTo (MAX_BYTES + 1) (So.left src.old) (So.left src.new) (So.reads src.old) (So.reads src.new) }
    ensures failed { result ≡ Some Ending.StoreFailed →
        StoreFailed (S.history port.new.store) (S.faults port.old.store) (S.faults port.new.store) }
    ensures store { Extends (S.history port.old.store) (S.history port.new.store) }
    ensures lawful { (shard : ShardId) → IsServed (map string_bytes words.now) shard →
        StaysLawful shard (S.history port.old.store) (S.history port.new.store) }
    ensures spares { Spares result port.old.store port.new.store }
    ensures idle { NoCommand (map string_bytes words.now) → (port.new.store ≡ port.old.store) × (src.new ≡ src.old) }
    ensures later { Si.faults out.old ≤ Si.faults out.new }
{
    match command_of(alloc, words) {
        Ok(Some(Served::Run(shard))) => Some(run(alloc, src, out, port, place_of(shard), now)),
        Ok(Some(Served::Steps(shard))) => Some(ending_of(steps(alloc, src, out, port, shard))),
        Ok(None) => None,
        Err(_) => Some(Ending::Memory),
    }
}

/// Does what the words say, over a source, a sink and a store. The commands are `run` and `steps`, of the shard that the words name.
/// `run` reads a feed and writes the replies to it, and keeps the accepted updates in the store, on that shard. It starts from what
/// the store holds there, as client 0 that writes and client 1 that reads, and leaves as both. `steps` reads a schedule of single
/// store calls, executes it there, and writes what its clients are told. See docs/DEFINITIONS.md, "Words", "Plain runs", "Schedules
/// executed" and "Statuses".
pub fn persist_plain<So: Source, Si: Sink, S: Store, K: Clock>(
    alloc: Global,
    words: &Vec<String>,
    src: &mut So,
    out: &mut Si,
    store: S,
    clock: &mut K,
) -> Ended<S>
    ensures statuses { IsStatus result.status }
    // 0: the text was read to its end and spells what the command reads. Where the history is told, lawful and from a start that
    // stands for a list: `run` has written the plain run of its feed from the store's view, and nothing else, and the store that is
    // given back stands for the updates that the plain run ends with; of `steps` the entries that have come are those of the
    // schedule's lines in turn, and their text is written, and nothing else.
    ensures complete { result.status ≡ 0 → Serves (map string_bytes words.now.items)
        (λ shard. RunsPlainly shard (S.history store) (S.history result.store) (So.left src.old) (So.left src.new)
        (Si.taken out.old) (Si.taken out.new))
        (λ shard. RunsSteps shard (S.history store) (S.history result.store) (So.left src.old) (So.left src.new)
        (Si.taken out.old) (Si.taken out.new)) }
    // 2: the words are no command.
    ensures no_command { result.status ≡ 2 → NoCommand (map string_bytes words.now.items)
        × Gains (Si.taken out.old) (Si.taken out.new) words_text }
    // 3: a line is at fault, and nothing was executed.
    ensures line { result.status ≡ 3 → Serves (map string_bytes words.now.items)
        (λ shard. RefusesLine (So.left src.old) (Si.taken out.old) (Si.taken out.new))
        (λ shard. RefusesStep (So.left src.old) (Si.taken out.old) (Si.taken out.new)) }
    // 4: a read failed.
    ensures input { result.status ≡ 4 → HasCommand (map string_bytes words.now.items)
        × Rose (So.faults src.old) (So.faults src.new) × Gains (Si.taken out.old) (Si.taken out.new) input_failed_text }
    // 5: a put failed.
    ensures output { result.status ≡ 5 → Rose (Si.faults out.old) (Si.faults out.new) }
    // 6, and 9 to 11: the words are the command's, and the text was read to its end and spells what the command reads.
    // 6: a store call failed; where the history is told, it is the last call.
    ensures store_failed { result.status ≡ 6 → Serves (map string_bytes words.now.items)
        (λ shard. ReadsFeed (So.left src.old) (So.left src.new)) (λ shard. ReadsSchedule (So.left src.old) (So.left src.new))
        × StoreFailed (S.history result.store) (S.faults store) (S.faults result.store) }
    // 9: never where the history is told, lawful and from a start that stands for a list.
    ensures damaged { result.status ≡ 9 → Serves (map string_bytes words.now.items)
        (λ shard. ReadsFeed (So.left src.old) (So.left src.new) × NoCollection shard (S.history store) (S.history result.store))
        (λ shard. ReadsSchedule (So.left src.old) (So.left src.new) × NoCollection shard (S.history store) (S.history result.store)) }
    // 10: over such a history a Scan of this call showed 256 members; never of `steps`.
    ensures members_full { result.status ≡ 10 → RunsOn (map string_bytes words.now.items) (λ shard.
        ReadsFeed (So.left src.old) (So.left src.new) × FoundFull shard (S.history store) (S.history result.store)) }
    // 11: over such a history a Scan of this call showed a last version with the number 2^64 - 1.
    ensures spent { result.status ≡ 11 → Serves (map string_bytes words.now.items)
        (λ shard. ReadsFeed (So.left src.old) (So.left src.new) × FoundSpent shard (S.history store) (S.history result.store))
        (λ shard. ReadsSchedule (So.left src.old) (So.left src.new) × FoundSpent shard (S.history store) (S.history result.store)) }
    // At most one byte more than a text may have is read, and each read but the last takes one.
    ensures reading { ReadsUpTo (MAX_BYTES + 1) (So.left src.old) (So.left src.new) (So.reads src.old) (So.reads src.new) }
    // The history, where it is told, has the same start, and a trail that begins with the trail handed in.
    ensures store { Extends (S.history store) (S.history result.store) }
    // Where it was lawful, from a start that stands for a list, it still is.
    ensures lawful { (shard : ShardId) → IsServed (map string_bytes words.now.items) shard →
        StaysLawful shard (S.history store) (S.history result.store) }
    // Where the words are no command, the store and the source are as they were.
    ensures idle { NoCommand (map string_bytes words.now.items) → (result.store ≡ store) × (src.new ≡ src.old) }
    // Where nothing was executed, the store is as it was.
    ensures untouched { (result.status ≡ 2) ⊎ ((result.status ≡ 3) ⊎ (result.status ≡ 4)) → result.store ≡ store }
{
    let now = clock.now();
    let mut port = SolePort { store, client: 0 };
    let ending = perform(alloc, words, src, out, &mut port, now);
    Ended {
        status: finish(alloc, ending, out),
        store: port.store,
    }
}
