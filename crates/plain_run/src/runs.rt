// The command `run`: a feed is read, executed by a session over the store, and answered.
ghost use Rattle.std.specs.Prelude.{◌≡◌, ◌≤◌, ◌<◌, ◌+◌, Err, OnOk};
ghost use Rattle.std.specs.List.{AllByRecursion};
ghost use Rattle.update_core.specs.Limits.{most};
ghost use Rattle.feed_text.specs.declared.limits.TheConstants.{MAX_BYTES};
ghost use Rattle.feed_text.specs.Grammar.{IsCommand, IsFeed};
ghost use Rattle.causes.specs.Causes.{Rose};
ghost use Rattle.feed_text.specs.Streams.{ReadsUpTo};
ghost use Rattle.driving.specs.StoreTurns.{StoreFailed};
ghost use Rattle.driving.specs.Goings.{Goes};
ghost use Rattle.plain_run.specs.Answering.{AnswersLine, AnswersLines, AreApart, Executes, Ready, number_of};
ghost use Rattle.plain_run.specs.Endings.{AnswersText, EndsRun, Spares, StaysLawful};

use crate::endings::Ending;
use crate::places::Place;
use crate::run_faults::RunFault;
use crate::session_faults::SessionFault;
use crate::sessions::Session;
use driving::SolePort;
use feed_text::{
    Feed, FeedLine, FeedLines, LineFault, MAX_BYTES, ReadFault, RunReply, Sink, Source, parse_feed,
    print_reply, put_all, read_up_to,
};
use std::alloc::Global;
use std::collections::VecDeque;
use store_core::Store;

// The reply to one command.
fn answer<S: Store>(
    alloc: Global,
    session: &mut Session,
    line: FeedLine,
    port: &mut SolePort<S>,
) -> Result<RunReply, SessionFault>
    requires ready { Ready (S.history port.old.store) session.old }
    requires token { session.old.writer.token < most }
    requires command { IsCommand line }
    ensures told { Goes session.old.place.shard (S.history port.old.store) (S.history port.new.store) (AnswersLine session.old.place.shard (number_of session.old.reader) line result) }
    ensures ready { OnOk result (Ready (S.history port.new.store) session.new) }
    ensures place { OnOk result (session.new.place ≡ session.old.place) }
    ensures member { OnOk result (session.new.reader.member ≡ session.old.reader.member) }
    ensures token { OnOk result (session.new.writer.token ≤ session.old.writer.token + 1) }
    ensures failed { result ≡ Err SessionFault.Store → StoreFailed (S.history port.new.store) (S.faults port.old.store) (S.faults port.new.store) }
    ensures later { S.faults port.old.store ≤ S.faults port.new.store }
{
    match line {
        FeedLine::Append(append) => session.append(alloc, port, append),
        FeedLine::Snapshot { t } => session.snapshot(alloc, port, t),
        FeedLine::Listen { t } => session.listen(alloc, port, t),
        FeedLine::Since { to } => session.advance(alloc, port, to),
        FeedLine::Compact => session.compact(alloc, port),
    }
}

// The replies to a feed's commands in turn, each written once it stands.
fn answer_lines<Si: Sink, S: Store>(
    alloc: Global,
    lines: FeedLines,
    out: &mut Si,
    session: &mut Session,
    port: &mut SolePort<S>,
) -> Result<(), RunFault>
    requires ready { Ready (S.history port.old.store) session.old }
    requires token { session.old.writer.token ≡ 0 }
    requires feed { IsFeed lines }
    ensures told { Goes session.old.place.shard (S.history port.old.store) (S.history port.new.store) (AnswersLines session.old.place.shard (number_of session.old.reader) lines (Si.taken out.old) (Si.taken out.new) result) }
    ensures ready { OnOk result (Ready (S.history port.new.store) session.new) }
    ensures place { OnOk result (session.new.place ≡ session.old.place) }
    ensures cause { result ≡ Err RunFault.Sink → Rose (Si.faults out.old) (Si.faults out.new) }
    ensures failed { result ≡ Err RunFault.Store → StoreFailed (S.history port.new.store) (S.faults port.old.store) (S.faults port.new.store) }
    ensures later { Si.faults out.old ≤ Si.faults out.new }
    ensures calls { S.faults port.old.store ≤ S.faults port.new.store }
{
    let mut lines = VecDeque::from(lines.into_items());
    let mut text = Vec::new(alloc);
    while let Some(line) = lines.pop_front() {
        let reply = answer(alloc, session, line, port)?;
        text.clear();
        print_reply(&mut text, &reply)?;
        put_all(out, &text)?;
    }
    Ok(())
}

// A feed answered by a session that is opened for it and closed after it.
fn execute<Si: Sink, S: Store>(
    alloc: Global,
    feed: Feed,
    out: &mut Si,
    port: &mut SolePort<S>,
    place: Place,
    now: u64,
) -> Result<(), RunFault>
    requires apart { AreApart place }
    requires feed { IsFeed feed.lines }
    ensures told { Goes place.shard (S.history port.old.store) (S.history port.new.store) (Executes place.shard feed.lines (Si.taken out.old) (Si.taken out.new) result) }
    ensures cause { result ≡ Err RunFault.Sink → Rose (Si.faults out.old) (Si.faults out.new) }
    ensures failed { result ≡ Err RunFault.Store → StoreFailed (S.history port.new.store) (S.faults port.old.store) (S.faults port.new.store) }
    ensures later { Si.faults out.old ≤ Si.faults out.new }
{
    let mut session = Session::open(alloc, port, place, now)?;
    answer_lines(alloc, feed.lines, out, &mut session, port)?;
    session.close(alloc, port)?;
    Ok(())
}

// Executes the feed that a text spells, where it spells one.
#[tactic(auto, using(crate::proofs::RunLaws::rests_lawful))]
fn answer_text<Si: Sink, S: Store>(
    alloc: Global,
    text: &[u8],
    out: &mut Si,
    port: &mut SolePort<S>,
    place: Place,
    now: u64,
) -> Ending
    requires apart { AreApart place }
    ensures ends { AnswersText place.shard result (S.history port.old.store) (S.history port.new.store) text.now (Si.taken out.old) (Si.taken out.new) (Si.faults out.old) (Si.faults out.new) }
    ensures failed { result ≡ Ending.StoreFailed → StoreFailed (S.history port.new.store) (S.faults port.old.store) (S.faults port.new.store) }
    ensures lawful { StaysLawful place.shard (S.history port.old.store) (S.history port.new.store) }
    ensures spares { Spares result port.old.store port.new.store }
    ensures later { Si.faults out.old ≤ Si.faults out.new }
{
    match parse_feed(alloc, text) {
        Ok(feed) => match execute(alloc, feed, out, port, place, now) {
            Ok(()) => Ending::Complete,
            Err(RunFault::Sink) => Ending::OutputFailed,
            Err(RunFault::Store) => Ending::StoreFailed,
            Err(RunFault::Damaged) => Ending::Damaged,
            Err(RunFault::MembersFull) => Ending::MembersFull,
            Err(RunFault::Spent) => Ending::Spent,
            Err(RunFault::Memory) => Ending::Memory,
        },
        Err(LineFault::Line { number }) => Ending::BadLine { number },
        Err(LineFault::Memory) => Ending::Memory,
    }
}

/// Reads a feed, executes it and writes the replies, all but a last line. The accepted updates lie in the store, in the shard of the
/// place, which is called as its two clients. See docs/DEFINITIONS.md, "Plain runs".
#[tactic(auto, using(crate::proofs::RunLaws::rests_lawful))]
pub fn run<So: Source, Si: Sink, S: Store>(
    alloc: Global,
    source: &mut So,
    out: &mut Si,
    port: &mut SolePort<S>,
    place: Place,
    now: u64,
) -> Ending
    requires apart { AreApart place }
    ensures ends { EndsRun place.shard result (S.history port.old.store) (S.history port.new.store) (So.left source.old) (So.left source.new) (So.faults source.old) (So.faults source.new)
        (Si.taken out.old) (Si.taken out.new) (Si.faults out.old) (Si.faults out.new) }
    ensures reading { ReadsUpTo (MAX_BYTES + 1) (So.left source.old) (So.left source.new) (So.reads source.old) (So.reads source.new) }
    ensures failed { result ≡ Ending.StoreFailed → StoreFailed (S.history port.new.store) (S.faults port.old.store) (S.faults port.new.store) }
    ensures lawful { StaysLawful place.shard (S.history port.old.store) (S.history port.new.store) }
    ensures spares { Spares result port.old.store port.new.store }
    ensures later { Si.faults out.old ≤ Si.faults out.new }
{
    match read_up_to(alloc, source, MAX_BYTES + 1) {
        Ok(text) => answer_text(alloc, &text, out, port, place, now),
        Err(ReadFault::Source) => Ending::InputFailed,
        Err(ReadFault::Memory) => Ending::Memory,
    }
}
