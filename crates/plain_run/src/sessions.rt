// A session of a run: a writer and a reader of one shard.
ghost use Rattle.std.specs.Prelude.{◌≡◌, ◌≤◌, ◌<◌, ◌+◌, Err, IfOk, OnOk, true, length, position, None};
ghost use Rattle.feed_text.specs.declared.limits.TheConstants.{MAX_ROWS};
ghost use Rattle.update_core.specs.Collections.{append_answer, after_append, listen_answer, snapshot_answer};
ghost use Rattle.update_core.specs.Frontiers.{after, covers};
ghost use Rattle.update_core.specs.Updates.{weight_of};
ghost use Rattle.update_core.specs.Limits.{most};
ghost use Rattle.plain_run.specs.PlainRuns.{append_reply, append_text, collection_after, is_outside, listen_text, since_reply, snapshot_text, view_since, view_with};
ghost use Rattle.driving.specs.StoreTurns.{StoreFailed};
ghost use Rattle.driving.specs.Goings.{Goes};
ghost use Rattle.plain_run.specs.Answering.{AreApart, Closed, Opens, OpensWriter, ReaderReady, Ready, Replies, WriterReady, number_of, write_reply, writer_let_in};

use crate::collections::first_outside;
use crate::drives::drive_writer;
use crate::places::Place;
use crate::readings::{advance_reader, close_reader, open_reader, read_listen, read_snapshot};
use crate::session_faults::SessionFault;
use driving::SolePort;
use feed_text::RunReply;
use history_core::WriteAnswer;
use read_client::Reader;
use std::alloc::Global;
use store_core::Store;
use update_core::FeedAppend;
use write_client::Writer;

/// The writer and the reader of a run, where it takes place, the moment that the clock told, and the number of the next client that
/// a line makes.
#[derive(Drop)]
pub(crate) struct Session {
    pub place: Place,
    pub writer: Writer,
    pub reader: Reader,
    pub now: u64,
    pub next: u64,
}

// The reply that a writer's answer to an append is.
fn reply_written(answer: WriteAnswer) -> Result<RunReply, SessionFault>
    ensures { result ≡ write_reply answer }
{
    match answer {
        WriteAnswer::Ok => Ok(RunReply::Accepted),
        WriteAnswer::Mismatch { current } => Ok(RunReply::Mismatch { upper: current }),
        WriteAnswer::Heavy { weight } => Ok(RunReply::Heavy { weight }),
        _ => Err(SessionFault::Damaged),
    }
}

// Whether the writer was let in.
fn writer_joined(answer: WriteAnswer) -> Result<(), SessionFault>
    ensures { result ≡ writer_let_in answer }
{
    match answer {
        WriteAnswer::Opened { .. } => Ok(()),
        WriteAnswer::MembersFull { .. } => Err(SessionFault::MembersFull),
        _ => Err(SessionFault::Damaged),
    }
}

// A writer that has joined.
fn open_writer<S: Store>(
    alloc: Global,
    port: &mut SolePort<S>,
    place: Place,
) -> Result<Writer, SessionFault>
    ensures told { Goes place.shard (S.history port.old.store) (S.history port.new.store) (OpensWriter place.shard result) }
    ensures ready { IfOk result (WriterReady place.shard place.writer (S.history port.new.store)) }
    ensures token { IfOk result (λ w. w.token ≡ 0) }
    ensures failed { result ≡ Err SessionFault.Store → StoreFailed (S.history port.new.store) (S.faults port.old.store) (S.faults port.new.store) }
    ensures later { S.faults port.old.store ≤ S.faults port.new.store }
{
    let mut writer = Writer::open(alloc, place.shard);
    let answer = drive_writer(alloc, &mut writer, port, place)?;
    writer_joined(answer)?;
    Ok(writer)
}

impl Session {
    /// A session whose writer and reader have joined.
    pub fn open<S: Store>(
        alloc: Global,
        port: &mut SolePort<S>,
        place: Place,
        now: u64,
    ) -> Result<Session, SessionFault>
        requires apart { AreApart place }
        ensures told { Goes place.shard (S.history port.old.store) (S.history port.new.store) (Opens place.shard result) }
        ensures ready { IfOk result (Ready (S.history port.new.store)) }
        ensures token { IfOk result (λ s. s.writer.token ≡ 0) }
        ensures place { IfOk result (λ s. s.place ≡ place) }
        ensures failed { result ≡ Err SessionFault.Store → StoreFailed (S.history port.new.store) (S.faults port.old.store) (S.faults port.new.store) }
        ensures later { S.faults port.old.store ≤ S.faults port.new.store }
    {
        let writer = open_writer(alloc, port, place)?;
        let reader = open_reader(alloc, port, place, now)?;
        Ok(Session {
            place,
            writer,
            reader,
            now,
            next: place.others,
        })
    }

    /// Appends the rows where the append isn't empty, each row is in range, the upper is at its lower and the weight stays
    /// within 2^62.
    pub fn append<S: Store>(
        &mut self,
        alloc: Global,
        port: &mut SolePort<S>,
        append: FeedAppend,
    ) -> Result<RunReply, SessionFault>
        requires ready { Ready (S.history port.old.store) self.old }
        requires token { self.old.writer.token < most }
        requires few { length append.rows ≤ MAX_ROWS }
        ensures told { Goes self.old.place.shard (S.history port.old.store) (S.history port.new.store) (Replies self.old.place.shard (number_of self.old.reader) (λ view. append_reply view.collection append) (λ view. view_with view (collection_after view.collection append)) result) }
        ensures ready { OnOk result (Ready (S.history port.new.store) self.new) }
        ensures place { OnOk result (self.new.place ≡ self.old.place) }
        ensures member { OnOk result (self.new.reader.member ≡ self.old.reader.member) }
        ensures token { OnOk result (self.new.writer.token ≤ self.old.writer.token + 1) }
        ensures failed { result ≡ Err SessionFault.Store → StoreFailed (S.history port.new.store) (S.faults port.old.store) (S.faults port.new.store) }
        ensures later { S.faults port.old.store ≤ S.faults port.new.store }
    {
        if !append.upper.covers(append.lower) {
            return Ok(RunReply::Empty);
        }
        if let Some(place) = first_outside(&append) {
            return Ok(RunReply::Range {
                row: place as u64 + 1,
            });
        }
        self.accept(alloc, port, append)
    }

    // An append that is in range.
    fn accept<S: Store>(
        &mut self,
        alloc: Global,
        port: &mut SolePort<S>,
        append: FeedAppend,
    ) -> Result<RunReply, SessionFault>
        requires ready { Ready (S.history port.old.store) self.old }
        requires token { self.old.writer.token < most }
        requires few { length append.rows ≤ MAX_ROWS }
        requires forward { covers append.upper append.lower ≡ true }
        requires in_range { position (is_outside append) append.rows ≡ None }
        ensures told { Goes self.old.place.shard (S.history port.old.store) (S.history port.new.store) (Replies self.old.place.shard (number_of self.old.reader) (λ view. append_text (append_answer view.collection append.lower (weight_of append.rows))) (λ view. view_with view (after_append view.collection append.rows append.lower append.upper (weight_of append.rows))) result) }
        ensures ready { OnOk result (Ready (S.history port.new.store) self.new) }
        ensures place { OnOk result (self.new.place ≡ self.old.place) }
        ensures member { OnOk result (self.new.reader.member ≡ self.old.reader.member) }
        ensures token { OnOk result (self.new.writer.token ≤ self.old.writer.token + 1) }
        ensures failed { result ≡ Err SessionFault.Store → StoreFailed (S.history port.new.store) (S.faults port.old.store) (S.faults port.new.store) }
        ensures later { S.faults port.old.store ≤ S.faults port.new.store }
    {
        let FeedAppend { lower, upper, rows } = append;
        self.writer.begin_append(alloc, rows, lower, upper)?;
        let answer = drive_writer(alloc, &mut self.writer, port, self.place)?;
        reply_written(answer)
    }

    /// The content at a time.
    pub fn snapshot<S: Store>(
        &mut self,
        alloc: Global,
        port: &mut SolePort<S>,
        t: u64,
    ) -> Result<RunReply, SessionFault>
        requires ready { Ready (S.history port.old.store) self.old }
        ensures told { Goes self.old.place.shard (S.history port.old.store) (S.history port.new.store) (Replies self.old.place.shard (number_of self.old.reader) (λ view. snapshot_text (snapshot_answer view.collection t)) (λ view. view) result) }
        ensures ready { OnOk result (Ready (S.history port.new.store) self.new) }
        ensures place { OnOk result (self.new.place ≡ self.old.place) }
        ensures member { OnOk result (self.new.reader.member ≡ self.old.reader.member) }
        ensures token { OnOk result (self.new.writer.token ≡ self.old.writer.token) }
        ensures failed { result ≡ Err SessionFault.Store → StoreFailed (S.history port.new.store) (S.faults port.old.store) (S.faults port.new.store) }
        ensures later { S.faults port.old.store ≤ S.faults port.new.store }
    {
        read_snapshot(alloc, &mut self.reader, port, self.place, t)
    }

    /// The updates after a time, up to the upper.
    pub fn listen<S: Store>(
        &mut self,
        alloc: Global,
        port: &mut SolePort<S>,
        t: u64,
    ) -> Result<RunReply, SessionFault>
        requires ready { Ready (S.history port.old.store) self.old }
        ensures told { Goes self.old.place.shard (S.history port.old.store) (S.history port.new.store) (Replies self.old.place.shard (number_of self.old.reader) (λ view. listen_text (listen_answer view.collection (after t))) (λ view. view) result) }
        ensures ready { OnOk result (Ready (S.history port.new.store) self.new) }
        ensures place { OnOk result (self.new.place ≡ self.old.place) }
        ensures member { OnOk result (self.new.reader.member ≡ self.old.reader.member) }
        ensures token { OnOk result (self.new.writer.token ≡ self.old.writer.token) }
        ensures failed { result ≡ Err SessionFault.Store → StoreFailed (S.history port.new.store) (S.faults port.old.store) (S.faults port.new.store) }
        ensures later { S.faults port.old.store ≤ S.faults port.new.store }
    {
        read_listen(alloc, &mut self.reader, port, self.place, t)
    }

    /// Moves the reader's since to this time, where that isn't below it.
    pub fn advance<S: Store>(
        &mut self,
        alloc: Global,
        port: &mut SolePort<S>,
        to: u64,
    ) -> Result<RunReply, SessionFault>
        requires ready { Ready (S.history port.old.store) self.old }
        ensures told { Goes self.old.place.shard (S.history port.old.store) (S.history port.new.store) (Replies self.old.place.shard (number_of self.old.reader) (λ view. since_reply view.own to) (λ view. view_since view to) result) }
        ensures ready { OnOk result (Ready (S.history port.new.store) self.new) }
        ensures place { OnOk result (self.new.place ≡ self.old.place) }
        ensures member { OnOk result (self.new.reader.member ≡ self.old.reader.member) }
        ensures token { OnOk result (self.new.writer.token ≡ self.old.writer.token) }
        ensures failed { result ≡ Err SessionFault.Store → StoreFailed (S.history port.new.store) (S.faults port.old.store) (S.faults port.new.store) }
        ensures later { S.faults port.old.store ≤ S.faults port.new.store }
    {
        advance_reader(alloc, &mut self.reader, port, self.place, to)
    }

    // The writer leaves.
    fn close_writer<S: Store>(
        &mut self,
        alloc: Global,
        port: &mut SolePort<S>,
    ) -> Result<(), SessionFault>
        requires ready { Ready (S.history port.old.store) self.old }
        ensures told { Goes self.old.place.shard (S.history port.old.store) (S.history port.new.store) (Closed self.old.place.shard result) }
        ensures place { OnOk result (self.new.place ≡ self.old.place) }
        ensures ready { OnOk result (ReaderReady self.old.place.shard self.old.place.reader (S.history port.new.store) self.new.reader) }
        ensures failed { result ≡ Err SessionFault.Store → StoreFailed (S.history port.new.store) (S.faults port.old.store) (S.faults port.new.store) }
        ensures later { S.faults port.old.store ≤ S.faults port.new.store }
    {
        self.writer.begin_close(alloc)?;
        let _answer = drive_writer(alloc, &mut self.writer, port, self.place)?;
        Ok(())
    }

    // The reader leaves.
    fn close_reader<S: Store>(
        &mut self,
        alloc: Global,
        port: &mut SolePort<S>,
    ) -> Result<(), SessionFault>
        requires ready { ReaderReady self.old.place.shard self.old.place.reader (S.history port.old.store) self.old.reader }
        ensures told { Goes self.old.place.shard (S.history port.old.store) (S.history port.new.store) (Closed self.old.place.shard result) }
        ensures failed { result ≡ Err SessionFault.Store → StoreFailed (S.history port.new.store) (S.faults port.old.store) (S.faults port.new.store) }
        ensures later { S.faults port.old.store ≤ S.faults port.new.store }
    {
        close_reader(alloc, &mut self.reader, port, self.place)
    }

    /// The writer leaves, and then the reader.
    pub fn close<S: Store>(
        &mut self,
        alloc: Global,
        port: &mut SolePort<S>,
    ) -> Result<(), SessionFault>
        requires ready { Ready (S.history port.old.store) self.old }
        ensures told { Goes self.old.place.shard (S.history port.old.store) (S.history port.new.store) (Closed self.old.place.shard result) }
        ensures failed { result ≡ Err SessionFault.Store → StoreFailed (S.history port.new.store) (S.faults port.old.store) (S.faults port.new.store) }
        ensures later { S.faults port.old.store ≤ S.faults port.new.store }
    {
        self.close_writer(alloc, port)?;
        self.close_reader(alloc, port)
    }
}
