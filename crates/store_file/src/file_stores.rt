// A store in a file.
ghost use Rattle.std.specs.Prelude.{◌≡◌, ◌+◌, ◌<◌, ◌^◌, true, false, not, length, [], ◌∷◌, ◌++◌, vec_len, vec_capacity};
ghost use Rattle.std.specs.Option.{ForSome};
ghost use Rattle.store_core.specs.Histories.{replay};
ghost use Rattle.store_core.specs.Contents.{stored_of};
ghost use Rattle.std.proofs.Props.{props};
ghost use Rattle.store_file.specs.Replays.{Keeps};
ghost use Rattle.store_file.specs.SinceOpening.{AreSpelled, MadeStart, RecordedWhereTold, SafeWhereTold, ToldAsMuch, all_done};

use crate::found::Found;
use crate::open_fails::OpenFail;
use crate::open_faults::OpenFault;
use crate::opened::opened;
use crate::payloads::record_of;
use crate::taking::added;
use causes::one_more;
use journal_core::{Disk, Journal, Record, begin};
use std::alloc::{AllocError, Global};
use std::snapshot::Snapshot;
use store_core::{Call, Contents, Entry, Outcome, Reply, Store};

/// A store whose changes stand in a journal on a disk, with what it has been asked. What it began with, and how the disk was then, is
/// known to proofs alone. Whatever a crash left at any moment since then has the records of the first changes of the trail.
#[derive(Drop)]
pub struct FileStore<D: Disk> {
    alloc: Global,
    journal: Journal<D>,
    opened: Snapshot<D>,
    start: Snapshot<Contents>,
    current: Contents,
    trail: Vec<Entry>,
    shut: bool,
    refused: u64,
    ghost replayed: { shut ≡ false → stored_of current ≡ replay (stored_of start.value) trail.items },
    ghost kept: { ForSome (D.history journal.disk) (λ h. shut ≡ false → Keeps (stored_of current) journal.end h) },
    ghost done: { all_done trail.items ≡ not shut },
    ghost spelled: { AreSpelled (stored_of start.value) trail.items },
    ghost told: { ToldAsMuch (D.history opened.value) (D.history journal.disk) },
    ghost made: { MadeStart (D.history opened.value) (stored_of start.value) },
    ghost recorded: { shut ≡ false → RecordedWhereTold (D.history opened.value) (stored_of start.value) trail.items
        (D.history journal.disk) },
    ghost safe: { SafeWhereTold (D.history opened.value) (stored_of start.value) trail.items (D.history journal.disk) } by { Prim.hlevel props },
}

fn has_room(end: u64, change: &Record) -> bool
    ensures { result ≡ true → end + length change.now + 10 < 2 ^ 64 }
{
    end <= 1 << 62 && change.len() <= 1 << 62
}

// One entry more, for which there is room.
fn note(trail: &mut Vec<Entry>, entry: Entry)
    requires { vec_len trail.old < vec_capacity trail.old }
    ensures { trail.new.items ≡ trail.old.items ++ entry ∷ [] }
{
    let Ok(()) = trail.push(entry) else {
        unreachable!()
    };
}

impl<D: Disk> FileStore<D> {
    ghost use Rattle.std.specs.Prelude.{Some, None, IfOk, IfErr, OnOk, OnErr, MatchResult, ◌≤◌, ◌+◌, ◌≢◌, ◌↔◌};
    ghost use Rattle.causes.specs.Causes.{Rose};
    ghost use Rattle.store_core.specs.Stores.{Stored, after_call, reply_of, empty_store};
    ghost use Rattle.journal_core.specs.Opening.{IsEmpty};
    ghost use Rattle.journal_core.specs.Records.{HasAdded, AddsSafely};
    ghost use Rattle.store_file.specs.Payloads.{payload_of};
    ghost use Rattle.store_core.specs.Changes.{changes};
    ghost use Rattle.store_core.specs.Histories.{Adds};
    ghost use Rattle.journal_core.specs.Crashes.{LeavesNow, LeavesWhereTold};
    ghost use Rattle.store_file.specs.Replays.{Stands, StandsForEither, KeepsWhereTold};
    ghost use Rattle.store_file.specs.Causes.{IsCauseOf, IsFromOutside};
    ghost use Rattle.store_file.specs.FileStores.{history_of, told, HasEntry, store_now, disk_of, disk_faults, file_faults, is_shut};
    ghost use Rattle.store_file.specs.FileStores.{end_of, opened_disk};
    ghost use Rattle.store_file.specs.SinceOpening.{StandsForFirst};

    // The store that begins with what its disk keeps. It takes no memory.
    fn starting(alloc: Global, disk: D, contents: Contents, end: u64) -> FileStore<D>
        requires { KeepsWhereTold (stored_of contents) end (D.history disk) }
        ensures start { (history_of result).start ≡ stored_of contents }
        ensures opened { opened_disk result ≡ disk_of result }
        ensures trail { (history_of result).trail ≡ [] }
        ensures open { is_shut result ≡ false }
        ensures disk { disk_of result ≡ D.history disk }
        ensures faults { disk_faults result ≡ D.faults disk }
    {
        let start = Snapshot::of(&contents);
        let opened = Snapshot::of(&disk);
        FileStore {
            alloc,
            journal: Journal { disk, end },
            opened,
            start,
            current: contents,
            trail: Vec::new(alloc),
            shut: false,
            refused: 0,
        }
    }

    /// An empty store on an empty disk. It takes no memory. Of a crash within it nothing is promised.
    pub fn create(alloc: Global, disk: D) -> Result<FileStore<D>, OpenFail<D>>
        requires { IsEmpty (D.history disk) }
        ensures history { IfOk result (λ store. history_of store ≡ record { start = empty_store; trail = [] }) }
        ensures opened { IfOk result (λ store. opened_disk store ≡ disk_of store) }
        ensures open { IfOk result (λ store. is_shut store ≡ false) }
        ensures fault { IfErr result (λ fail. (fail.why ≡ OpenFault.DiskFault) × Rose (D.faults disk) (D.faults fail.disk)) }
        ensures later { IfOk result (λ store. D.faults disk ≤ disk_faults store) }
    {
        let mut disk = disk;
        match begin(&mut disk) {
            Ok(()) => Ok(FileStore::starting(alloc, disk, Contents::new(alloc), 8)),
            Err(_) => Err(OpenFail {
                disk,
                why: OpenFault::DiskFault,
            }),
        }
    }

    /// The store that the journal on a disk makes. The disk is left at rest. A crash within it may leave the last record that was being
    /// added, or leave it out.
    pub fn open(alloc: Global, disk: D) -> Result<FileStore<D>, OpenFail<D>>
        // It begins with the store that the bytes stand for.
        ensures start { IfOk result (λ store. ForSome (D.history disk) (λ h. Stands (history_of store).start h.now.bytes)) }
        ensures opened { IfOk result (λ store. opened_disk store ≡ disk_of store) }
        ensures trail { IfOk result (λ store. (history_of store).trail ≡ []) }
        ensures open { IfOk result (λ store. is_shut store ≡ false) }
        ensures later { IfOk result (λ store. D.faults disk ≤ disk_faults store) }
        // Where they stand for a store, it is that one, and nothing but the disk or want of memory refuses it.
        ensures whole { (s : Stored) → ForSome (D.history disk) (λ h. Stands s h.now.bytes
            → MatchResult result (λ store. (history_of store).start ≡ s) (λ fail. IsFromOutside fail.why)) }
        ensures fault { IfErr result (λ fail. IsCauseOf (D.history disk) (D.faults disk) (D.faults fail.disk) fail.why) }
    {
        let mut disk = disk;
        match opened(alloc, &mut disk) {
            Ok(Found { contents, end, .. }) => Ok(FileStore::starting(alloc, disk, contents, end)),
            Err(why) => Err(OpenFail { disk, why }),
        }
    }

    /// Whether a call on the disk has failed since the store was opened. Each call of a shut store fails.
    pub fn shut(&self) -> bool
        ensures { result ≡ is_shut self.now }
    {
        self.shut
    }

    /// The disk as it is. While the store isn't shut, its bytes, and those that a crash leaves of it, stand for the store as it is.
    pub fn into_disk(self) -> D
        ensures history { D.history result ≡ disk_of self }
        ensures faults { D.faults result ≡ disk_faults self }
        ensures kept { is_shut self ≡ false → ForSome (D.history result) (λ h. Keeps (store_now self) (end_of self) h) }
        ensures stands { is_shut self ≡ false → ForSome (D.history result) (λ h. Stands (store_now self) h.now.bytes) }
        ensures crash { is_shut self ≡ false → ForSome (D.history result) (λ h. LeavesNow (Stands (store_now self)) h.now) }
        // Whatever a crash left at any moment since the store was opened, within a call too, stands for the store after its first calls,
        // with or without the one that was in progress.
        ensures any_moment { LeavesWhereTold (StandsForFirst (history_of self)) (opened_disk self) (D.history result) }
    {
        let FileStore {
            journal: Journal { disk, .. },
            ..
        } = self;
        disk
    }

    // A call while the store is shut.
    fn refuse(&mut self, client: u64, call: &Call) -> Result<Reply, AllocError>
        requires { is_shut self.old ≡ true }
        ensures failed { IfOk result (λ reply. reply ≡ Reply.Failed) }
        ensures opened { opened_disk self.new ≡ opened_disk self.old }
        ensures entry { OnOk result (HasEntry client call.now Outcome.FailedLost (history_of self.old) (history_of self.new)) }
        ensures rose { OnOk result (Rose (file_faults self.old) (file_faults self.new)) }
        ensures memory { OnErr result (history_of self.new ≡ history_of self.old) }
        ensures later { file_faults self.old ≤ file_faults self.new }
        ensures disk { disk_of self.new ≡ disk_of self.old }
        ensures same { disk_faults self.new ≡ disk_faults self.old }
        ensures shut { is_shut self.new ≡ true }
    {
        let call = call.copy()?;
        let outcome = Outcome::FailedLost;
        self.trail.push(Entry {
            client,
            call,
            outcome,
        })?;
        self.refused = one_more(self.refused);
        Ok(Reply::Failed)
    }

    // A call that isn't a change.
    fn look(&mut self, client: u64, call: &Call) -> Result<Reply, AllocError>
        requires open { is_shut self.old ≡ false }
        requires same { changes (store_now self.old) call.now ≡ false }
        ensures reply { IfOk result (λ reply. reply ≡ reply_of (store_now self.old) call.now) }
        ensures opened { opened_disk self.new ≡ opened_disk self.old }
        ensures entry { OnOk result (HasEntry client call.now Outcome.Took (history_of self.old) (history_of self.new)) }
        ensures memory { OnErr result (history_of self.new ≡ history_of self.old) }
        ensures faults { file_faults self.new ≡ file_faults self.old }
        ensures same_faults { disk_faults self.new ≡ disk_faults self.old }
        ensures disk { disk_of self.new ≡ disk_of self.old }
        ensures shut { is_shut self.new ≡ false }
    {
        let copy = call.copy()?;
        self.trail.reserve(1)?;
        let reply = self.current.apply(self.alloc, call)?;
        let outcome = Outcome::Took;
        note(
            &mut self.trail,
            Entry {
                client,
                call: copy,
                outcome,
            },
        );
        Ok(reply)
    }

    // A change: the store takes it, and then the journal. Where the disk fails, the store is shut, and keeps it to itself.
    fn change(&mut self, client: u64, call: &Call) -> Result<Reply, AllocError>
        requires open { is_shut self.old ≡ false }
        requires changes { changes (store_now self.old) call.now ≡ true }
        ensures entry { IfOk result (λ reply. Adds (told self.old) (told self.new) client call.now reply) }
        ensures done { is_shut self.new ≡ false → OnOk result
            (HasEntry client call.now Outcome.Took (history_of self.old) (history_of self.new)) }
        ensures lost { is_shut self.new ≡ true
            → OnOk result (HasEntry client call.now Outcome.FailedLost (history_of self.old) (history_of self.new)) }
        ensures memory { OnErr result (history_of self.new ≡ history_of self.old) }
        ensures any_moment { OnOk result (LeavesWhereTold
            (StandsForEither (store_now self.old) (after_call (store_now self.old) call.now)) (disk_of self.old) (disk_of self.new)) }
        ensures records { OnOk result (AddsSafely (payload_of call.now) (disk_of self.old) (disk_of self.new)) }
        ensures there { is_shut self.new ≡ false → OnOk result
            (HasAdded (payload_of call.now) (disk_of self.old) (disk_of self.new) (end_of self.new)) }
        ensures untouched { OnErr result (disk_of self.new ≡ disk_of self.old) }
        ensures failed { IfOk result (λ reply. reply ≡ Reply.Failed ↔ (is_shut self.new ≡ true)) }
        ensures cause { is_shut self.new ≡ true → Rose (disk_faults self.old) (disk_faults self.new) }
        ensures refused { OnErr result (is_shut self.new ≡ false) }
        ensures later { disk_faults self.old ≤ disk_faults self.new }
        ensures others { self.new.refused ≡ self.old.refused }
        ensures opened { opened_disk self.new ≡ opened_disk self.old }
    {
        let copy = call.copy()?;
        let change = record_of(self.alloc, call)?;
        if !has_room(self.journal.end, &change) {
            return Err(AllocError);
        }
        self.trail.reserve(1)?;
        let reply = self.current.apply(self.alloc, call)?;
        if added(&mut self.journal, &change, call) {
            let outcome = Outcome::Took;
            note(
                &mut self.trail,
                Entry {
                    client,
                    call: copy,
                    outcome,
                },
            );
            return Ok(reply);
        }
        self.shut = true;
        let outcome = Outcome::FailedLost;
        note(
            &mut self.trail,
            Entry {
                client,
                call: copy,
                outcome,
            },
        );
        Ok(Reply::Failed)
    }
}

impl<D: Disk> Store for FileStore<D> {
    ghost use Rattle.std.specs.Prelude.{IfOk, OnOk, OnErr, ◌≤◌, ◌↔◌};
    ghost use Rattle.causes.specs.Causes.{Rose};
    ghost use Rattle.store_core.specs.Stores.{after_call};
    ghost use Rattle.store_core.specs.Histories.{Adds, IsReplyTo};
    ghost use Rattle.journal_core.specs.Crashes.{LeavesWhereTold};
    ghost use Rattle.store_file.specs.Replays.{StandsForEither};
    ghost use Rattle.store_core.specs.Changes.{changes};
    ghost use Rattle.journal_core.specs.Records.{HasAdded, AddsSafely};
    ghost use Rattle.store_file.specs.Payloads.{payload_of};
    ghost use Rattle.store_file.specs.FileStores.{history_of, told, HasEntry, store_now, disk_of, disk_faults, file_faults, is_shut};
    ghost use Rattle.store_file.specs.FileStores.{end_of, opened_disk};

    ghost history = { told };

    ghost faults = { file_faults };

    /// As the table of calls has it. A change stands in the journal before it is answered.
    fn call(&mut self, client: u64, call: &Call) -> Result<Reply, AllocError>
        ensures entry { IfOk result (λ reply. Adds (told self.old) (told self.new) client call.now reply) }
        ensures memory { OnErr result (told self.new ≡ told self.old) }
        ensures opened { opened_disk self.new ≡ opened_disk self.old }
        ensures shape { IfOk result (λ reply. IsReplyTo call.now reply) }
        ensures cause { IfOk result (λ reply. reply ≡ Reply.Failed → Rose (file_faults self.old) (file_faults self.new)) }
        ensures later { file_faults self.old ≤ file_faults self.new }

        // A call that is answered Failed is entered as lost, and each other one as done.
        ensures done { is_shut self.new ≡ false → OnOk result
            (HasEntry client call.now Outcome.Took (history_of self.old) (history_of self.new)) }
        ensures lost { is_shut self.new ≡ true
            → OnOk result (HasEntry client call.now Outcome.FailedLost (history_of self.old) (history_of self.new)) }

        // A crash at any moment of the call leaves the store from before it, with this change or without.
        ensures any_moment { is_shut self.old ≡ false → OnOk result
            (LeavesWhereTold (StandsForEither (store_now self.old) (after_call (store_now self.old) call.now)) (disk_of self.old)
            (disk_of self.new)) }
        ensures untouched { OnErr result (disk_of self.new ≡ disk_of self.old) }

        // It leaves the journal's records from before it, with this change's or without, and none in part. Once a change was
        // answered other than Failed, its record is there.
        ensures records { is_shut self.old ≡ false → changes (store_now self.old) call.now ≡ true
            → OnOk result (AddsSafely (payload_of call.now) (disk_of self.old) (disk_of self.new)) }
        ensures there { is_shut self.new ≡ false → changes (store_now self.old) call.now ≡ true
            → OnOk result (HasAdded (payload_of call.now) (disk_of self.old) (disk_of self.new) (end_of self.new)) }
        // A call that is no change makes no call on the disk.
        ensures looks { changes (store_now self.old) call.now ≡ false → disk_of self.new ≡ disk_of self.old }

        // A store that isn't shut answers Failed exactly where that shuts it, and then the disk has failed.
        ensures shuts { is_shut self.old ≡ false → IfOk result (λ reply. reply ≡ Reply.Failed ↔ (is_shut self.new ≡ true)) }
        ensures refused { OnErr result (is_shut self.new ≡ is_shut self.old) }
        ensures disk { is_shut self.old ≡ false → is_shut self.new ≡ true → Rose (disk_faults self.old) (disk_faults self.new) }
        ensures disk_later { disk_faults self.old ≤ disk_faults self.new }

        // A shut store answers Failed, leaves its disk alone, and stays shut.
        ensures shut { is_shut self.old ≡ true → IfOk result (λ reply. reply ≡ Reply.Failed) × (disk_of self.new ≡ disk_of self.old)
            × (is_shut self.new ≡ true) }
    {
        if self.shut {
            return self.refuse(client, call);
        }
        if self.current.changes(call) {
            return self.change(client, call);
        }
        self.look(client, call)
    }
}
