// Operator: a client that binds times to a source's offsets, and publishes its rows at these times.
ghost use Rattle.std.specs.Prelude.{◌≡◌, ◌≢◌, ◌≤◌, ◌^◌, ℕ, None, Some, Option, IfNone, IfOk, if◌then◌else◌, is_some, length};
ghost use Rattle.store_core.specs.Histories.{History};
ghost use Rattle.remap_core.specs.Reclocking.{reclocked, weight_of_rows};
ghost use Rattle.reclock_client.specs.Asking.{InTurn};
ghost use Rattle.reclock_client.specs.Beginning.{Begins, begun, begun_sync, fault, publish_fault};
ghost use Rattle.reclock_client.specs.Knowing.{AreBindings, IsReclocked, Knows};
ghost use Rattle.reclock_client.specs.Operators as operators;
ghost use Rattle.reclock_client.specs.Operators.{Follows, IsLight, IsSound, calls_of};
ghost use Rattle.reclock_client.specs.Turns.{HasAll, IsFew, Takes, clients, heard};

use crate::courses::Course;
use crate::errands::Errand;
use crate::intakes::Intake;
use crate::looks::Look;
use crate::steps::{Part, Step};
use load_core::BeginFault;
use read_client::Reader;
use remap_core::{Bindings, SourceFrontier, SourceList, reclocked, weight};
use std::alloc::{AllocError, Global};
use store_core::ShardId;
use try_machine::Tryer;
use update_core::{Frontier, UpdateList};
use write_client::Writer;

/// The most rows of one publish.
const MAX_ROWS: usize = 65_536;

/// The most that they weigh: 2^62.
const MAX_WEIGHT: u128 = 1 << 62;

/// An operator of a source: a writer and a reader of its remap shard, and a writer of its data shard, which are one client. A
/// command is begun and then polled until it ends; each poll makes at most one call of the store. See docs/DEFINITIONS.md,
/// "Operators".
#[derive(Drop)]
pub struct Operator {
    /// The remap shard.
    pub(crate) remap: ShardId,
    /// The data shard.
    pub(crate) data_shard: ShardId,
    /// The moment at which the reader's lease begins.
    pub(crate) moment: u64,
    /// How long the reader's lease runs.
    pub(crate) lease: u64,
    /// The remap shard's writer.
    pub(crate) remap_writer: Writer,
    /// The remap shard's reader.
    pub(crate) reader: Reader,
    /// The data shard's writer.
    pub(crate) data_writer: Writer,
    /// What looks at the data shard's upper.
    pub(crate) looker: Tryer<Look>,
    /// Where the operator stands.
    pub(crate) course: Course,
    /// The calls of the inner commands of the open or the last command that have ended.
    pub(crate) calls: u64,
}

// The calls of an inner command, where it is open.
fn calls_if(is_open: bool, calls: u64) -> u64
    ensures { result ≡ (if is_open then calls else 0) }
{
    if is_open { calls } else { 0 }
}

impl Operator {
    /// An operator whose open has begun: it is to be polled until its three members have joined. The reader's lease begins at the
    /// moment `now` and runs out at `now + lease`. It takes no memory.
    pub fn open(
        alloc: Global,
        remap: ShardId,
        data_shard: ShardId,
        now: u64,
        lease: u64,
    ) -> Operator
        requires { remap ≢ data_shard }
        ensures opened { result ≡ operators.opened remap data_shard now lease }
        ensures sound { IsSound result }
        ensures turn { InTurn result }
        ensures follows { (client : ℕ) (front : Option History) → Follows client front result }
        ensures knows { (front : Option History) → Knows front result }
    {
        let course = Course {
            since: 0,
            bindings: Bindings::new(alloc),
            intake: Intake::Nothing,
            synced: Frontier::at(0),
            listens: false,
            errand: Some(Errand::Open),
            step: Step::JoinRemap,
            joined: false,
        };
        Operator {
            remap,
            data_shard,
            moment: now,
            lease,
            remap_writer: Writer::open(alloc, remap),
            reader: Reader::open(alloc, remap, now, lease),
            data_writer: Writer::open(alloc, data_shard),
            looker: Tryer::new(data_shard),
            course,
            calls: 0,
        }
    }

    /// Whether a command is open.
    pub fn busy(&self) -> bool
        ensures { result ≡ is_some self.now.course.errand }
    {
        self.course.errand.is_some()
    }

    /// The bindings of the remap shard that are known: where no command is open, those of the updates that it has accepted, from the since
    /// on at which the reader joined, up to the synced frontier.
    pub fn bindings(&self) -> &Bindings
        ensures bindings { result.now ≡ self.now.course.bindings }
        ensures known { (front : Option History) → Knows front self.now → self.now.course.errand ≡ None →
            AreBindings front self.now.remap self.now.course.since self.now.course.synced result.now }
    {
        &self.course.bindings
    }

    /// The rows at the times that the known bindings give them, consolidated, by time and datum. It fails only for want of memory.
    pub fn collection(&self, alloc: Global, rows: &SourceList) -> Result<UpdateList, AllocError>
        requires { weight_of_rows rows.now ≤ 2 ^ 62 }
        ensures reclocked { IfOk result (λ list. list ≡ reclocked rows.now self.now.course.bindings 0) }
        ensures known { (front : Option History) → Knows front self.now → self.now.course.errand ≡ None →
            IfOk result (IsReclocked front self.now.remap self.now.course.since self.now.course.synced rows.now) }
    {
        reclocked(alloc, rows, &self.course.bindings, 0)
    }

    // How many calls the open inner command has made.
    fn open_calls(&self) -> u64
        ensures { result ≡ operators.open_calls self.now (operators.part_of self.now.course.step) }
    {
        match self.course.step.part() {
            Part::RemapWriter => calls_if(self.remap_writer.busy(), self.remap_writer.calls()),
            Part::Reader => calls_if(self.reader.busy(), self.reader.calls()),
            Part::DataWriter => calls_if(self.data_writer.busy(), self.data_writer.calls()),
            Part::Looker => calls_if(self.looker.asked.is_some(), self.looker.trying.calls),
        }
    }

    /// How many calls of the store the polls of the open command have made, or else those of the last one. It stands still at
    /// 2^64 - 1.
    pub fn calls(&self) -> u64
        ensures { result ≡ calls_of self.now }
    {
        self.calls.saturating_add(self.open_calls())
    }

    // The first reason why a command isn't begun.
    fn fault(&self) -> Option<BeginFault>
        ensures { result ≡ fault self.now }
    {
        if self.course.errand.is_some() {
            return Some(BeginFault::Open);
        }
        if !self.course.joined {
            return Some(BeginFault::Gone);
        }
        None
    }

    // A command begins against which nothing stands.
    fn begin(&mut self, errand: Errand, step: Step)
        requires free { fault self.old ≡ None }
        requires sound { IsSound self.old }
        requires turn { InTurn self.old }
        requires takes { HasAll (clients self.old) → Takes (clients self.old) (heard self.old.course) errand step }
        requires few { IsFew errand }
        requires light { IsLight (Some errand) }
        ensures begun { self.new ≡ begun self.old errand step }
        ensures sound { IsSound self.new }
        ensures turn { InTurn self.new }
        ensures knows { (front : Option History) → Knows front self.old → Knows front self.new }
    {
        self.course.errand = Some(errand);
        self.course.step = step;
        self.calls = 0;
    }

    /// Begins to propose at the time `time` that each partition's offset is at least the one seen. The fault is Gone (the open ended
    /// without Opened, the close is done, or a member was lost) or Open (a command is open); the operator is then as it was. It
    /// takes no memory.
    pub fn begin_mint(&mut self, time: u64, seen: &SourceFrontier) -> Result<(), BeginFault>
        requires sound { IsSound self.old }
        requires turn { InTurn self.old }
        ensures begins { Begins (fault self.old) self.old self.new (begun_sync self.old (Errand.Mint time seen.now)) result }
        ensures sound { IsSound self.new }
        ensures turn { InTurn self.new }
        ensures follows { (client : ℕ) (front : Option History) → Follows client front self.old → Follows client front self.new }
        ensures knows { (front : Option History) → Knows front self.old → Knows front self.new }
    {
        if let Some(fault) = self.fault() {
            return Err(fault);
        }
        let step = self.course.reading_step();
        self.begin(Errand::Mint { time, seen: *seen }, step);
        Ok(())
    }

    /// Begins to read the remap shard. The faults are those of `begin_mint`. It takes no memory.
    pub fn begin_sync(&mut self) -> Result<(), BeginFault>
        requires sound { IsSound self.old }
        requires turn { InTurn self.old }
        ensures begins { Begins (fault self.old) self.old self.new (begun_sync self.old Errand.Sync) result }
        ensures sound { IsSound self.new }
        ensures turn { InTurn self.new }
        ensures follows { (client : ℕ) (front : Option History) → Follows client front self.old → Follows client front self.new }
        ensures knows { (front : Option History) → Knows front self.old → Knows front self.new }
    {
        if let Some(fault) = self.fault() {
            return Err(fault);
        }
        let step = self.course.reading_step();
        self.begin(Errand::Sync, step);
        Ok(())
    }

    // The first reason why a publish isn't begun.
    fn publish_fault(&self, rows: &SourceList) -> Option<BeginFault>
        ensures fault { result ≡ publish_fault self.now rows.now }
        ensures free { IfNone result (fault self.now ≡ None) }
        ensures light { IfNone result (weight_of_rows rows.now ≤ 2 ^ 62) }
        ensures few { IfNone result (length rows.now ≤ 65536) }
    {
        if let Some(fault) = self.fault() {
            return Some(fault);
        }
        let count = rows.as_slice().len();
        if count > MAX_ROWS {
            return Some(BeginFault::TooMany { rows: count as u64 });
        }
        if weight(rows) > MAX_WEIGHT {
            return Some(BeginFault::TooHeavy);
        }
        None
    }

    /// Begins to append to the data shard the rows that are bound from its upper up to the synced frontier. After Gone and Open, as
    /// of `begin_mint`, the fault is TooMany (more than 65,536 rows), TooHeavy (the absolute differences sum to more than 2^62), or
    /// Memory; the operator is then as it was.
    pub fn begin_publish(&mut self, alloc: Global, rows: &SourceList) -> Result<(), BeginFault>
        requires sound { IsSound self.old }
        requires turn { InTurn self.old }
        ensures begins { Begins (publish_fault self.old rows.now) self.old self.new (begun self.old (Errand.Publish rows.now) Step.Look)
            result }
        ensures sound { IsSound self.new }
        ensures turn { InTurn self.new }
        ensures follows { (client : ℕ) (front : Option History) → Follows client front self.old → Follows client front self.new }
        ensures knows { (front : Option History) → Knows front self.old → Knows front self.new }
    {
        if let Some(fault) = self.publish_fault(rows) {
            return Err(fault);
        }
        let rows = rows.copy(alloc)?;
        self.begin(Errand::Publish { rows }, Step::Look);
        Ok(())
    }

    /// Begins to leave. The faults are those of `begin_mint`. It takes no memory.
    pub fn begin_close(&mut self) -> Result<(), BeginFault>
        requires sound { IsSound self.old }
        requires turn { InTurn self.old }
        ensures begins { Begins (fault self.old) self.old self.new (begun self.old Errand.Close Step.LeaveRemap) result }
        ensures sound { IsSound self.new }
        ensures turn { InTurn self.new }
        ensures follows { (client : ℕ) (front : Option History) → Follows client front self.old → Follows client front self.new }
        ensures knows { (front : Option History) → Knows front self.old → Knows front self.new }
    {
        if let Some(fault) = self.fault() {
            return Err(fault);
        }
        self.begin(Errand::Close, Step::LeaveRemap);
        Ok(())
    }
}
