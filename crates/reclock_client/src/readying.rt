// What comes before a poll of an operator's inner machine: its command that is next begins, unless it is open.
ghost use Rattle.std.specs.Prelude.{◌≡◌, ℕ, None, Ok, Option, IfOk, IsSome, OnErr, OnOk};
ghost use Rattle.store_core.specs.Histories.{History};
ghost use Rattle.write_client.specs.Beginning.{close_fault};
ghost use Rattle.write_client.specs.Following as writes;
ghost use Rattle.write_client.specs.Writing as writers;
ghost use Rattle.read_client.specs.Following as reads;
ghost use Rattle.read_client.specs.Reading as readers;
ghost use Rattle.reclock_client.specs.Asking.{InTurn};
ghost use Rattle.reclock_client.specs.Minting as minting;
ghost use Rattle.reclock_client.specs.Operators.{Follows, IsOpen, IsSound};
ghost use Rattle.reclock_client.specs.Parts.{part_of};
ghost use Rattle.reclock_client.specs.Polling as polling;
ghost use Rattle.reclock_client.specs.Turns.{AtStep};

use crate::errands::Errand;
use crate::intakes::Intake;
use crate::looks::Look;
use crate::mints::mint_rows;
use crate::operators::Operator;
use crate::starting::{
    Begun, append, leave_reader, leave_writer, start_listen, take_snapshot, take_step,
};
use crate::steps::{Part, Step};
use read_client::Reader;
use remap_core::published;
use state_core::Transition;
use std::alloc::{AllocError, Global};
use update_core::Frontier;
use write_client::Writer;

impl Operator {
    // What a mint appends from an upper on is begun, where a token is left.
    fn begin_rises(&mut self, alloc: Global, from: u64) -> Result<Begun, AllocError>
        requires sound { IsSound self.old }
        requires turn { AtStep self.old }
        requires busy { IsSome self.old.course.errand }
        requires step { self.old.course.step ≡ Step.AppendRemap from }
        requires idle { self.old.remap_writer.asked ≡ None }
        ensures begins { polling.BeginsAppend (minting.mint_rows self.old.course.bindings self.old.course.errand) from
            self.old.remap_writer self.new.remap_writer result }
        ensures rest { self.new ≡ record self.old { remap_writer = self.new.remap_writer } }
        ensures spent { result ≡ Ok Begun.Spent → self.new ≡ self.old }
        ensures memory { OnErr result (self.new ≡ self.old) }
        ensures sound { writers.IsSound self.new.remap_writer }
        ensures follows { (client : ℕ) (front : Option History) → writes.FollowsWhere client front self.old.remap_writer
            → writes.FollowsWhere client front self.new.remap_writer }
    {
        match &self.course.errand {
            Some(Errand::Mint { time, seen }) => {
                let time = *time;
                let rows = mint_rows(alloc, time, &self.course.bindings.reached(), seen)?;
                append(
                    alloc,
                    &mut self.remap_writer,
                    rows,
                    from,
                    Frontier::after(time),
                )
            }
            _ => unreachable!(),
        }
    }

    // What a publish appends from an upper on is begun, where a token is left.
    fn begin_slice(&mut self, alloc: Global, from: u64) -> Result<Begun, AllocError>
        requires sound { IsSound self.old }
        requires turn { AtStep self.old }
        requires busy { IsSome self.old.course.errand }
        requires step { self.old.course.step ≡ Step.AppendData from }
        requires idle { self.old.data_writer.asked ≡ None }
        ensures begins { polling.BeginsAppend (minting.slice_rows self.old.course.bindings self.old.course.synced self.old.course.errand from)
            from self.old.data_writer self.new.data_writer result }
        ensures rest { self.new ≡ record self.old { data_writer = self.new.data_writer } }
        ensures spent { result ≡ Ok Begun.Spent → self.new ≡ self.old }
        ensures memory { OnErr result (self.new ≡ self.old) }
        ensures sound { writers.IsSound self.new.data_writer }
        ensures follows { (client : ℕ) (front : Option History) → writes.FollowsWhere client front self.old.data_writer
            → writes.FollowsWhere client front self.new.data_writer }
    {
        match &self.course.errand {
            Some(Errand::Publish { rows }) => {
                let to = self.course.synced;
                let rows = published(alloc, rows, &self.course.bindings, Frontier::at(from), to)?;
                append(alloc, &mut self.data_writer, rows, from, to)
            }
            _ => unreachable!(),
        }
    }

    // What follows the beginning of a mint's append: where no token is left, the writer leaves.
    fn after_rises(&mut self, alloc: Global, begun: Begun) -> Result<(), AllocError>
        requires sound { writers.IsSound self.old.remap_writer }
        requires free { begun ≡ Begun.Spent → close_fault self.old.remap_writer ≡ None }
        ensures begun { OnOk result (polling.RemapBegun begun self.old self.new) }
        ensures memory { OnErr result ((begun ≡ Begun.Spent) × (self.new ≡ self.old)) }
        ensures sound { writers.IsSound self.new.remap_writer }
        ensures follows { (client : ℕ) (front : Option History) → writes.FollowsWhere client front self.old.remap_writer
            → writes.FollowsWhere client front self.new.remap_writer }
    {
        match begun {
            Begun::Yes => Ok(()),
            Begun::Spent => {
                leave_writer(alloc, &mut self.remap_writer)?;
                self.course.step = Step::LeaveRemap;
                Ok(())
            }
        }
    }

    // The same for a publish's append.
    fn after_slice(&mut self, alloc: Global, begun: Begun) -> Result<(), AllocError>
        requires sound { writers.IsSound self.old.data_writer }
        requires free { begun ≡ Begun.Spent → close_fault self.old.data_writer ≡ None }
        ensures begun { OnOk result (polling.DataBegun begun self.old self.new) }
        ensures memory { OnErr result ((begun ≡ Begun.Spent) × (self.new ≡ self.old)) }
        ensures sound { writers.IsSound self.new.data_writer }
        ensures follows { (client : ℕ) (front : Option History) → writes.FollowsWhere client front self.old.data_writer
            → writes.FollowsWhere client front self.new.data_writer }
    {
        match begun {
            Begun::Yes => Ok(()),
            Begun::Spent => {
                leave_writer(alloc, &mut self.data_writer)?;
                self.course.step = Step::LeaveData;
                Ok(())
            }
        }
    }

    // A command of the remap shard's writer begins. It fails only for want of memory.
    fn start_remap_writer(&mut self, alloc: Global) -> Result<(), AllocError>
        requires sound { IsSound self.old }
        requires turn { AtStep self.old }
        requires busy { IsSome self.old.course.errand }
        requires part { part_of self.old.course.step ≡ Part.RemapWriter }
        requires idle { self.old.remap_writer.asked ≡ None }
        ensures starts { OnOk result (polling.RemapStarts self.old.course.step self.old self.new) }
        ensures memory { OnErr result (self.new ≡ self.old) }
        ensures sound { writers.IsSound self.new.remap_writer }
        ensures follows { (client : ℕ) (front : Option History) → writes.FollowsWhere client front self.old.remap_writer
            → writes.FollowsWhere client front self.new.remap_writer }
    {
        match self.course.step {
            Step::JoinRemap => {
                self.remap_writer = Writer::open(alloc, self.remap);
                Ok(())
            }
            Step::AppendRemap { from } => {
                let begun = self.begin_rises(alloc, from)?;
                self.after_rises(alloc, begun)
            }
            _ => leave_writer(alloc, &mut self.remap_writer),
        }
    }

    // A command of the data shard's writer begins. It fails only for want of memory.
    fn start_data_writer(&mut self, alloc: Global) -> Result<(), AllocError>
        requires sound { IsSound self.old }
        requires turn { AtStep self.old }
        requires busy { IsSome self.old.course.errand }
        requires part { part_of self.old.course.step ≡ Part.DataWriter }
        requires idle { self.old.data_writer.asked ≡ None }
        ensures starts { OnOk result (polling.DataStarts self.old.course.step self.old self.new) }
        ensures memory { OnErr result (self.new ≡ self.old) }
        ensures sound { writers.IsSound self.new.data_writer }
        ensures follows { (client : ℕ) (front : Option History) → writes.FollowsWhere client front self.old.data_writer
            → writes.FollowsWhere client front self.new.data_writer }
    {
        match self.course.step {
            Step::JoinData => {
                self.data_writer = Writer::open(alloc, self.data_shard);
                Ok(())
            }
            Step::AppendData { from } => {
                let begun = self.begin_slice(alloc, from)?;
                self.after_slice(alloc, begun)
            }
            _ => leave_writer(alloc, &mut self.data_writer),
        }
    }

    // A command of the reader begins.
    fn start_reader(&mut self, alloc: Global)
        requires sound { IsSound self.old }
        requires turn { AtStep self.old }
        requires busy { IsSome self.old.course.errand }
        requires part { part_of self.old.course.step ≡ Part.Reader }
        requires idle { self.old.reader.asked ≡ None }
        ensures starts { polling.ReadStarts self.old.course.step self.old self.new }
        ensures writer { writers.IsSound self.new.remap_writer }
        ensures sound { readers.IsSound self.new.reader }
        ensures follows { (client : ℕ) (front : Option History) → reads.FollowsWhere client front self.old.reader
            → reads.FollowsWhere client front self.new.reader }
    {
        let since = self.course.since;
        match self.course.step {
            Step::JoinReader => {
                self.reader = Reader::open(alloc, self.remap, self.moment, self.lease);
            }
            Step::Snapshot => take_snapshot(&mut self.reader, since),
            Step::Listen => start_listen(&mut self.reader, since),
            Step::Next => take_step(&mut self.reader),
            _ => {
                // The remap shard's writer has left: a new one, which isn't polled, takes its place.
                self.remap_writer = Writer::open(alloc, self.remap);
                leave_reader(&mut self.reader);
            }
        }
    }

    /// The inner command that is next begins, unless it is open: nothing stands against it. It fails only for want of memory, and the
    /// operator is then as it was.
    pub(crate) fn ready(&mut self, alloc: Global) -> Result<(), AllocError>
        requires sound { IsSound self.old }
        requires turn { InTurn self.old }
        requires busy { IsSome self.old.course.errand }
        requires taken { self.old.course.intake ≡ Intake.Nothing }
        ensures starts { OnOk result (polling.Starts (part_of self.old.course.step) self.old self.new) }
        ensures memory { OnErr result (self.new ≡ self.old) }
        ensures open { OnOk result (IsOpen self.new (part_of self.new.course.step)) }
        ensures course { self.new.course ≡ record self.old.course { step = self.new.course.step } }
        ensures sound { IsSound self.new }
        ensures turn { InTurn self.new }
        ensures follows { (client : ℕ) (front : Option History) → Follows client front self.old → Follows client front self.new }
    {
        match self.course.step.part() {
            Part::RemapWriter => {
                if self.remap_writer.busy() {
                    return Ok(());
                }
                self.start_remap_writer(alloc)
            }
            Part::Reader => {
                if self.reader.busy() {
                    return Ok(());
                }
                self.start_reader(alloc);
                Ok(())
            }
            Part::DataWriter => {
                if self.data_writer.busy() {
                    return Ok(());
                }
                self.start_data_writer(alloc)
            }
            Part::Looker => {
                if self.looker.asked.is_none() {
                    self.looker.begin(Look {}, Transition::Init);
                }
                Ok(())
            }
        }
    }
}
