// How the commands of an operator's inner machines begin.
ghost use Rattle.std.specs.Prelude.{◌≡◌, None, Some, ℕ, Option, OnErr, OnOk};
ghost use Rattle.update_core.specs.Frontiers.{after};
ghost use Rattle.store_core.specs.Histories.{History};
ghost use Rattle.write_client.specs.Beginning.{Closing, append_fault, close_fault};
ghost use Rattle.write_client.specs.Following as writes;
ghost use Rattle.write_client.specs.Writing as writers;
ghost use Rattle.read_client.specs.Beginning.{BeginsRead, Changing, member_fault, next_fault};
ghost use Rattle.read_client.specs.Following as reads;
ghost use Rattle.read_client.specs.Reading as readers;
ghost use Rattle.reclock_client.specs.Starting.{MayAppend, StartsAppend};

use history_core::Asked;
use load_core::BeginFault;
use read_client::Reader;
use state_core::Transition;
use std::alloc::{AllocError, Global};
use update_core::{Frontier, UpdateList};
use write_client::Writer;

/// What an append's beginning comes to.
#[derive(Clone, Copy)]
pub enum Begun {
    /// It is begun.
    Yes,
    /// No token is left for it.
    Spent,
}

/// A writer against whose leaving nothing stands begins to leave. It fails only for want of memory, and the writer is then as it was.
pub fn leave_writer(alloc: Global, writer: &mut Writer) -> Result<(), AllocError>
    requires sound { writers.IsSound writer.old }
    requires free { close_fault writer.old ≡ None }
    ensures leaves { OnOk result (Closing writer.old writer.new) }
    ensures memory { OnErr result (writer.new ≡ writer.old) }
    ensures sound { writers.IsSound writer.new }
    ensures follows { (client : ℕ) (front : Option History) → writes.FollowsWhere client front writer.old
        → writes.FollowsWhere client front writer.new }
{
    match writer.begin_close(alloc) {
        Ok(()) => Ok(()),
        Err(_) => Err(AllocError),
    }
}

/// A writer begins to append the rows, where a token is left. It fails only for want of memory, and the writer is then as it was.
pub fn append(
    alloc: Global,
    writer: &mut Writer,
    rows: UpdateList,
    from: u64,
    to: Frontier,
) -> Result<Begun, AllocError>
    requires sound { writers.IsSound writer.old }
    requires fits { MayAppend (append_fault writer.old rows from to) }
    ensures begins { StartsAppend rows from to writer.old writer.new result }
    ensures memory { OnErr result (append_fault writer.old rows from to ≡ None) }
    ensures sound { writers.IsSound writer.new }
    ensures follows { (client : ℕ) (front : Option History) → writes.FollowsWhere client front writer.old
        → writes.FollowsWhere client front writer.new }
{
    match writer.begin_append(alloc, rows, from, to) {
        Ok(()) => Ok(Begun::Yes),
        Err(BeginFault::TokensSpent) => Ok(Begun::Spent),
        Err(_) => Err(AllocError),
    }
}

/// A reader against which nothing stands begins to take the content at a time.
pub fn take_snapshot(reader: &mut Reader, t: u64)
    requires sound { readers.IsSound reader.old }
    requires free { member_fault reader.old.asked reader.old.member ≡ None }
    ensures reads { BeginsRead reader.old (Asked.Snapshot t) reader.old.listen reader.new }
    ensures sound { readers.IsSound reader.new }
    ensures follows { (client : ℕ) (front : Option History) → reads.FollowsWhere client front reader.old
        → reads.FollowsWhere client front reader.new }
{
    match reader.begin_snapshot(t) {
        Ok(()) => {}
        Err(_) => unreachable!(),
    }
}

/// The same for a listen from a time on.
pub fn start_listen(reader: &mut Reader, as_of: u64)
    requires sound { readers.IsSound reader.old }
    requires free { member_fault reader.old.asked reader.old.member ≡ None }
    ensures reads { BeginsRead reader.old (Asked.Listen as_of) (Some (after as_of)) reader.new }
    ensures sound { readers.IsSound reader.new }
    ensures follows { (client : ℕ) (front : Option History) → reads.FollowsWhere client front reader.old
        → reads.FollowsWhere client front reader.new }
{
    match reader.begin_listen(as_of) {
        Ok(()) => {}
        Err(_) => unreachable!(),
    }
}

/// The same for the next step of its listen.
pub fn take_step(reader: &mut Reader)
    requires sound { readers.IsSound reader.old }
    requires free { next_fault reader.old ≡ None }
    ensures reads { BeginsRead reader.old Asked.Next reader.old.listen reader.new }
    ensures sound { readers.IsSound reader.new }
    ensures follows { (client : ℕ) (front : Option History) → reads.FollowsWhere client front reader.old
        → reads.FollowsWhere client front reader.new }
{
    match reader.begin_next() {
        Ok(()) => {}
        Err(_) => unreachable!(),
    }
}

/// The same for its leaving.
pub fn leave_reader(reader: &mut Reader)
    requires sound { readers.IsSound reader.old }
    requires free { member_fault reader.old.asked reader.old.member ≡ None }
    ensures leaves { Changing reader.old Asked.CloseReader (λ member. Transition.Leave member) reader.new }
    ensures sound { readers.IsSound reader.new }
    ensures follows { (client : ℕ) (front : Option History) → reads.FollowsWhere client front reader.old
        → reads.FollowsWhere client front reader.new }
{
    match reader.begin_close() {
        Ok(()) => {}
        Err(_) => unreachable!(),
    }
}
