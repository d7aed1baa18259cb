// Walk: what the entries of a trail tell by themselves, one after the other.
ghost use Rattle.std.specs.Prelude.{◌≡◌, ◌++◌, Some, None, [], List, Result, IfOk, OnOk};
ghost use Rattle.store_core.specs.Stores.{key_cmp, set_at};
ghost use Rattle.store_core.specs.Contents.{blobs_of};
ghost use Rattle.state_core.specs.States.{ShardState};
ghost use Rattle.version_codec.specs.Reading.{whole, version_in};
ghost use Rattle.version_codec.specs.Reading as versions;
ghost use Rattle.state_core.specs.declared.transitions.Transition.{Transition as Step};
ghost use Rattle.std.specs.Result.{result_ok};
ghost use Rattle.update_core.specs.declared.updates.Update.{Update};
ghost use Rattle.part_codec.specs.Reading.{Fails};
ghost use Rattle.history_core.specs.Readings.{rows_in};
ghost use Rattle.history_core.specs.Stands.{appended_by, rows_under, rows_of_blob, rows_or_none};
ghost use Rattle.history_core.specs.Walks.{number_given, number_past, rows_given, with_blobs};

use part_codec::{PartFault, decode_part};
use state_core::{State, Transition};
use std::alloc::{AllocError, Global};
use std::collections::BTreeMap;
use store_core::{Bytes, Call, Entry, Outcome, PartKey, ShardId};
use update_core::UpdateList;
use version_codec::{VersionFault, decode_version};

/// The number of the last version, once a Cas has committed; the bytes of the keys that were set; and a list with the rows
/// that were appended.
#[derive(Drop)]
pub struct Walk {
    alloc: Global,
    last: Option<u64>,
    blobs: BTreeMap<PartKey, Bytes>,
    rows: UpdateList,
}

fn number_past(number: u64) -> Option<u64>
    ensures { result ≡ number_past number }
{
    if number == u64::MAX {
        None
    } else {
        Some(number + 1)
    }
}

fn number_given(last: Option<u64>, expected: Option<u64>) -> Option<u64>
    ensures { result ≡ number_given last expected }
{
    match (last, expected) {
        (None, None) => Some(0),
        (Some(_), None) => None,
        (None, Some(expected)) => number_past(expected),
        (Some(last), Some(expected)) => {
            if expected == last {
                number_past(expected)
            } else {
                None
            }
        }
    }
}

// No rows, unless memory was wanting.
fn none_or_memory(alloc: Global, fault: PartFault) -> Result<UpdateList, AllocError>
    ensures { (read : Result (List Update) PartFault) → Fails fault read
        → IfOk result (λ rows. rows ≡ rows_or_none (result_ok read)) }
{
    match fault {
        PartFault::Memory => Err(AllocError),
        PartFault::Short { .. }
        | PartFault::Magic { .. }
        | PartFault::Form { .. }
        | PartFault::Size { .. }
        | PartFault::Order { .. }
        | PartFault::Zero { .. }
        | PartFault::Trailing { .. } => Ok(UpdateList::new(alloc)),
    }
}

// The rows of a part, none where the bytes aren't one.
fn rows_of(alloc: Global, bytes: &[u8]) -> Result<UpdateList, AllocError>
    ensures { IfOk result (λ rows. rows ≡ rows_or_none (rows_in bytes.now)) }
{
    match decode_part(alloc, bytes) {
        Ok(rows) => Ok(rows),
        Err(fault) => none_or_memory(alloc, fault),
    }
}

// No version, unless memory was wanting.
fn no_version_or_memory(fault: VersionFault) -> Result<Option<(State, Transition)>, AllocError>
    ensures { (read : Result (ShardState × Step) VersionFault) → versions.Fails fault read
        → IfOk result (λ version. version ≡ whole read) }
{
    match fault {
        VersionFault::Memory => Err(AllocError),
        VersionFault::Short { .. }
        | VersionFault::Magic { .. }
        | VersionFault::Form { .. }
        | VersionFault::Tag { .. }
        | VersionFault::Rule { .. }
        | VersionFault::Trailing { .. } => Ok(None),
    }
}

// The state and transition of a version, if the bytes spell one.
#[tactic(auto, unfolding(version_codec::specs::Reading::version_in))]
fn version_of(
    alloc: Global,
    shard: ShardId,
    number: u64,
    bytes: &[u8],
) -> Result<Option<(State, Transition)>, AllocError>
    ensures { IfOk result (λ version. version ≡ version_in shard number bytes.now) }
{
    match decode_version(alloc, shard, number, bytes) {
        Ok(version) => Ok(Some(version)),
        Err(fault) => no_version_or_memory(fault),
    }
}

fn set_blob(
    blobs: &mut BTreeMap<PartKey, Bytes>,
    key: PartKey,
    bytes: &Bytes,
) -> Result<(), AllocError>
    ensures { OnOk result (blobs_of blobs.new ≡ set_at key_cmp (blobs_of blobs.old) key (Some bytes.now)) }
{
    let bytes = bytes.copy()?;
    blobs.insert(key, bytes)?;
    Ok(())
}

fn delete_blob(blobs: &mut BTreeMap<PartKey, Bytes>, key: &PartKey)
    ensures { blobs_of blobs.new ≡ set_at key_cmp (blobs_of blobs.old) key.now None }
{
    let _ = blobs.remove(key);
}

fn add_part(
    alloc: Global,
    rows: &mut UpdateList,
    blobs: &BTreeMap<PartKey, Bytes>,
    key: &PartKey,
) -> Result<(), AllocError>
    ensures { OnOk result (rows.new ≡ rows.old ++ rows_of_blob (blobs_of blobs.now key.now)) }
{
    match blobs.get(key) {
        Some(bytes) => {
            let more = rows_of(alloc, bytes.as_slice())?;
            rows.append(more)
        }
        None => Ok(()),
    }
}

fn add_parts(
    alloc: Global,
    rows: &mut UpdateList,
    blobs: &BTreeMap<PartKey, Bytes>,
    keys: &[PartKey],
) -> Result<(), AllocError>
    ensures { OnOk result (rows.new ≡ rows.old ++ rows_under (with_blobs (blobs_of blobs.now)) keys.now) }
{
    for key in keys {
        add_part(alloc, rows, blobs, key)?;
    }
    Ok(())
}

fn add_step(
    alloc: Global,
    rows: &mut UpdateList,
    blobs: &BTreeMap<PartKey, Bytes>,
    step: &Transition,
) -> Result<(), AllocError>
    ensures { (state : ShardState)
        → OnOk result (rows.new ≡ rows.old ++ appended_by (with_blobs (blobs_of blobs.now)) (Some (state, step.now))) }
{
    match step {
        Transition::Append { parts, .. } => add_parts(alloc, rows, blobs, parts.as_slice()),
        Transition::Init
        | Transition::Join { .. }
        | Transition::Leave { .. }
        | Transition::Renew { .. }
        | Transition::Advance { .. }
        | Transition::Expire { .. }
        | Transition::Merge { .. } => Ok(()),
    }
}

fn add_version(
    alloc: Global,
    rows: &mut UpdateList,
    blobs: &BTreeMap<PartKey, Bytes>,
    version: Option<(State, Transition)>,
) -> Result<(), AllocError>
    ensures { OnOk result (rows.new ≡ rows.old ++ appended_by (with_blobs (blobs_of blobs.now)) version) }
{
    match version {
        Some(pair) => add_step(alloc, rows, blobs, &pair.1),
        None => Ok(()),
    }
}

fn add_given(
    alloc: Global,
    rows: &mut UpdateList,
    blobs: &BTreeMap<PartKey, Bytes>,
    shard: ShardId,
    expected: Option<u64>,
    number: u64,
    bytes: &Bytes,
) -> Result<(), AllocError>
    ensures { OnOk result (rows.new ≡ rows.old ++ rows_given (blobs_of blobs.now) shard expected number bytes.now) }
{
    if expected.is_none() {
        return Ok(());
    }
    let version = version_of(alloc, shard, number, bytes.as_slice())?;
    add_version(alloc, rows, blobs, version)
}

impl Walk {
    ghost use Rattle.history_core.specs.Walks.{walk_back, walk_call, walk_entry, after_cas};
    ghost use Rattle.history_core.specs.WalkViews.{walked_of};

    /// Before the first entry, with a list. It takes no memory.
    pub fn new(alloc: Global, rows: UpdateList) -> Walk
        ensures { walked_of result ≡ walk_back rows [] }
    {
        Walk {
            alloc,
            last: None,
            blobs: BTreeMap::new(alloc),
            rows,
        }
    }

    fn take_cas(
        &mut self,
        shard: ShardId,
        expected: Option<u64>,
        bytes: &Bytes,
    ) -> Result<(), AllocError>
        ensures { OnOk result (walked_of self.new ≡ after_cas (walked_of self.old) shard expected bytes.now) }
    {
        if let Some(number) = number_given(self.last, expected) {
            add_given(
                self.alloc,
                &mut self.rows,
                &self.blobs,
                shard,
                expected,
                number,
                bytes,
            )?;
            self.last = Some(number);
        }
        Ok(())
    }

    fn take_call(&mut self, call: &Call) -> Result<(), AllocError>
        ensures { OnOk result (walked_of self.new ≡ walk_call (walked_of self.old) call.now) }
    {
        match call {
            Call::Cas {
                shard,
                expected,
                bytes,
            } => self.take_cas(*shard, *expected, bytes),
            Call::Set { key, bytes } => set_blob(&mut self.blobs, *key, bytes),
            Call::Delete { key } => {
                delete_blob(&mut self.blobs, key);
                Ok(())
            }
            Call::Head { .. } | Call::Scan { .. } | Call::Truncate { .. } | Call::Get { .. } => {
                Ok(())
            }
        }
    }

    /// One more entry. It fails only for want of memory.
    pub fn take(&mut self, entry: &Entry) -> Result<(), AllocError>
        ensures { OnOk result (walked_of self.new ≡ walk_entry (walked_of self.old) entry.now) }
    {
        match entry.outcome {
            Outcome::Took | Outcome::FailedTook => self.take_call(&entry.call),
            Outcome::FailedLost => Ok(()),
        }
    }

    /// The list with the rows that were appended.
    pub fn into_rows(self) -> UpdateList
        ensures { result ≡ (walked_of self).rows }
    {
        self.rows
    }
}
