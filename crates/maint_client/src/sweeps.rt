// Sweep: what is left of a collection after its Scan.
ghost use Rattle.std.specs.Prelude.{◌≡◌, ◌≤◌, ◌^◌, [], IfOk, OnOk, length};
ghost use Rattle.state_core.specs.Steps.{taken_by};
ghost use Rattle.version_codec.specs.Reading.{read_version};
ghost use Rattle.maint_client.specs.Sweeping.{AddsVersion, Gives, GoesOnWith};
ghost use Rattle.maint_client.specs.Sweeping.{begins_below, goes_on, has_key, sweep_call, sweep_from, sweep_of};
ghost use Rattle.maint_client.specs.Sweeping.{swept, taken_after, with_keys};

use load_core::{Damage, Unread, newest_of};
use spine_core::KeyList;
use state_core::Transition;
use std::alloc::{AllocError, Global};
use store_core::{Call, PartKey, ShardId, Version};
use version_codec::{VersionFault, decode_version};

/// The greatest count of keys of one collection. More of them are want of memory.
const MAX_KEYS: usize = 1 << 62;

/// What is left of a collection after its Scan: keys to delete, and then versions to remove.
#[derive(Drop)]
pub struct Sweep {
    /// The floor that the Scan showed.
    pub floor: u64,
    /// The keys that the versions up to the floor take, in order, each once.
    pub keys: KeyList,
    /// How many of them are deleted, which is the place of the next one.
    pub place: usize,
    /// Whether versions below the floor are still to be removed.
    pub cut: bool,
}

// The transition of a version.
fn step_of(alloc: Global, shard: ShardId, version: &Version) -> Result<Transition, Unread>
    ensures { GoesOnWith result version.now.number (read_version shard version.now.number version.now.bytes) }
{
    match decode_version(alloc, shard, version.number, version.bytes.as_slice()) {
        Ok((_, step)) => Ok(step),
        Err(VersionFault::Memory) => Err(Unread::Memory),
        Err(fault) => Err(Unread::Damaged(Damage::Version {
            number: version.number,
            fault,
        })),
    }
}

// Adds the keys at the end, but those that are there.
fn add_keys(keys: &mut KeyList, more: &[PartKey]) -> Result<(), AllocError>
    ensures { OnOk result (keys.new ≡ with_keys keys.old more.now) }
{
    for key in more {
        if !has_key(keys.as_slice(), *key) {
            keys.push(*key)?;
        }
    }
    Ok(())
}

// Whether the key is among these.
fn has_key(keys: &[PartKey], key: PartKey) -> bool
    ensures { result ≡ has_key keys.now key }
{
    keys.contains(&key)
}

// Adds the keys that a transition takes.
fn add_taken(keys: &mut KeyList, step: &Transition) -> Result<(), AllocError>
    ensures { OnOk result (keys.new ≡ with_keys keys.old (taken_by step.now)) }
{
    if let Transition::Merge { left, right, .. } = step {
        add_keys(keys, left.parts.as_slice())?;
        add_keys(keys, right.parts.as_slice())?;
    }
    Ok(())
}

// Adds the keys that a version takes, unless its number is above this one.
fn add_version(
    alloc: Global,
    shard: ShardId,
    top: u64,
    keys: &mut KeyList,
    version: &Version,
) -> Result<(), Unread>
    ensures { AddsVersion shard top version.now keys.old keys.new result }
{
    if version.number > top {
        return Ok(());
    }
    let step = step_of(alloc, shard, version)?;
    add_taken(keys, &step)?;
    Ok(())
}

// The keys that the versions up to a number take, each once.
fn taken_keys(
    alloc: Global,
    shard: ShardId,
    top: u64,
    versions: &[Version],
) -> Result<KeyList, Unread>
    ensures { Gives result (taken_after shard top [] versions.now) }
{
    let mut keys = KeyList::new(alloc);
    for version in versions {
        add_version(alloc, shard, top, &mut keys, version)?;
    }
    Ok(keys)
}

// Whether the first of the versions has a number below this one.
fn begins_below(at: u64, versions: &[Version]) -> bool
    ensures { result ≡ begins_below at versions.now }
{
    match versions.first() {
        Some(version) => version.number < at,
        None => false,
    }
}

impl Sweep {
    /// The collection that a Scan's versions ask for.
    pub fn of(alloc: Global, shard: ShardId, versions: &[Version]) -> Result<Sweep, Unread>
        ensures shown { Gives result (sweep_of shard versions.now) }
        ensures within { IfOk result (λ w. w.place ≤ length w.keys) }
        ensures few { IfOk result (λ w. length w.keys ≤ 2 ^ 62) }
    {
        match newest_of(alloc, shard, versions)? {
            Some(state) => Sweep::below(alloc, shard, state.floor(), versions),
            None => Ok(Sweep {
                floor: 0,
                keys: KeyList::new(alloc),
                place: 0,
                cut: false,
            }),
        }
    }

    // The collection of what lies below a floor.
    fn below(
        alloc: Global,
        shard: ShardId,
        floor: u64,
        versions: &[Version],
    ) -> Result<Sweep, Unread>
        ensures shown { Gives result (sweep_from floor versions.now (taken_after shard floor [] versions.now)) }
        ensures within { IfOk result (λ w. w.place ≤ length w.keys) }
        ensures few { IfOk result (λ w. length w.keys ≤ 2 ^ 62) }
    {
        let keys = taken_keys(alloc, shard, floor, versions)?;
        if keys.as_slice().len() > MAX_KEYS {
            return Err(Unread::Memory);
        }
        Ok(Sweep {
            floor,
            keys,
            place: 0,
            cut: begins_below(floor, versions),
        })
    }

    /// Whether anything is left.
    pub fn goes_on(&self) -> bool
        ensures { result ≡ goes_on self.now }
    {
        self.place < self.keys.as_slice().len() || self.cut
    }

    /// The call that comes next: the Delete of the next key, or the Truncate below the floor.
    pub fn next_call(&self, shard: ShardId) -> Call
        ensures { result ≡ sweep_call shard self.now }
    {
        match self.keys.as_slice().get(self.place) {
            Some(key) => Call::Delete { key: *key },
            None => Call::Truncate {
                shard,
                below: self.floor,
            },
        }
    }

    /// That call was answered.
    pub fn pass(&mut self)
        ensures after { self.new ≡ swept self.old }
        ensures within { self.old.place ≤ length self.old.keys → self.new.place ≤ length self.new.keys }
        ensures keys { self.new.keys ≡ self.old.keys }
    {
        if self.place < self.keys.as_slice().len() {
            self.place += 1;
        } else {
            self.cut = false;
        }
    }
}
