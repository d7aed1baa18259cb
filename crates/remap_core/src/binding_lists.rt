// Bindings: at which times which offsets were reached.
ghost use Rattle.std.specs.Prelude.{ℕ, List, ◌≡◌, ◌⊎◌, ◌<◌, ◌≤◌, ◌+◌, ◌^◌, [], ◌∷◌, ◌++◌, length, get_or, Some, None, OnOk, OnErr, IfOk};
ghost use Rattle.std.specs.Prelude.{IfErr, IfNone, IfSome};
ghost use Rattle.remap_core.specs.Offsets.{offset, covered, unset, NoneFalls, LeastFall};
ghost use Rattle.remap_core.specs.Extending.{reached, raised, before, last_time, with_row, ends_at, UpToTime};
ghost use Rattle.remap_core.specs.Refusals.{IsRefusal};
ghost use Rattle.remap_core.specs.Bound.{bind, time_at, last_of, AllBefore, IsLater, Rising};

use crate::bind_faults::BindFault;
use crate::raise_faults::RaiseFault;
use crate::source_frontiers::SourceFrontier;
use std::alloc::{AllocError, Global};
use std::marker::Model;

/// Times with the offsets that were reached by then. Times rise and no offset falls. See docs/DEFINITIONS.md, "Reclocking".
#[derive(Drop)]
pub struct Bindings {
    items: Vec<(u64, SourceFrontier)>,
}

impl Model for Bindings {
    ghost use Rattle.std.specs.Prelude.{List, ℕ};
    ghost use Rattle.remap_core.specs.Bound.{Rising};

    ghost Value = { List (ℕ × List ℕ) };

    ghost view = { λ b. b.items.items };

    ghost invariant = { λ b. Rising b.items.items };
}

// The least partition whose offset falls.
fn fallen(before: &SourceFrontier, after: &SourceFrontier) -> Option<u8>
    ensures some { IfSome result (λ p. LeastFall before.now after.now p) }
    ensures none { IfNone result (NoneFalls before.now after.now) }
{
    for partition in 0..=u8::MAX {
        if after.get(partition) < before.get(partition) {
            return Some(partition);
        }
    }
    None
}

// Puts a binding at the end.
fn put(
    items: &mut Vec<(u64, SourceFrontier)>,
    time: u64,
    frontier: SourceFrontier,
) -> Result<(), AllocError>
    ensures ok { OnOk result (items.new.items ≡ items.old.items ++ (time, frontier) ∷ []) }
    ensures err { OnErr result (items.new.items ≡ items.old.items) }
{
    items.push((time, frontier))?;
    Ok(())
}

// The last binding.
fn last_in(items: &[(u64, SourceFrontier)]) -> Option<&(u64, SourceFrontier)>
    ensures some { IfSome result (λ last. last_of items.now ≡ Some last.now) }
    ensures none { IfNone result (items.now ≡ []) }
{
    match items.last() {
        Some(last) => Some(last),
        None => None,
    }
}

// Why a binding isn't later than another.
fn refused_after(
    last: &(u64, SourceFrontier),
    time: u64,
    frontier: &SourceFrontier,
) -> Option<BindFault>
    ensures some { IfSome result (λ fault. IsRefusal fault last.now (time, frontier.now)) }
    ensures none { IfNone result (IsLater last.now (time, frontier.now)) }
{
    let before = last.0;
    if time <= before {
        return Some(BindFault::NotLater { last: before });
    }
    match fallen(&last.1, frontier) {
        Some(partition) => Some(BindFault::Back { partition }),
        None => None,
    }
}

// Why a binding isn't later than those before it.
fn refused(
    items: &[(u64, SourceFrontier)],
    time: u64,
    frontier: &SourceFrontier,
) -> Option<BindFault>
    requires { Rising items.now }
    ensures some { IfSome result (λ fault. (b : ℕ × List ℕ) × (last_of items.now ≡ Some b) × IsRefusal fault b (time, frontier.now)) }
    ensures none { IfNone result (AllBefore (time, frontier.now) items.now) }
{
    match last_in(items) {
        None => None,
        Some(last) => refused_after(last, time, frontier),
    }
}

// The place of the first binding that covers an offset, or the end.
fn first_covering(items: &[(u64, SourceFrontier)], partition: u8, offset: u64) -> usize
    requires { Rising items.now }
    ensures { bind items.now partition offset ≡ time_at items.now result }
{
    let mut from = 0;
    let mut to = items.len();
    while from < to {
        let middle = from + (to - from) / 2;
        if items[middle].1.covers(partition, offset) {
            to = middle;
        } else {
            from = middle + 1;
        }
    }
    from
}

// The offsets of the last binding.
fn reached_in(items: &[(u64, SourceFrontier)]) -> SourceFrontier
    ensures { result ≡ reached items.now }
{
    match last_in(items) {
        Some(last) => last.1,
        None => SourceFrontier::new(),
    }
}

// The time of the last binding.
fn last_time(items: &[(u64, SourceFrontier)]) -> u64
    ensures { result ≡ last_time items.now }
{
    match last_in(items) {
        Some(last) => last.0,
        None => 0,
    }
}

// Whether the last binding is at the time.
fn ends_at(items: &[(u64, SourceFrontier)], time: u64) -> bool
    ensures { result ≡ ends_at items.now time }
{
    match last_in(items) {
        Some(last) => last.0 == time,
        None => false,
    }
}

// One partition's offset raised, where it is then at most 2^48.
fn higher(frontier: SourceFrontier, partition: u8, by: u64) -> Option<SourceFrontier>
    ensures some { IfSome result (λ f. f ≡ raised frontier partition by) }
    ensures rises { IfSome result (λ f. NoneFalls frontier f) }
    ensures none { IfNone result (2 ^ 48 < offset frontier partition + by) }
{
    let had = frontier.get(partition);
    if by > (1 << 48) - had {
        return None;
    }
    let mut frontier = frontier;
    match frontier.set(partition, had + by) {
        Ok(()) => Some(frontier),
        Err(_) => None,
    }
}

// Puts a binding in place of the last one, where that is at its time, or else at the end.
fn put_at(
    items: &mut Vec<(u64, SourceFrontier)>,
    time: u64,
    frontier: SourceFrontier,
) -> Result<(), AllocError>
    requires rising { Rising items.old.items }
    requires up_to { UpToTime time items.old.items }
    ensures ok { OnOk result (items.new.items ≡ before time items.old.items ++ (time, frontier) ∷ []) }
    ensures err { OnErr result (items.new.items ≡ items.old.items) }
{
    if ends_at(items, time) {
        let place = items.len() - 1;
        items[place] = (time, frontier);
        return Ok(());
    }
    put(items, time, frontier)
}

impl Bindings {
    /// No binding, which takes no memory.
    pub fn new(alloc: Global) -> Bindings
        ensures { result ≡ [] }
    {
        Bindings {
            items: Vec::new(alloc),
        }
    }

    /// How many there are.
    pub fn len(&self) -> usize
        ensures { result ≡ length self.now }
    {
        self.items.len()
    }

    /// The binding at a place: its time, and the offsets reached by then.
    pub fn at(&self, place: usize) -> (u64, &SourceFrontier)
        requires { place < length self.now }
        ensures { (result.0, result.1.now) ≡ get_or self.now place (0, unset) }
    {
        let binding = &self.items[place];
        (binding.0, &binding.1)
    }

    /// The offsets of the last binding, or 0 for each partition.
    pub fn reached(&self) -> SourceFrontier
        ensures { result ≡ reached self.now }
    {
        reached_in(&self.items)
    }

    /// The time of the last binding, or 0 where there is none. No binding is past it.
    pub fn last_time(&self) -> u64
        ensures time { result ≡ last_time self.now }
        ensures up_to { UpToTime result self.now }
    {
        last_time(&self.items)
    }

    /// One more binding: `NotLater` exactly where its time isn't above the last one's, else `Back` exactly where an
    /// offset falls, and else `Memory` where memory is refused. A refused one changes nothing.
    pub fn add(&mut self, time: u64, frontier: SourceFrontier) -> Result<(), BindFault>
        ensures ok { OnOk result (self.new ≡ self.old ++ (time, frontier) ∷ []) }
        ensures later { OnOk result (AllBefore (time, frontier) self.old) }
        ensures fault { IfErr result (λ fault. ((fault ≡ BindFault.Memory) × AllBefore (time, frontier) self.old)
            ⊎ ((b : ℕ × List ℕ) × (last_of self.old ≡ Some b) × IsRefusal fault b (time, frontier))) }
        ensures unchanged { OnErr result (self.new ≡ self.old) }
    {
        if let Some(fault) = refused(&self.items, time, &frontier) {
            return Err(fault);
        }
        put(&mut self.items, time, frontier)?;
        Ok(())
    }

    /// The least bound time whose offsets cover this one, in log n steps for n bindings. It takes no memory.
    pub fn reclock(&self, partition: u8, offset: u64) -> Option<u64>
        ensures { result ≡ bind self.now partition offset }
    {
        let place = first_covering(&self.items, partition, offset);
        match self.items.get(place) {
            Some(binding) => Some(binding.0),
            None => None,
        }
    }

    /// Raises a partition's offset from a time on that no binding is past: `OffsetSize` exactly where it would be above
    /// 2^48, and else `Memory` where memory is refused. A refused raise changes nothing.
    pub fn raise(&mut self, time: u64, partition: u8, by: u64) -> Result<(), RaiseFault>
        requires { UpToTime time self.old }
        ensures ok { OnOk result (self.new ≡ with_row self.old time partition by) }
        ensures fault { IfErr result (λ fault. (fault ≡ RaiseFault.Memory)
            ⊎ ((fault ≡ RaiseFault.OffsetSize) × (2 ^ 48 < offset (reached self.old) partition + by))) }
        ensures unchanged { OnErr result (self.new ≡ self.old) }
    {
        match higher(reached_in(&self.items), partition, by) {
            None => Err(RaiseFault::OffsetSize),
            Some(frontier) => {
                put_at(&mut self.items, time, frontier)?;
                Ok(())
            }
        }
    }
}
