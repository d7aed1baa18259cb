// Spine: the batches of a collection, from time 0 on.
ghost use Rattle.std.specs.Prelude.{◌≡◌, true, false, ◌⊎◌, ◌≤◌, ◌<◌, ◌+◌, ◌*◌, ◌^◌, [], ◌∷◌, ◌++◌, length, nat_lt, IfOk, IfErr, IfNone, IfSome, OnOk, OnErr, option_map, slice_set};
ghost use Rattle.std.specs.List.{remove};
ghost use Rattle.update_core.specs.Limits.{max_weight};
ghost use Rattle.update_core.specs.Frontiers.{covers, is_at};
ghost use Rattle.spine_core.specs.Settled.{weights_of, due_place, with_next, IsSettled};
ghost use Rattle.spine_core.specs.Spines.{spine_upper, rows_of, IsSpine, HasNoPair, Pair, Replaced};

use crate::batches::Batch;
use crate::spine_faults::SpineFault;
use std::alloc::{AllocError, Global};
use std::marker::Model;
use update_core::Frontier;

/// Batches that follow one another without a gap, the first from time 0 on.
#[derive(Drop)]
pub struct Spine {
    items: Vec<Batch>,
}

impl Model for Spine {
    ghost use Rattle.std.specs.Prelude.{List};
    ghost use Rattle.spine_core.specs.declared.batches.Batch.{Batch};

    ghost Value = { List Batch };

    ghost use Rattle.spine_core.specs.Spines.{IsSpine};

    ghost view = { λ s. s.items.items };

    ghost invariant = { λ s. IsSpine s.items.items };
}

fn copied(alloc: Global, batches: &[Batch]) -> Result<Vec<Batch>, AllocError>
    ensures { IfOk result (λ copy. copy.items ≡ batches.now) }
{
    let mut copy = Vec::new(alloc);
    for batch in batches {
        copy.push(batch.copy(alloc)?)?;
    }
    Ok(copy)
}

fn upper_of(batches: &[Batch]) -> Frontier
    ensures { result ≡ spine_upper batches.now }
{
    match batches.last() {
        Some(last) => last.desc.upper,
        None => Frontier::at(0),
    }
}

// Puts a batch at the end.
fn put(batches: &mut Vec<Batch>, batch: Batch) -> Result<(), AllocError>
    ensures ok { OnOk result (batches.new.items ≡ batches.old.items ++ batch ∷ []) }
    ensures err { OnErr result (batches.new.items ≡ batches.old.items) }
{
    batches.push(batch)?;
    Ok(())
}

// The first place where left is directly followed by right.
fn place_of(batches: &[Batch], left: &Batch, right: &Batch) -> Option<usize>
    ensures some { IfSome result (λ place. (pair : Pair left.now right.now batches.now) × (length pair.front ≡ place)) }
    ensures none { IfNone result (HasNoPair left.now right.now batches.now) }
{
    for i in 1..batches.len() {
        if batches[i - 1].is_same(left) && batches[i].is_same(right) {
            return Some(i - 1);
        }
    }
    None
}

// Puts merged in place of the two batches from a place on.
fn merge_at(batches: &mut Vec<Batch>, place: usize, merged: Batch)
    requires { place + 1 < length batches.old.items }
    ensures { batches.new.items ≡ slice_set (remove batches.old.items (place + 1)) place merged }
{
    batches.remove(place + 1);
    batches[place] = merged;
}

// The leftmost two that are due.
fn first_due(batches: &[Batch]) -> Option<(usize, usize)>
    requires { rows_of batches.now ≤ max_weight }
    ensures { result ≡ option_map with_next (due_place (weights_of batches.now)) }
{
    for i in 1..batches.len() {
        let left = batches[i - 1].rows + 1;
        let right = batches[i].rows + 1;
        if left < 2 * right {
            return Some((i - 1, i));
        }
    }
    None
}

fn rows_in(batches: &[Batch]) -> u128
    ensures { result ≡ rows_of batches.now }
{
    let mut total = 0u128;
    for batch in batches {
        total += u128::from(batch.rows);
    }
    total
}

impl Spine {
    /// The spine with no batch, which takes no memory.
    pub fn new(alloc: Global) -> Spine
        ensures { result ≡ [] }
    {
        Spine {
            items: Vec::new(alloc),
        }
    }

    /// The batches in order.
    pub fn batches(&self) -> &[Batch]
        ensures batches { result.now ≡ self.now }
        ensures spine { IsSpine self.now }
    {
        &self.items
    }

    /// The frontier up to which the batches go: the upper of the last, or time 0 where there is none.
    pub fn upper(&self) -> Frontier
        ensures { result ≡ spine_upper self.now }
    {
        upper_of(&self.items)
    }

    /// How many rows the batches have in all: the test for what `due` requires.
    pub fn rows(&self) -> u128
        ensures { result ≡ rows_of self.now }
    {
        rows_in(&self.items)
    }

    /// An equal spine. It fails only for want of memory.
    pub fn copy(&self, alloc: Global) -> Result<Spine, AllocError>
        ensures { IfOk result (λ copy. copy ≡ self.now) }
    {
        let items = copied(alloc, &self.items)?;
        Ok(Spine { items })
    }

    /// Puts a batch at the end: `NotNext` exactly where it isn't from the spine's upper on, and else `Memory` where
    /// memory is refused. A refused batch changes nothing.
    pub fn push(&mut self, batch: Batch) -> Result<(), SpineFault>
        requires { covers batch.desc.upper batch.desc.lower ≡ true }
        ensures ok { OnOk result (self.new ≡ self.old ++ batch ∷ []) }
        ensures next { OnOk result (is_at (spine_upper self.old) batch.desc.lower ≡ true) }
        ensures fault { IfErr result (λ fault.
            ((fault ≡ SpineFault.Memory) × (is_at (spine_upper self.old) batch.desc.lower ≡ true))
            ⊎ ((fault ≡ SpineFault.NotNext (spine_upper self.old)) × (is_at (spine_upper self.old) batch.desc.lower ≡ false))) }
        ensures unchanged { OnErr result (self.new ≡ self.old) }
    {
        let upper = self.upper();
        if !upper.is_at(batch.desc.lower) {
            return Err(SpineFault::NotNext { upper });
        }
        put(&mut self.items, batch)?;
        Ok(())
    }

    /// Puts merged in place of left and right, at the first place where left is directly followed by right: `Gone`
    /// exactly where there is none, and the spine is then as it was. It takes no memory.
    pub fn replace(&mut self, left: &Batch, right: &Batch, merged: Batch) -> Result<(), SpineFault>
        requires lower { merged.desc.lower ≡ left.now.desc.lower }
        requires upper { merged.desc.upper ≡ right.now.desc.upper }
        ensures ok { OnOk result (Replaced left.now right.now merged self.old self.new) }
        ensures gone { IfErr result (λ fault. (fault ≡ SpineFault.Gone) × HasNoPair left.now right.now self.old) }
        ensures unchanged { OnErr result (self.new ≡ self.old) }
    {
        match place_of(&self.items, left, right) {
            None => Err(SpineFault::Gone),
            Some(place) => {
                merge_at(&mut self.items, place, merged);
                Ok(())
            }
        }
    }

    /// The leftmost two batches of which the first has less than twice the weight of the next, a batch's weight being
    /// its rows and one more. Where there are none, there are at most 64 batches.
    pub fn due(&self) -> Option<(usize, usize)>
        requires { rows_of self.now ≤ max_weight }
        ensures exact { result ≡ option_map with_next (due_place (weights_of self.now)) }
        ensures there { IfSome result (λ pair. (pair.1 ≡ pair.0 + 1) × (pair.1 < length self.now)) }
        ensures settled { IfNone result (IsSettled (weights_of self.now)) }
        ensures few { IfNone result (length self.now ≤ 64) }
    {
        first_due(&self.items)
    }
}
