// A disk in memory, which fails where it is told to.
ghost use Rattle.std.specs.Prelude.{◌≡◌, ◌≤◌, ◌+◌, Some, None, [], ◌∷◌, ◌++◌, length, take, drop, slice_range, IfOk, OnOk, OnErr};
ghost use Rattle.journal_core.specs.Disks.{fresh_disk, with_state};
ghost use Rattle.journal_core.specs.Calls.{over, Same, Wrote, MayHaveWritten, WasCut, MayHaveBeenCut, WasSynced, Steps, MayStep};
ghost use Rattle.journal_core.specs.MemDisks.{after_disk_call, disk_after, bytes_now, bytes_or_none};

use crate::disk_calls::DiskCall;
use crate::disks::Disk;
use crate::faults::DiskFault;
use crate::images::image_after;
use crate::tallies::Tally;
use causes::NumberList;
use std::alloc::{AllocError, Global};
use store_core::Bytes;

/// A disk in memory, with what it has been asked.
#[derive(Drop)]
pub struct MemDisk {
    alloc: Global,
    tally: Tally,
    start: Option<Bytes>,
    calls: Vec<DiskCall>,
    changed: Option<Bytes>,
    ghost current: { bytes_now start changed ≡ (disk_after start calls.items).now.bytes },
}

fn bytes_of<'a>(start: &'a Option<Bytes>, changed: &'a Option<Bytes>) -> &'a [u8]
    ensures { result.now ≡ bytes_now start.now changed.now }
{
    match (changed, start) {
        (Some(bytes), _) => bytes.as_slice(),
        (None, Some(bytes)) => bytes.as_slice(),
        (None, None) => &[],
    }
}

fn owned(alloc: Global, bytes: &[u8]) -> Result<Bytes, AllocError>
    ensures { IfOk result (λ b. b ≡ bytes.now) }
{
    Bytes::of(alloc, Vec::from_slice(alloc, bytes)?)
}

fn past(bytes: &[u8], n: usize) -> &[u8]
    ensures { result.now ≡ drop n bytes.now }
{
    if n < bytes.len() { &bytes[n..] } else { &[] }
}

fn overwritten(alloc: Global, old: &[u8], at: u64, new: &[u8]) -> Result<Bytes, AllocError>
    requires { at ≤ length old.now }
    ensures { IfOk result (λ b. b ≡ over at new.now old.now) }
{
    let (front, back) = old.split_at(at as usize);
    let mut bytes = Vec::from_slice(alloc, front)?;
    bytes.extend_from_slice(new)?;
    bytes.extend_from_slice(past(back, new.len()))?;
    Bytes::of(alloc, bytes)
}

fn shortened(alloc: Global, old: &[u8], len: u64) -> Result<Bytes, AllocError>
    ensures { IfOk result (λ b. b ≡ take len old.now) }
{
    if len < old.len() as u64 {
        owned(alloc, &old[..len as usize])
    } else {
        owned(alloc, old)
    }
}

fn first_calls(calls: &Vec<DiskCall>, n: u64) -> &[DiskCall]
    ensures { result.now ≡ take n calls.now.items }
{
    if n < calls.len() as u64 {
        &calls[..n as usize]
    } else {
        calls.as_slice()
    }
}

fn start_of(start: &Option<Bytes>) -> &[u8]
    ensures { result.now ≡ bytes_or_none start.now }
{
    match start {
        Some(bytes) => bytes.as_slice(),
        None => &[],
    }
}

impl MemDisk {
    ghost use Rattle.journal_core.specs.Images.{image_of};
    ghost use Rattle.journal_core.specs.Crashes.{MayLeave};
    ghost use Rattle.journal_core.specs.MemTold.{disk_of, told, tally_of};

    /// An empty disk, which fails at the listed calls. It takes no memory.
    pub fn new(alloc: Global, fails: NumberList) -> MemDisk
        ensures disk { disk_of result ≡ fresh_disk [] }
        ensures tally { tally_of result ≡ record { fails = fails; made = 0; failed = 0; refused = 0 } }
    {
        MemDisk {
            alloc,
            tally: Tally::new(fails),
            start: None,
            calls: Vec::new(alloc),
            changed: None,
        }
    }

    /// A disk with these bytes, which fails at the listed calls. It takes no memory.
    pub fn holding(alloc: Global, bytes: Bytes, fails: NumberList) -> MemDisk
        ensures disk { disk_of result ≡ fresh_disk bytes }
        ensures tally { tally_of result ≡ record { fails = fails; made = 0; failed = 0; refused = 0 } }
    {
        MemDisk {
            alloc,
            tally: Tally::new(fails),
            start: Some(bytes),
            calls: Vec::new(alloc),
            changed: None,
        }
    }

    /// What a read gives.
    pub fn bytes(&self) -> &[u8]
        ensures { result.now ≡ (disk_of self.now).now.bytes }
    {
        bytes_of(&self.start, &self.changed)
    }

    /// How many calls were made.
    pub fn made(&self) -> u64
        ensures { result ≡ (tally_of self.now).made }
    {
        self.tally.made
    }

    /// How many calls failed for want of memory, and not because they are listed.
    pub fn refused(&self) -> u64
        ensures { result ≡ (tally_of self.now).refused }
    {
        self.tally.refused
    }

    /// The disk after its first `calls` calls and a crash. Of the bytes written since the last sync among these, in order of writing,
    /// the first `written` are as written; the others are as before, 00 past the old end.
    pub fn image(&self, calls: u64, written: u64) -> Result<MemDisk, AllocError>
        ensures disk { IfOk result (λ image. disk_of image ≡ fresh_disk
            (image_of self.now.start (take calls self.now.calls.items) written)) }
        // It is one outcome of a crash.
        ensures crash { IfOk result (λ image. MayLeave (disk_after self.now.start (take calls self.now.calls.items)).now
            (disk_of image).now.bytes) }
    {
        let asked = first_calls(&self.calls, calls);
        let left = image_after(self.alloc, start_of(&self.start), asked, written)?;
        let bytes = Bytes::of(self.alloc, left)?;
        Ok(MemDisk::holding(self.alloc, bytes, NumberList::new(self.alloc)))
    }

    fn noted(&mut self, call: DiskCall, changed: Option<Bytes>) -> Result<(), AllocError>
        requires { bytes_now self.old.start changed ≡ (after_disk_call (disk_of self.old).now call).bytes }
        ensures ok { OnOk result (disk_of self.new ≡ with_state (disk_of self.old) (after_disk_call (disk_of self.old).now call)) }
        ensures err { OnErr result (disk_of self.new ≡ disk_of self.old) }
        ensures tally { tally_of self.new ≡ tally_of self.old }
    {
        self.calls.push(call)?;
        self.changed = changed;
        Ok(())
    }

    // A call that leaves the bytes as they are.
    fn seen(&mut self, call: DiskCall) -> Result<(), AllocError>
        requires { (after_disk_call (disk_of self.old).now call).bytes ≡ (disk_of self.old).now.bytes }
        ensures ok { OnOk result (disk_of self.new ≡ with_state (disk_of self.old) (after_disk_call (disk_of self.old).now call)) }
        ensures err { OnErr result (disk_of self.new ≡ disk_of self.old) }
        ensures tally { tally_of self.new ≡ tally_of self.old }
    {
        self.calls.push(call)?;
        Ok(())
    }

    fn wrote(&mut self, at: u64, bytes: &[u8]) -> Result<(), AllocError>
        requires { at ≤ length (disk_of self.old).now.bytes }
        ensures ok { OnOk result (Steps (Wrote at bytes.now) (told self.old) (told self.new)) }
        ensures err { OnErr result (disk_of self.new ≡ disk_of self.old) }
        ensures tally { tally_of self.new ≡ tally_of self.old }
    {
        let next = overwritten(self.alloc, self.bytes(), at, bytes)?;
        let bytes = owned(self.alloc, bytes)?;
        let done = true;
        self.noted(DiskCall::Write { at, bytes, done }, Some(next))
    }

    fn failed_to_write(&mut self, at: u64, bytes: &[u8]) -> Result<(), AllocError>
        ensures step { MayStep (MayHaveWritten at bytes.now) (told self.old) (told self.new) }
        ensures kept { (disk_of self.new).now.bytes ≡ (disk_of self.old).now.bytes }
        ensures tally { tally_of self.new ≡ tally_of self.old }
    {
        let bytes = owned(self.alloc, bytes)?;
        let done = false;
        self.seen(DiskCall::Write { at, bytes, done })
    }

    fn was_cut(&mut self, len: u64) -> Result<(), AllocError>
        ensures ok { OnOk result (Steps (WasCut len) (told self.old) (told self.new)) }
        ensures err { OnErr result (disk_of self.new ≡ disk_of self.old) }
        ensures tally { tally_of self.new ≡ tally_of self.old }
    {
        let next = shortened(self.alloc, self.bytes(), len)?;
        let done = true;
        self.noted(DiskCall::Cut { len, done }, Some(next))
    }

    fn failed_to_cut(&mut self, len: u64) -> Result<(), AllocError>
        ensures step { MayStep (MayHaveBeenCut len) (told self.old) (told self.new) }
        ensures kept { (disk_of self.new).now.bytes ≡ (disk_of self.old).now.bytes }
        ensures tally { tally_of self.new ≡ tally_of self.old }
    {
        let done = false;
        self.seen(DiskCall::Cut { len, done })
    }

    fn synced(&mut self) -> Result<(), AllocError>
        ensures ok { OnOk result (Steps WasSynced (told self.old) (told self.new)) }
        ensures err { OnErr result (disk_of self.new ≡ disk_of self.old) }
        ensures tally { tally_of self.new ≡ tally_of self.old }
    {
        let done = true;
        self.seen(DiskCall::Sync { done })
    }

    fn looked(&mut self) -> Result<(), AllocError>
        ensures ok { OnOk result (Steps Same (told self.old) (told self.new)) }
        ensures err { OnErr result (disk_of self.new ≡ disk_of self.old) }
        ensures tally { tally_of self.new ≡ tally_of self.old }
    {
        self.seen(DiskCall::Look)
    }

    // A call that failed to look at the disk, or to sync it.
    fn failed_to_look(&mut self) -> Result<(), AllocError>
        ensures step { MayStep Same (told self.old) (told self.new) }
        ensures kept { (disk_of self.new).now.bytes ≡ (disk_of self.old).now.bytes }
        ensures tally { tally_of self.new ≡ tally_of self.old }
    {
        self.seen(DiskCall::Look)
    }
}

fn copy_range(bytes: &[u8], at: u64, into: &mut [u8])
    requires { at + length into.old ≤ length bytes.now }
    ensures { into.new ≡ slice_range bytes.now at (at + length into.new) }
{
    let at = at as usize;
    into.copy_from_slice(&bytes[at..at + into.len()]);
}

impl Disk for MemDisk {
    ghost use Rattle.causes.specs.Causes.{HasCause};
    ghost use Rattle.journal_core.specs.Calls.{HasLength, Reaches, HasBytes};
    ghost use Rattle.journal_core.specs.MemTold.{disk_of, told, failed_calls, tally_of};
    ghost use Rattle.journal_core.specs.Tallies.{FailsAsListed};

    ghost history = { told };

    ghost faults = { failed_calls };

    fn len(&mut self) -> Result<u64, DiskFault>
        ensures length { IfOk result (λ n. HasLength (told self.old) n) }
        ensures ok { OnOk result (Steps Same (told self.old) (told self.new)) }
        ensures err { OnErr result (MayStep Same (told self.old) (told self.new)) }
        ensures cause { HasCause (failed_calls self.old) (failed_calls self.new) result }
        ensures exact { FailsAsListed (tally_of self.old) (tally_of self.new) result }
        ensures kept { OnErr result ((disk_of self.new).now.bytes ≡ (disk_of self.old).now.bytes) }
    {
        if self.tally.next_fails() {
            let _ = self.failed_to_look();
            return Err(self.tally.fault());
        }
        if self.looked().is_err() {
            return Err(self.tally.refusal());
        }
        Ok(self.bytes().len() as u64)
    }

    fn read(&mut self, at: u64, into: &mut [u8]) -> Result<(), DiskFault>
        requires { Reaches (told self.old) (at + length into.old) }
        ensures bytes { OnOk result (HasBytes (told self.old) at into.new) }
        ensures ok { OnOk result (Steps Same (told self.old) (told self.new)) }
        ensures err { OnErr result (MayStep Same (told self.old) (told self.new)) }
        ensures cause { HasCause (failed_calls self.old) (failed_calls self.new) result }
        ensures exact { FailsAsListed (tally_of self.old) (tally_of self.new) result }
        ensures kept { OnErr result ((disk_of self.new).now.bytes ≡ (disk_of self.old).now.bytes) }
    {
        if self.tally.next_fails() {
            let _ = self.failed_to_look();
            return Err(self.tally.fault());
        }
        if self.looked().is_err() {
            return Err(self.tally.refusal());
        }
        copy_range(self.bytes(), at, into);
        Ok(())
    }

    fn write_at(&mut self, at: u64, bytes: &[u8]) -> Result<(), DiskFault>
        requires { Reaches (told self.old) at }
        ensures ok { OnOk result (Steps (Wrote at bytes.now) (told self.old) (told self.new)) }
        ensures err { OnErr result (MayStep (MayHaveWritten at bytes.now) (told self.old) (told self.new)) }
        ensures cause { HasCause (failed_calls self.old) (failed_calls self.new) result }
        ensures exact { FailsAsListed (tally_of self.old) (tally_of self.new) result }
        ensures kept { OnErr result ((disk_of self.new).now.bytes ≡ (disk_of self.old).now.bytes) }
    {
        if self.tally.next_fails() {
            let _ = self.failed_to_write(at, bytes);
            return Err(self.tally.fault());
        }
        if self.wrote(at, bytes).is_err() {
            return Err(self.tally.refusal());
        }
        Ok(())
    }

    fn cut(&mut self, len: u64) -> Result<(), DiskFault>
        ensures ok { OnOk result (Steps (WasCut len) (told self.old) (told self.new)) }
        ensures err { OnErr result (MayStep (MayHaveBeenCut len) (told self.old) (told self.new)) }
        ensures cause { HasCause (failed_calls self.old) (failed_calls self.new) result }
        ensures exact { FailsAsListed (tally_of self.old) (tally_of self.new) result }
        ensures kept { OnErr result ((disk_of self.new).now.bytes ≡ (disk_of self.old).now.bytes) }
    {
        if self.tally.next_fails() {
            let _ = self.failed_to_cut(len);
            return Err(self.tally.fault());
        }
        if self.was_cut(len).is_err() {
            return Err(self.tally.refusal());
        }
        Ok(())
    }

    fn sync(&mut self) -> Result<(), DiskFault>
        ensures ok { OnOk result (Steps WasSynced (told self.old) (told self.new)) }
        ensures err { OnErr result (MayStep Same (told self.old) (told self.new)) }
        ensures cause { HasCause (failed_calls self.old) (failed_calls self.new) result }
        ensures exact { FailsAsListed (tally_of self.old) (tally_of self.new) result }
        ensures kept { OnErr result ((disk_of self.new).now.bytes ≡ (disk_of self.old).now.bytes) }
    {
        if self.tally.next_fails() {
            let _ = self.failed_to_look();
            return Err(self.tally.fault());
        }
        if self.synced().is_err() {
            return Err(self.tally.refusal());
        }
        Ok(())
    }
}
