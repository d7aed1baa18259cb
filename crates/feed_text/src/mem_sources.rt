// A source in memory, which fails where it is told to.
ghost use Rattle.std.specs.Prelude.{◌≡◌, ◌↔◌, ◌<◌, ◌≤◌, Some, length, min, take, IfOk, OnErr, OnOk, IsErr, Contains};
ghost use Rattle.causes.specs.Causes.{Counts, Rose};
ghost use Rattle.feed_text.specs.Streams.{Takes, AtEnd};

use crate::sources::{Source, SourceFault};
use causes::{NumberList, one_more};

/// A source of bytes in memory. The reads whose numbers, from 0, are in its list fail.
#[derive(Drop)]
pub struct MemSource {
    bytes: Vec<u8>,
    place: usize,
    fails: NumberList,
    faults: u64,
    reads: u64,
    ghost in_range: { place ≤ length bytes.items },
}

// Puts the first bytes there are at the front, and says how many.
fn copy_front(bytes: &[u8], into: &mut [u8]) -> usize
    ensures all { result ≡ min (length bytes.now) (length into.old) }
    ensures copied { take result into.new ≡ take result bytes.now }
{
    let count = bytes.len().min(into.len());
    into[..count].copy_from_slice(&bytes[..count]);
    count
}

impl MemSource {
    ghost use Rattle.feed_text.specs.MemStreams.{failing_reads};

    /// A source that gives these bytes. It takes no memory.
    pub fn new(bytes: Vec<u8>, fails: NumberList) -> MemSource
        ensures left { ⟦<MemSource as Source>⟧.left result ≡ Some bytes.items }
        ensures fails { failing_reads result ≡ fails }
        ensures reads { ⟦<MemSource as Source>⟧.reads result ≡ 0 }
        ensures faults { ⟦<MemSource as Source>⟧.faults result ≡ 0 }
    {
        MemSource {
            bytes,
            place: 0,
            fails,
            faults: 0,
            reads: 0,
        }
    }
}

impl Source for MemSource {
    ghost use Rattle.feed_text.specs.MemStreams.{bytes_left, failing_reads};

    ghost left = { λ s. Some (bytes_left s) };

    ghost faults = { λ s. s.faults };

    ghost reads = { λ s. s.reads };

    fn read(&mut self, into: &mut [u8]) -> Result<usize, SourceFault>
        requires { 0 < length into.old }
        ensures within { IfOk result (λ n. n ≤ length into.new) }
        ensures taken { IfOk result (λ n. Takes (Some (bytes_left self.old)) (Some (bytes_left self.new)) (take n into.new)) }
        ensures end { IfOk result (λ n. n ≡ 0 → AtEnd (Some (bytes_left self.old))) }
        ensures err { OnErr result (Some (bytes_left self.new) ≡ Some (bytes_left self.old)) }
        ensures cause { OnErr result (Rose self.old.faults self.new.faults) }
        ensures sound { OnOk result (self.new.faults ≡ self.old.faults) }
        ensures later { self.old.faults ≤ self.new.faults }
        ensures counted { Counts 1 self.old.reads self.new.reads }

        // It fails exactly at the listed reads.
        ensures exact { IsErr result ↔ Contains (failing_reads self.old) self.old.reads }
        ensures fails { failing_reads self.new ≡ failing_reads self.old }
    {
        let number = self.reads;
        self.reads = one_more(number);
        if self.fails.contains(number) {
            self.faults = one_more(self.faults);
            return Err(SourceFault);
        }
        let count = copy_front(&self.bytes[self.place..], into);
        self.place += count;
        Ok(count)
    }
}
