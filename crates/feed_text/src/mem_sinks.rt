// A sink in memory, which fails where it is told to.
ghost use Rattle.std.specs.Prelude.{◌≡◌, ◌<◌, ◌≤◌, [], ◌++◌, Some, length, take, IfOk, OnOk, OnErr, IsErr, Contains};
ghost use Rattle.causes.specs.Causes.{Counts, Rose};
ghost use Rattle.feed_text.specs.Streams.{Gains};

use crate::sinks::{Sink, SinkFault};
use causes::{NumberList, one_more};
use std::alloc::{AllocError, Global};

/// A sink that keeps what it takes in memory. The puts whose numbers, from 0, are in its list fail,
/// and so does one that is refused memory.
#[derive(Drop)]
pub struct MemSink {
    bytes: Vec<u8>,
    fails: NumberList,
    faults: u64,
    puts: u64,
}

impl MemSink {
    ghost use Rattle.feed_text.specs.MemStreams.{failing_puts, puts_so_far};

    /// A sink that has taken nothing. It takes no memory.
    pub fn new(alloc: Global, fails: NumberList) -> MemSink
        ensures taken { ⟦<MemSink as Sink>⟧.taken result ≡ Some [] }
        ensures fails { failing_puts result ≡ fails }
        ensures puts { puts_so_far result ≡ 0 }
        ensures faults { ⟦<MemSink as Sink>⟧.faults result ≡ 0 }
    {
        MemSink {
            bytes: Vec::new(alloc),
            fails,
            faults: 0,
            puts: 0,
        }
    }

    /// What it has taken.
    pub fn taken(&self) -> &[u8]
        ensures { ⟦<MemSink as Sink>⟧.taken self.now ≡ Some result.now }
    {
        &self.bytes
    }

    fn fail(&mut self) -> SinkFault
        ensures same { self.new ≡ record self.old { faults = self.new.faults } }
        ensures rose { Rose self.old.faults self.new.faults }
        ensures later { self.old.faults ≤ self.new.faults }
    {
        self.faults = one_more(self.faults);
        SinkFault
    }
}

impl Sink for MemSink {
    ghost use Rattle.feed_text.specs.MemStreams.{failing_puts, puts_so_far};

    ghost taken = { λ s. Some s.bytes.items };

    ghost faults = { λ s. s.faults };

    fn put(&mut self, bytes: &[u8]) -> Result<usize, SinkFault>
        ensures within { IfOk result (λ n. n ≤ length bytes.now) }
        ensures some { IfOk result (λ n. 0 < length bytes.now → 0 < n) }
        ensures gained { IfOk result (λ n. Gains (Some self.old.bytes.items) (Some self.new.bytes.items) (take n bytes.now)) }
        ensures err { OnErr result (Some self.new.bytes.items ≡ Some self.old.bytes.items) }
        ensures cause { OnErr result (Rose self.old.faults self.new.faults) }
        ensures sound { OnOk result (self.new.faults ≡ self.old.faults) }
        ensures later { self.old.faults ≤ self.new.faults }

        // It fails at each listed put; elsewhere it takes the whole piece, or is refused memory.
        ensures listed { Contains (failing_puts self.old) (puts_so_far self.old) → IsErr result }
        ensures whole { IfOk result (λ n. n ≡ length bytes.now) }
        ensures fails { failing_puts self.new ≡ failing_puts self.old }
        ensures counted { Counts 1 (puts_so_far self.old) (puts_so_far self.new) }
    {
        let number = self.puts;
        self.puts = one_more(number);
        if self.fails.contains(number) {
            return Err(self.fail());
        }
        match self.bytes.extend_from_slice(bytes) {
            Ok(()) => Ok(bytes.len()),
            Err(_) => Err(self.fail()),
        }
    }
}
