// Where bytes come from.
ghost use Rattle.std.specs.Prelude.{◌≡◌, ◌<◌, ◌≤◌, ℕ, Option, List, length, take, IfOk, OnErr, OnOk};
ghost use Rattle.causes.specs.Causes.{Counts, Rose};
ghost use Rattle.feed_text.specs.Streams.{Takes, AtEnd};

use thiserror::Error;

/// A read failed.
#[derive(Debug, Drop, Error)]
#[error("a read failed")]
pub struct SourceFault;

/// Where bytes come from. See docs/DEFINITIONS.md, "Streams".
pub trait Source {
    /// The bytes that are left, where it tells them.
    ghost left: { Self → Option (List ℕ) };

    /// How often a read has failed.
    ghost faults: { Self → ℕ };

    /// How often it has been read.
    ghost reads: { Self → ℕ };

    /// Puts the next bytes at the front of `into`, which isn't empty, and says how many. 0 is the end.
    /// A fault takes nothing.
    fn read(&mut self, into: &mut [u8]) -> Result<usize, SourceFault>
        requires { 0 < length into.old }
        ensures within { IfOk result (λ n. n ≤ length into.new) }
        ensures taken { IfOk result (λ n. Takes (left self.old) (left self.new) (take n into.new)) }
        ensures end { IfOk result (λ n. n ≡ 0 → AtEnd (left self.old)) }
        ensures err { OnErr result (left self.new ≡ left self.old) }
        ensures cause { OnErr result (Rose (faults self.old) (faults self.new)) }
        ensures sound { OnOk result (faults self.new ≡ faults self.old) }
        ensures later { faults self.old ≤ faults self.new }
        ensures counted { Counts 1 (reads self.old) (reads self.new) };
}
