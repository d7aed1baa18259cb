// Where bytes go.
ghost use Rattle.std.specs.Prelude.{◌≡◌, ◌<◌, ◌≤◌, ℕ, Option, List, length, take, IfOk, OnOk, OnErr};
ghost use Rattle.causes.specs.Causes.{Rose};
ghost use Rattle.feed_text.specs.Streams.{Gains, GainsFront};

use thiserror::Error;

/// A put failed.
#[derive(Debug, Drop, Error)]
#[error("a put failed")]
pub struct SinkFault;

/// Where bytes go. See docs/DEFINITIONS.md, "Streams".
pub trait Sink {
    /// The bytes that it has taken, where it tells them.
    ghost taken: { Self → Option (List ℕ) };

    /// How often a put has failed.
    ghost faults: { Self → ℕ };

    /// Takes bytes from the front of a piece, and says how many: one at least where the piece isn't empty.
    /// A fault takes nothing.
    fn put(&mut self, bytes: &[u8]) -> Result<usize, SinkFault>
        ensures within { IfOk result (λ n. n ≤ length bytes.now) }
        ensures some { IfOk result (λ n. 0 < length bytes.now → 0 < n) }
        ensures gained { IfOk result (λ n. Gains (taken self.old) (taken self.new) (take n bytes.now)) }
        ensures err { OnErr result (taken self.new ≡ taken self.old) }
        ensures cause { OnErr result (Rose (faults self.old) (faults self.new)) }
        ensures sound { OnOk result (faults self.new ≡ faults self.old) }
        ensures later { faults self.old ≤ faults self.new };
}

/// Puts all of a piece. Where a put fails, a front of the piece has been taken.
pub fn put_all<Si: Sink>(sink: &mut Si, bytes: &[u8]) -> Result<(), SinkFault>
    ensures ok { OnOk result (Gains (Si.taken sink.old) (Si.taken sink.new) bytes.now) }
    ensures front { OnErr result (GainsFront (Si.taken sink.old) (Si.taken sink.new) bytes.now) }
    ensures cause { OnErr result (Rose (Si.faults sink.old) (Si.faults sink.new)) }
    ensures sound { OnOk result (Si.faults sink.new ≡ Si.faults sink.old) }
    ensures later { Si.faults sink.old ≤ Si.faults sink.new }
{
    let mut rest = bytes;
    while !rest.is_empty() {
        let count = sink.put(rest)?;
        rest = &rest[count..];
    }
    Ok(())
}
