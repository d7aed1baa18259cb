// What time it is.
ghost use Rattle.std.specs.Prelude.{◌≡◌};

/// A clock, which never fails. Its moments are milliseconds.
pub trait Clock {
    /// The moment now.
    fn now(&mut self) -> u64;
}

/// A clock that stands at one moment.
#[derive(Clone, Copy, Debug)]
pub struct FixedClock(pub u64);

impl Clock for FixedClock {
    fn now(&mut self) -> u64
        ensures stands { result ≡ self.old.0 }
        ensures same { self.new ≡ self.old }
    {
        self.0
    }
}
