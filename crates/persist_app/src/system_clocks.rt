// The system's clock.
use crate::clocks::Clock;
use std::io;
use std::time::SystemTime;

/// The system's clock, in milliseconds since 1970. Where the system doesn't tell the time, it stands at the last moment
/// that it told, or at 0.
#[derive(Drop)]
pub struct SystemClock<R> {
    system: R,
    last: u64,
}

impl<R: std::rt::Clock> SystemClock<R> {
    /// A clock of this system.
    pub fn new(system: R) -> SystemClock<R> {
        SystemClock { system, last: 0 }
    }

    fn read(&self) -> io::Result<u64> {
        let now = SystemTime::now(&self.system)?;
        let since = now.duration_since(SystemTime::UNIX_EPOCH);
        Ok(since.map_or(0, |since| {
            u64::try_from(since.as_millis()).unwrap_or(u64::MAX)
        }))
    }
}

impl<R: std::rt::Clock> Clock for SystemClock<R> {
    fn now(&mut self) -> u64 {
        if let Ok(now) = self.read() {
            self.last = now;
        }
        self.last
    }
}
