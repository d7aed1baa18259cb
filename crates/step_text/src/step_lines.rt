// What the lines of a schedule say.
use crate::commands::Command;
use crate::makes::Made;

/// A line of a schedule, an append with its rows. Clients are numbered from 0 in the order of their making.
#[derive(Drop)]
pub enum StepLine {
    /// A client is made.
    Make(Made),
    /// The moment from now on.
    Moment { to: u64 },
    /// A client begins a command.
    Begin { client: u64, what: Command },
    /// A client is polled at most so many times.
    Step { client: u64, polls: u64 },
    /// A client is polled no more.
    Stop { client: u64 },
    /// One Head call.
    Head,
}
