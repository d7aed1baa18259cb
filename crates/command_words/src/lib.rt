//! Which words of a command line are which command.
#![tactic(auto)]

mod commands;
mod crews;
mod faults;
mod found;
pub mod laws;
mod programs;
mod reading;
mod values;

pub use commands::CommandWords;
pub use faults::WordsFault;
pub use reading::parse_words;
