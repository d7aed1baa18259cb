//! The lines of a schedule of `steps`.
#![tactic(auto)]

mod client_lists;
mod commands;
mod counts;
mod makes;
mod name_lists;
mod names;
mod rules;
mod schedules;
mod seats;
mod short_commands;
mod step_line_lists;
mod step_lines;
mod step_parsing;
mod step_reading;
mod verbs;

pub use client_lists::ClientList;
pub use commands::Command;
pub use counts::{MAX_POLLS, polls};
pub use makes::Made;
pub use name_lists::NameList;
pub use names::{MAX_NAME, is_name};
pub use rules::MAX_CLIENTS;
pub use schedules::{Block, Schedule, SoFar};
pub use seats::{Named, Seat};
pub use short_commands::short_command;
pub use step_line_lists::StepLines;
pub use step_lines::StepLine;
pub use step_parsing::parse_steps;
pub use verbs::{Verb, verb_of};
