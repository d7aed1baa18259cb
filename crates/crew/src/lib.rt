//! Workers that share one store, each in a thread of its own. `docs/DEFINITIONS.md`, "Crews that run", states what they promise.
#![tactic(auto)]

mod collecting;
mod crews;
mod end_lists;
mod ends;
mod gates;
mod merging;
mod pinning;
mod plans;
mod progress;
mod seats;
mod worker_ports;
mod workers;
mod working;
mod writing;

pub use crew_core::Job;
pub use crews::{CrewBack, CrewEnd, run_crew};
pub use end_lists::EndList;
pub use ends::{WorkerEnd, WorkerTurn};
pub use gates::{Gate, OpenGate};
pub use plans::Plan;
pub use stops_core::{Stop, StopList};
pub use worker_ports::WorkerPort;
pub use workers::Worker;
