//! The command `steps`: a schedule of single store calls, over one store.
#![tactic(auto)]

mod answers;
mod begins;
mod clients;
mod endings;
mod entered;
mod executing;
mod heard;
mod kinds;
mod lines;
mod makes;
mod polls;
mod printing;
mod sayings;
mod scenes;
mod schedule_runs;
mod speakers;
mod step_faults;
mod stepping;

pub use answers::{expire_says, refusal_says};
pub use begins::begin;
pub use clients::Client;
pub use endings::Ending;
pub use entered::Entered;
pub use heard::Heard;
pub use kinds::step_client;
pub use makes::make;
pub use polls::step_open;
pub use printing::{print_faults, print_head, print_said};
pub use sayings::Saying;
pub use scenes::Scene;
pub use schedule_runs::steps;
pub use speakers::Speaker;
pub use step_faults::StepFault;
pub use stepping::{Stepped, step};
