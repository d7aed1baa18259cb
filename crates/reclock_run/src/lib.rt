//! The command `reclock`: the operators of a source, each in a thread of its own, and what one thread prints of their shards.
#![tactic(auto)]

mod alone;
mod finishing;
mod operator_ends;
mod operator_ports;
mod printing;
mod working;

pub use alone::{RoundEnd, mint_alone, publish_alone};
pub use operator_ends::OperatorEnd;
pub use operator_ports::OperatorPort;
pub use printing::print_reclock;
pub use working::{open_and_mint, sync_and_publish};
