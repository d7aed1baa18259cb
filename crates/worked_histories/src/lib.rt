//! Worked histories over real bytes: what a client may do, what a store stands for and which answers are legal, computed.
#![tactic(auto)]

pub mod worked;
pub mod worked_answers;
pub mod worked_leases;
pub mod worked_upkeep;
