//! Tests of the program's call, over stores in memory and in a file.
#![tactic(auto)]

#[cfg(test)]
mod deaf_stores;
#[cfg(test)]
mod disks;
#[cfg(test)]
mod programs;
#[cfg(test)]
mod schedules;
#[cfg(test)]
mod trails;
